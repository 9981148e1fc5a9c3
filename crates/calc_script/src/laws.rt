ghost use Rattle.calc_script.specs.Commands.{MakesSmallBooks};

/// No line makes a greater book than such a book may be.
pub fn lines_make_small_books()
    ensures { MakesSmallBooks }
{}
