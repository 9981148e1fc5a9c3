ghost use Rattle.std.specs.Prelude.{◌≡◌};
ghost use Rattle.calc_model.specs.Books.{entry_named};

use crate::looked::Looked;

/// A table of names. Contracts see the list of its entries: names in ASCII capitals, each once, with the
/// area that it stands for, or none where that was deleted.
pub trait NameTable {
    ghost use Rattle.calc_model.specs.Books.{NameEntries};

    ghost entries: { Self → NameEntries };

    /// What the name stands for, whatever the case of its ASCII letters.
    fn lookup(&self, name: &[u8]) -> Looked
        ensures { result ≡ entry_named (entries self.now) name.now };
}
