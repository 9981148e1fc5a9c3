ghost use Rattle.calc_watch.specs.Reports.{TellsValuesApart};

/// The test of values that are known tells any two apart.
pub fn values_are_told_apart()
    ensures { TellsValuesApart }
{}
