/// What stands in front of the units of a recalculation: who takes a unit enters it with its number in its
/// wave before the formulas of that unit are evaluated. `enter` always returns.
pub trait Gate {
    fn enter(&self, unit: u64);
}

/// The gate at which nothing happens.
pub struct NoGate;

impl Gate for NoGate {
    fn enter(&self, _unit: u64) {}
}
