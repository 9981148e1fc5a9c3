use calc_addr::Area;

/// What a name stands for.
#[derive(Clone, Copy, Debug, PartialEq, Eq)]
pub enum Looked {
    /// The name isn't defined.
    Absent,
    /// The name's area was deleted.
    Gone,
    At(Area),
}
