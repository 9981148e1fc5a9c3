//! What the cells of columns show, kept as one list of items a kind, by row.
#![tactic(auto)]

mod column;
mod item;
mod lane;
mod lanes;
mod numbers;
mod sheets;
mod span;
mod spans;
mod values;
mod writes;

pub use column::ValueColumn;
pub use sheets::ValueSheets;
pub use span::ValueSpan;
pub use spans::Spans;
