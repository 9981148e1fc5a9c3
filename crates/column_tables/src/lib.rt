//! Tables of edits of columns, and what they leave, told as neighbouring rows of one kind.
#![tactic(auto)]

#[cfg(test)]
mod cases;
#[cfg(test)]
mod columns;
#[cfg(test)]
mod room;
