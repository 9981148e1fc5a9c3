//! The value of a formula at its cell: its tokens are run over a stack of operands.
#![tactic(auto)]

mod calls;
mod interpreter;
mod operand;
mod operators;
mod scalar;
mod stack;

pub use interpreter::interpret;
