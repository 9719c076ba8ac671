//! What a reader must believe of the machine: the vocabulary of instructions, and in `specs/` what each of them means.
#![tactic(auto)]

mod actions;
pub mod laws;
mod operators;

pub use actions::{Action, Conditional, Instr, Line, Mail, News, Operand, Refusal, Unconditional};
pub use operators::{BinaryOperator, Combiner, Comparison, Inclusion, Sign, UnaryOperator};
