//! What a program that holds a book wants, under one name: the book, what is asked of it and what it answers, orders and their execution,
//! values, and the text of instructions. Each name is that of a crate below, handed on.
#![tactic(auto)]

pub use paris_board::Board;
pub use paris_book::{Book, Look, Looks, SettleFault, execute_inside};
pub use paris_edits::{Edit, EditReply, RowFault, RowLook, Status, Verdict};
pub use paris_events::{Event, FlagInputs, Input, Move, MoveReply, Reply, Shown};
pub use paris_exec::{Done, Gate, OpenGate, Order, Outcome, execute};
pub use paris_field::{FieldValue, SharedValue};
pub use paris_geometry::{Direction, Geometry};
pub use paris_instr::{Plan, SharedPlan, resolve};
pub use paris_model::{
    Action, BinaryOperator, Combiner, Comparison, Conditional, Inclusion, Instr, Line, Mail, News,
    Operand, Refusal, Sign, UnaryOperator, Unconditional,
};
pub use paris_names::{
    Edition, Fault, FieldNo, FlagName, Items, Key, KeyName, Name, NotAName, Profile, RowId, SetNo,
    Spot, limits,
};
pub use paris_stretches::{Sum, Summary, count_of, put_differences, summary_of};
pub use paris_text::{
    Command, Setting, Syntax, key_of_word, read_command, read_command_in, read_instr, write_instr,
};
