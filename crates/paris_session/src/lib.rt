//! A session: reads a script line by line from any reader, and writes the reply to each of its commands to any writer. With the texts of
//! replies, and single calls of a reader and a writer, counted.
#![tactic(auto)]

mod answers;
mod asked;
mod calls;
mod hand;
pub mod laws;
mod orders;
mod replies;
mod room;
mod run;
mod settlers;
mod tally;
mod texts;
mod turns;
mod whole;

pub use answers::{NoReply, Session, Summary};
pub use asked::Asked;
pub use calls::{read_once, write_once};
pub use hand::Hand;
pub use replies::{faults_text, list_text, values_text};
pub use room::Room;
pub use run::{RunFault, run_script, run_script_bounded};
pub use settlers::{Alone, Settler};
pub use tally::{Given, Sent, Tally};
pub use texts::{WriteFailed, write_out};
pub use whole::transcript;
