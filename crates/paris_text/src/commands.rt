//! The commands of a script. Each reader of a command takes a line and the place behind its first word.

ghost use Rattle.std.specs.Prelude.{◌≡◌, ◌+◌, ◌≤◌, length, IfOk, IfErr, Ok};
ghost use Rattle.paris_text.specs.Reading.{place, Gives};
ghost use Rattle.paris_text.specs.CommandReading.{GivesIfRoom, IsRefusal, alone_at, rest_at, command_in, command_of};

use crate::instructions::next_instr;
use crate::reader::{
    Syntax, last_axes, line_end, next_key, next_name, next_number, next_profile, next_spot,
    next_values, next_verb,
};
use crate::verbs::{Setting, Verb};
use paris_edits::Edit;
use paris_names::{Fault, KeyName, Profile, RowId, Spot};
use std::alloc::Global;

/// What a line of a script asks for.
#[derive(Debug, Drop)]
pub enum Command {
    /// Edits the declarations, the input data or the program.
    Edit(Edit),
    /// Takes an order for the first row that is ready.
    Take,
    /// Brings the result of the order of this number.
    Bring(u64),
    /// Gives back the orders that were taken.
    Release,
    /// Shows a key at a place of the program.
    Show { key: KeyName, spot: Spot },
    /// Lists the rows of the program.
    List,
    /// Lists the faults of the rows.
    Faults,
    /// Runs orders until all rows are settled.
    Settle,
    /// Chooses the profile. It is the first command of a script, or none.
    Paris(Profile),
}

#[tactic(auto, unfolding(crate::specs::CommandReading::rest_at))]
fn set_command(alloc: Global, line: &[u8], at: usize) -> Result<Command, Fault>
    requires { at ≤ length line.now + 1 }
    ensures { GivesIfRoom (λ x. x) result (rest_at Verb.Set (place line.now at)) }
{
    let (name, at) = next_name(line, at)?;
    let axes = last_axes(alloc, line, at)?;
    Ok(Command::Edit(Edit::AddSet { name, axes }))
}

#[tactic(auto, unfolding(crate::specs::CommandReading::rest_at))]
fn field_command(line: &[u8], at: usize) -> Result<Command, Syntax>
    requires { at ≤ length line.now + 1 }
    ensures { Gives (λ x. x) result (rest_at Verb.Field (place line.now at)) }
{
    let (name, at) = next_name(line, at)?;
    let (set, at) = next_name(line, at)?;
    let (width, at) = next_number(line, at)?;
    line_end(line, at)?;
    Ok(Command::Edit(Edit::AddField { name, set, width }))
}

#[tactic(auto, unfolding(crate::specs::CommandReading::rest_at))]
fn input_command(alloc: Global, line: &[u8], at: usize) -> Result<Command, Fault>
    requires { at ≤ length line.now + 1 }
    ensures { GivesIfRoom (λ x. x) result (rest_at Verb.Input (place line.now at)) }
{
    let (key, at) = next_key(line, at)?;
    let (from, at) = next_number(line, at)?;
    let values = next_values(alloc, line, at)?;
    Ok(Command::Edit(Edit::Input { key, from, values }))
}

#[tactic(auto, unfolding(crate::specs::CommandReading::rest_at))]
fn insert_command(line: &[u8], at: usize) -> Result<Command, Syntax>
    requires { at ≤ length line.now + 1 }
    ensures { Gives (λ x. x) result (rest_at Verb.Insert (place line.now at)) }
{
    let (spot, at) = next_spot(line, at)?;
    let instr = next_instr(line, at)?;
    Ok(Command::Edit(Edit::Insert { spot, instr }))
}

#[tactic(auto, unfolding(crate::specs::CommandReading::rest_at))]
fn delete_command(line: &[u8], at: usize) -> Result<Command, Syntax>
    requires { at ≤ length line.now + 1 }
    ensures { Gives (λ x. x) result (rest_at Verb.Delete (place line.now at)) }
{
    let (row, at) = next_number(line, at)?;
    line_end(line, at)?;
    Ok(Command::Edit(Edit::Delete(RowId(row))))
}

#[tactic(auto, unfolding(crate::specs::CommandReading::rest_at))]
fn replace_command(line: &[u8], at: usize) -> Result<Command, Syntax>
    requires { at ≤ length line.now + 1 }
    ensures { Gives (λ x. x) result (rest_at Verb.Replace (place line.now at)) }
{
    let (row, at) = next_number(line, at)?;
    let instr = next_instr(line, at)?;
    Ok(Command::Edit(Edit::Replace {
        row: RowId(row),
        instr,
    }))
}

#[tactic(auto, unfolding(crate::specs::CommandReading::rest_at))]
fn bring_command(line: &[u8], at: usize) -> Result<Command, Syntax>
    requires { at ≤ length line.now + 1 }
    ensures { Gives (λ x. x) result (rest_at Verb.Bring (place line.now at)) }
{
    let (order, at) = next_number(line, at)?;
    line_end(line, at)?;
    Ok(Command::Bring(order))
}

#[tactic(auto, unfolding(crate::specs::CommandReading::rest_at))]
fn show_command(line: &[u8], at: usize) -> Result<Command, Syntax>
    requires { at ≤ length line.now + 1 }
    ensures { Gives (λ x. x) result (rest_at Verb.Show (place line.now at)) }
{
    let (key, at) = next_key(line, at)?;
    let (spot, at) = next_spot(line, at)?;
    line_end(line, at)?;
    Ok(Command::Show { key, spot })
}

#[tactic(auto, unfolding(crate::specs::CommandReading::rest_at))]
fn paris_command(line: &[u8], at: usize) -> Result<Command, Syntax>
    requires { at ≤ length line.now + 1 }
    ensures { Gives (λ x. x) result (rest_at Verb.Paris (place line.now at)) }
{
    let (profile, at) = next_profile(line, at)?;
    line_end(line, at)?;
    Ok(Command::Paris(profile))
}

/// A command that is one word alone.
fn bare_command(command: Command, line: &[u8], at: usize) -> Result<Command, Syntax>
    requires { at ≤ length line.now + 1 }
    ensures { Gives (λ x. x) result (alone_at command (place line.now at)) }
{
    line_end(line, at)?;
    Ok(command)
}

/// The command of a first word and of the words from a place on.
#[tactic(auto, unfolding(crate::specs::CommandReading::rest_at))]
fn rest_of_command(alloc: Global, verb: Verb, line: &[u8], at: usize) -> Result<Command, Fault>
    requires { at ≤ length line.now + 1 }
    ensures { GivesIfRoom (λ x. x) result (rest_at verb (place line.now at)) }
{
    let command = match verb {
        Verb::Set => return set_command(alloc, line, at),
        Verb::Input => return input_command(alloc, line, at),
        Verb::Field => field_command(line, at),
        Verb::Insert => insert_command(line, at),
        Verb::Delete => delete_command(line, at),
        Verb::Replace => replace_command(line, at),
        Verb::Take => bare_command(Command::Take, line, at),
        Verb::Bring => bring_command(line, at),
        Verb::Release => bare_command(Command::Release, line, at),
        Verb::Show => show_command(line, at),
        Verb::List => bare_command(Command::List, line, at),
        Verb::Faults => bare_command(Command::Faults, line, at),
        Verb::Settle => bare_command(Command::Settle, line, at),
        Verb::Paris => paris_command(line, at),
    };
    Ok(command?)
}

/// The command that a line spells, or the column at which the line leaves the grammar of the commands that may stand there.
pub fn read_command_in(alloc: Global, setting: Setting, line: &[u8]) -> Result<Command, Fault>
    ensures ok { IfOk result (λ c. command_in setting line.now ≡ Ok c) }
    ensures err { IfErr result (λ fault. IsRefusal (command_in setting line.now) fault) }
{
    let (verb, at) = next_verb(setting, line, 0)?;
    rest_of_command(alloc, verb, line, at)
}

/// The command that a line of a script spells, or the column at which the line leaves the grammar of commands. The first command of a
/// script may choose its profile, and `first` says whether the line is that.
pub fn read_command(alloc: Global, line: &[u8], first: bool) -> Result<Command, Fault>
    ensures ok { IfOk result (λ c. command_of first line.now ≡ Ok c) }
    ensures err { IfErr result (λ fault. IsRefusal (command_of first line.now) fault) }
{
    let setting = Setting {
        is_shared: false,
        is_first: first,
    };
    read_command_in(alloc, setting, line)
}
