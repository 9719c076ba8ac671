//! Resolving an instruction against a board.

ghost use Rattle.std.specs.Prelude.{◌≡◌, ◌==◌, ◌<◌, length, Ok, IfOk, IfErr};
ghost use Rattle.std.specs.List.{list_all};
ghost use Rattle.paris_names.specs.Faults.{IsFaultOf};
ghost use Rattle.paris_instr.specs.Resolve.{conditional_set, unconditional_set, action_set, set_of_operand, set_of_action, is_in_one_set, resolution, fault_in, IsOperandOf, AreOperandsOf, IsFoundOn, IsFittedTo};

use crate::fits::{has_bad_axis, has_bad_length, has_bad_operand, has_overlap};
use crate::naming::action_named;
use crate::operands::all_operands;
use crate::plans::Plan;
use paris_board::Board;
use paris_model::{Action, Conditional, Instr, Operand, Unconditional};
use paris_names::{Fault, Key, SetNo};
use std::alloc::Global;

/// The set that an action names in place of fields.
fn action_set(action: &Action<Operand, SetNo>) -> Option<SetNo>
    ensures { result ≡ action_set action.now }
{
    match action {
        Action::OnSelected(action) => conditional_set(action),
        Action::OnAll(action) => unconditional_set(action),
        Action::ByNews(_) | Action::AlongLine(_) | Action::ByMail(_) => None,
    }
}

fn conditional_set(action: &Conditional<Operand, SetNo>) -> Option<SetNo>
    ensures { result ≡ conditional_set action.now }
{
    match *action {
        Conditional::SetTest(set) | Conditional::ClearTest(set) => Some(set),
        _ => None,
    }
}

fn unconditional_set(action: &Unconditional<Operand, SetNo>) -> Option<SetNo>
    ensures { result ≡ unconditional_set action.now }
{
    match *action {
        Unconditional::SetContext(set)
        | Unconditional::ClearContext(set)
        | Unconditional::InvertContext(set)
        | Unconditional::AndContextWithTest(set) => Some(set),
        _ => None,
    }
}

/// The set of an operand.
fn set_of_operand(board: &Board, operand: Operand) -> SetNo
    requires { IsOperandOf board.now operand }
    ensures value { result ≡ set_of_operand board.now operand }
    ensures declared { result < length board.now.sets }
{
    board.set_of_key(Key::Field(operand.field))
}

/// The set of an action: the one that it names, else that of its first operand.
fn set_of_action(board: &Board, action: &Action<Operand, SetNo>) -> SetNo
    requires { IsFoundOn board.now action.now }
    ensures value { result ≡ set_of_action board.now action.now }
    ensures declared { result < length board.now.sets }
{
    let operands = all_operands(action);
    match action_set(action) {
        Some(set) => set,
        None => match operands.as_slice() {
            [first, ..] => set_of_operand(board, *first),
            [] => unreachable!(),
        },
    }
}

/// Whether operands are of a set.
fn are_of_set(board: &Board, set: SetNo, operands: &[Operand]) -> bool
    requires { AreOperandsOf board.now operands.now }
    ensures { result ≡ list_all (λ o. set_of_operand board.now o == set) operands.now }
{
    for operand in operands {
        if set_of_operand(board, *operand) != set {
            return false;
        }
    }
    true
}

/// Whether all operands of an action are of its set.
fn is_in_one_set(board: &Board, action: &Action<Operand, SetNo>) -> bool
    requires { IsFoundOn board.now action.now }
    ensures { result ≡ is_in_one_set board.now action.now }
{
    let set = set_of_action(board, action);
    are_of_set(board, set, all_operands(action).as_slice())
}

/// The plan of an instruction on a board. It is refused by the first of these faults: `NoSet` where the name of a set is
/// none's, `NoField` where another name is no field's, `WrongSet` where its fields are of two sets, `BadAxis` where the set
/// has no axis of its number, `BadLength` where a length is 0 or above the width of an operand, `BadOperand` where a
/// constant needs more bits than its length, an operand of one bit is wider, or a coordinate is outside its axis, `Overlap`
/// where the notify field is the destination; or by `NoMemory` where none of them is due and memory is refused.
pub fn resolve(alloc: Global, board: &Board, instr: Instr) -> Result<Plan, Fault>
    ensures ok { IfOk result (λ plan. resolution board.now instr ≡ Ok plan) }
    ensures err { IfErr result (λ fault. IsFaultOf (fault_in (resolution board.now instr)) fault) }
    ensures fitted { IfOk result (IsFittedTo board.now) }
{
    let action = action_named(board, &instr)?;
    if !is_in_one_set(board, &action) {
        return Err(Fault::WrongSet);
    }
    let set = set_of_action(board, &action);
    let geometry = board.geometry(set);
    if has_bad_axis(geometry, &action) {
        return Err(Fault::BadAxis);
    }
    if has_bad_length(&action) {
        return Err(Fault::BadLength);
    }
    if has_bad_operand(geometry, &action) {
        return Err(Fault::BadOperand);
    }
    if has_overlap(&action) {
        return Err(Fault::Overlap);
    }
    let plan = Plan::new(alloc, instr, set, geometry, action)?;
    Ok(plan)
}
