//! About how much work a row is: a hint, on which nothing rests.

use paris_instr::Plan;
use paris_model::{Action, BinaryOperator, Conditional, Operand};
use paris_names::SetNo;

/// How many bits of sums are so much work that a thread for them pays: some 50 microseconds.
pub(crate) const WORTH_A_THREAD: u64 = 1 << 21;

/// How many times as long as a bit of a sum one takes where numbers are multiplied or travel between processors.
const FAR: u64 = 10;

/// How many times as long as a bit of a sum one takes that an action makes.
fn weight(action: &Action<Operand, SetNo>) -> u64 {
    match action {
        Action::ByMail(_) | Action::AlongLine(_) => FAR,
        Action::OnSelected(
            Conditional::Binary {
                operator: BinaryOperator::UnsignedMultiply
                | BinaryOperator::SignedMultiply
                | BinaryOperator::Truncate
                | BinaryOperator::Remainder,
                ..
            },
        ) => FAR,
        _ => 1,
    }
}

/// About how much work a plan is, in bits of sums.
pub(crate) fn work_of(plan: &Plan) -> u64 {
    let mut bits: u64 = 0;
    for key in plan.writes() {
        bits = bits.saturating_add(plan.width(*key));
    }
    let processors = plan.geometry().vps() as u64;
    bits.saturating_mul(processors)
        .saturating_mul(weight(&plan.action()))
}
