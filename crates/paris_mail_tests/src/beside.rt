//! Gets, sends and combining sends beside the plain program, and beside a loop over numbers.

ghost use Rattle.std.specs.Prelude.{◌≡◌, ◌<◌, ◌≤◌, ℕ, List};
ghost use Rattle.paris_plain.specs.Narrow.{IsNarrow};
ghost use Rattle.paris_model.specs.declared.actions.Action.TheVariants.{ByMail};

use crate::calls::{Call, Outcome, made};
use crate::cases::{Aim, Choice, Lists, SETS, Sample, random_sample, random_wide_sample};
use crate::expected::expected;
use paris_geometry::Geometry;
use paris_model::{Combiner, Mail, Operand};
use paris_names::{FieldNo, FlagName, Items, Key, SetNo};
use paris_plain::{Inputs, flags_are_bits, mail_after, mail_refusal};
use paris_router::checked_mail;
use std::alloc::Global;
use std::process::Abort;
use std::test::Fail;

const AIMS: &[Aim] = &[Aim::Apart, Aim::Meeting, Aim::Anywhere, Aim::Outside];

const CALLS: &[Call] = &[
    Call::Get,
    Call::Send,
    Call::SendWith(Combiner::Sum),
    Call::SendWith(Combiner::BitOr),
    Call::SendWith(Combiner::BitAnd),
    Call::SendWith(Combiner::BitXor),
    Call::SendWith(Combiner::Maximum),
    Call::SendWith(Combiner::Minimum),
];

/// A field of a width in bits.
fn operand(number: u64, width: u64) -> Operand
    requires { number < 64 }
    ensures { result ≡ record { field = number; width = width } }
{
    Operand {
        field: FieldNo::new(number),
        width,
    }
}

/// The instruction of a call from field 0 to field 1, by the addresses in field 2, which notifies in field 3.
fn mail(call: Call, length: u64) -> Mail<Operand>
    requires positive { 0 < length }
    requires narrow { length ≤ 64 }
    ensures { (axes : List ℕ) → IsNarrow axes (ByMail result) }
{
    let from = operand(0, 64);
    let to = operand(1, 64);
    let addresses = operand(2, 64);
    let notify = Some(operand(3, 1));
    match call {
        Call::Get => Mail::Get {
            to,
            addresses,
            from,
            length,
        },
        Call::Send => Mail::Send {
            to,
            addresses,
            from,
            length,
            notify,
        },
        Call::SendWith(combiner) => Mail::CombiningSend {
            combiner,
            to,
            addresses,
            from,
            length,
            notify,
        },
    }
}

/// What an instruction sees: the numbers in field 0, the destination in field 1, and the addresses in field 2.
fn seen(rt: &impl Abort, alloc: Global, lists: &Lists) -> Result<Inputs, Fail> {
    let set = SetNo::new(0);
    let mut keys = Vec::new(alloc);
    let mut values = Vec::new(alloc);
    for (key, list) in [
        (Key::Field(FieldNo::new(0)), &lists.numbers),
        (Key::Field(FieldNo::new(1)), &lists.old),
        (Key::Field(FieldNo::new(2)), &lists.addresses),
        (Key::Flag(set, FlagName::Context), &lists.context),
    ] {
        keys.push(key)?;
        values.push(Items::new(list.clone()?))?;
    }
    assert!(rt; flags_are_bits(keys.as_slice(), values.as_slice()));
    let geometry = Geometry::new(&[lists.numbers.len() as u64])?;
    Ok(Inputs::new(set, geometry, keys, values))
}

/// What the plain program leaves.
fn left(
    rt: &impl Abort,
    alloc: Global,
    lists: &Lists,
    call: Call,
    bits: u64,
) -> Result<Outcome, Fail>
    requires positive { 0 < bits }
    requires narrow { bits ≤ 64 }
{
    let inputs = seen(rt, alloc, lists)?;
    let mail = mail(call, bits);
    if let Some(refusal) = mail_refusal(alloc, &inputs, &mail)? {
        return Ok(Err(refusal));
    }
    let destination = mail_after(alloc, &inputs, &mail, &Key::Field(FieldNo::new(1)))?;
    let notify = match call {
        Call::Get => Vec::new(alloc),
        Call::Send | Call::SendWith(_) => {
            mail_after(alloc, &inputs, &mail, &Key::Field(FieldNo::new(3)))?
        }
    };
    Ok(Ok((destination, notify)))
}

/// Stops where two outcomes of a call aren't the same.
pub(crate) fn agrees(rt: &impl Abort, call: Call, first: &Outcome, second: &Outcome) {
    match (first, second) {
        (Ok((destination, notify)), Ok((other, others))) => {
            assert_eq!(rt; destination.as_slice(), other.as_slice(), "{call:?}");
            assert_eq!(rt; notify.as_slice(), others.as_slice(), "{call:?}");
        }
        (Err(cause), Err(other)) => assert_eq!(rt; cause, other, "{call:?}"),
        _ => panic!(rt; "{call:?} is refused and isn't"),
    }
}

/// Runs a call on the low `bits` bits beside a loop over numbers and, where there are few processors, beside the plain program.
fn check(
    rt: &impl Abort,
    alloc: Global,
    sample: &Sample,
    call: Call,
    bits: u64,
) -> Result<(), Fail> {
    let made = made(rt, alloc, sample, call, bits)?;
    agrees(
        rt,
        call,
        &made,
        &expected(rt, alloc, &sample.lists, call, bits)?,
    );
    if 0 < bits && bits <= 64 && sample.lists.numbers.len() <= 256 {
        agrees(
            rt,
            call,
            &made,
            &left(rt, alloc, &sample.lists, call, bits)?,
        );
    }
    Ok(())
}

/// Runs every so many-th call, from the one in turn on: of all bits, and of the low half.
fn run(
    rt: &impl Abort,
    alloc: Global,
    sample: &Sample,
    every: usize,
    turn: usize,
) -> Result<(), Fail> {
    assert!(rt; every > 0);
    let width = sample.x.width();
    for (k, call) in CALLS.iter().enumerate() {
        if k % every == turn % every {
            check(
                rt,
                alloc,
                sample,
                *call,
                width - (width / 2) * (turn as u64 % 2),
            )?;
        }
    }
    Ok(())
}

/// Stops where the messages aren't those of the selected processors, in their order.
fn is_in_order(rt: &impl Abort, alloc: Global, sample: &Sample) -> Result<(), Fail> {
    let Sample {
        lists,
        selected,
        addresses,
        x,
        ..
    } = sample;
    let Ok(mail) = checked_mail(alloc, addresses, x, selected, x.width())? else {
        return Ok(());
    };
    let count = lists.numbers.len();
    assert!(rt; lists.context.len() == count && lists.addresses.len() == count);
    let mut sent = 0usize;
    for v in 0..count {
        if lists.context[v] == 1 {
            let message = mail.get(sent).map(|message| (message.0 as u128, message.1));
            let wanted = (lists.addresses[v], lists.numbers[v]);
            assert_eq!(rt; message, Some(wanted), "from {v} of {count}");
            sent = sent.wrapping_add(1);
        }
    }
    assert_eq!(rt; sent, mail.len(), "of {count}");
    Ok(())
}

/// Runs calls in a set for each aim, for the next one from the next call on.
fn run_aims(
    rt: &impl Abort,
    alloc: Global,
    count: usize,
    width: u64,
    every: usize,
    turn: usize,
) -> Result<(), Fail> {
    for (k, aim) in AIMS.iter().enumerate() {
        let sample = random_sample(rt, alloc, *aim, count, width)?;
        is_in_order(rt, alloc, &sample)?;
        run(rt, alloc, &sample, every, turn.wrapping_add(k))?;
    }
    Ok(())
}

#[test]
fn mail_arrives_where_it_is_sent(rt: HostRuntime) -> Result<(), Fail> {
    for (count, width, every, turn) in SETS {
        run_aims(&rt, rt.alloc(), *count, *width, *every, *turn)?;
    }
    Ok(())
}

#[test]
fn addresses_have_any_width(rt: HostRuntime) -> Result<(), Fail> {
    for address_width in [20, 32, 33, 64, 65, 128] {
        for (k, aim) in AIMS.iter().enumerate() {
            for width in [8, 17, 64, 65] {
                let alloc = rt.alloc();
                let sample = random_wide_sample(
                    &rt,
                    alloc,
                    *aim,
                    Choice::Most,
                    128,
                    width,
                    address_width,
                )?;
                run(&rt, alloc, &sample, 2, k)?;
            }
        }
    }
    Ok(())
}

#[test]
fn all_or_none_are_selected(rt: HostRuntime) -> Result<(), Fail> {
    for choice in [Choice::Blocks, Choice::Every, Choice::Nobody] {
        for aim in AIMS {
            for width in [1, 7, 8, 9, 16, 17, 32, 33, 64, 65] {
                for count in [32, 64, 256] {
                    let alloc = rt.alloc();
                    let sample = random_wide_sample(&rt, alloc, *aim, choice, count, width, 20)?;
                    run(&rt, alloc, &sample, 8, 0)?;
                    run(&rt, alloc, &sample, 8, 1)?;
                }
            }
        }
    }
    Ok(())
}
