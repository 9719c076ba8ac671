//! Tests of desks: what their seats do, one after another and in threads, and how the desks are ended.

ghost use Rattle.std.specs.Prelude.{◌≡◌, ◌≤◌};
ghost use Rattle.paris_records.specs.declared.limits.TheConstants.{MAX_HISTORY, MAX_SEATS};

use crate::endings::Ending::{Closes, ClosesInTwo, IsDiscarded, IsSpoilt, Misses};
use crate::endings::Spoil::*;
use crate::endings::{Ending, ends};
use crate::spellings::Text;
use crate::steps::Change::{Delete, Field, FieldOf, Input, Set};
use crate::steps::Step::*;
use crate::steps::{Step, plays};
use paris_desk::{Desk, Office, Opening, Seat};
use paris_edits::Verdict::{Kept, Stale};
use paris_names::Spot::{After, End};
use paris_names::{Edition, Fault, Profile, RowId};
use std::alloc::Global;
use std::marker::Brand;
use std::process::Abort;
use std::sync::Wait;
use std::thread::{Threads, join};

const SUM: Text = b"u-add-3-1L c a b 8";

/// 2 to the power of 64.
const LOW: u128 = 18_446_744_073_709_551_616;

/// 2 to the power of 127.
const HIGH: u128 = 170_141_183_460_469_231_731_687_303_715_884_105_728;

const LOW_AND_HIGH: u128 = 170_141_183_460_469_231_750_134_047_789_593_657_344;

/// What the seats of a desk do.
#[derive(Clone, Copy)]
enum Script {
    /// Steps one after another, each of the seat at its place.
    Plays(&'static [(usize, Step)]),
    /// The first two seats call at once.
    CallsAtOnce,
}

/// A seat makes twenty calls.
fn lists_often<L: Office>(
    rt: &(impl Abort + Wait),
    desk: &Desk<L>,
    seat: &mut Seat<L>,
) -> Result<(), Fault> {
    for _ in 0..10u64 {
        desk.release(rt, seat)?;
        desk.list(rt, seat)?;
    }
    assert!(rt; seat.receipts().len() == 20);
    Ok(())
}

/// Two seats make twenty calls each, at once.
fn both_list<L: Office + Send + Sync, R: Abort + Threads + Wait + Sync>(
    rt: &R,
    desk: &Desk<L>,
    one: &mut Seat<L>,
    two: &mut Seat<L>,
) -> Result<(), Fault> {
    let (first, second) = join(
        rt,
        || lists_often(rt, desk, &mut *one),
        || lists_often(rt, desk, &mut *two),
    );
    first?;
    second
}

/// Two seats call at once: each has its own receipts, and a later call counts all.
fn calls_at_once<L: Office + Send + Sync, R: Abort + Threads + Wait + Sync>(
    rt: &R,
    desk: &Desk<L>,
    seats: &mut [Seat<L>],
) -> Result<(), Fault> {
    let (one, rest) = seats.split_first_mut().expect(rt, "there is a seat");
    let two = rest.first_mut().expect(rt, "there are two seats");
    both_list(rt, desk, one, two)?;
    one.learn(two.front());
    desk.release(rt, one)?;
    assert!(rt; one.front().0 == 41);
    Ok(())
}

fn follows<L: Office + Send + Sync, R: Abort + Threads + Wait + Sync>(
    rt: &R,
    alloc: Global,
    desk: &Desk<L>,
    seats: &mut [Seat<L>],
    script: Script,
) -> Result<(), Fault> {
    match script {
        Script::Plays(steps) => plays(rt, alloc, desk, seats, steps),
        Script::CallsAtOnce => calls_at_once(rt, desk, seats),
    }
}

/// Whether a script is followed at a desk, and the desk is ended as it must be.
fn opens<L: Office + Send + Sync, R: Abort + Threads + Wait + Sync>(
    rt: &R,
    alloc: Global,
    opening: Opening,
    profile: Profile,
    size: (u64, u64),
    script: Script,
    ending: Ending,
) -> Result<bool, Fault>
    requires opening { (opening.blank.name ≡ L.name) × (opening.blank.parts ≡ L.parts) × (opening.seen.book ≡ L.log) }
    requires profile { profile ≡ L.profile }
    requires seats { (size.0 ≡ L.parts) × (size.0 ≡ L.seats) }
    requires few { (1 ≤ size.0) × (size.0 ≤ MAX_SEATS) }
    requires limit { (size.1 ≡ L.limit) × (size.1 ≤ MAX_HISTORY) }
{
    let (desk, mut seats) = Desk::<L>::with_profile(rt, alloc, opening, profile, size.0, size.1)?;
    match follows(rt, alloc, &desk, &mut seats, script) {
        Ok(()) => ends(rt, alloc, desk, seats, ending),
        Err(fault) => {
            desk.discard(rt);
            Err(fault)
        }
    }
}

/// At a desk of a profile with so many seats, whose history has room for so many entries, a script is followed, and then the desk is
/// ended.
fn tries_in<R: Abort + Threads + Wait + Sync>(
    rt: &R,
    alloc: Global,
    profile: Profile,
    size: (u64, u64),
    script: Script,
    ending: Ending,
) -> Result<(), Fault>
    requires few { (1 ≤ size.0) × (size.0 ≤ MAX_SEATS) }
    requires limit { size.1 ≤ MAX_HISTORY }
{
    let opening = Opening::new(size.0);
    let is_ended = opens::<Brand, R>(rt, alloc, opening, profile, size, script, ending)?;
    assert!(rt; is_ended);
    Ok(())
}

/// The same at a desk of profile 1.
fn tries<R: Abort + Threads + Wait + Sync>(
    rt: &R,
    alloc: Global,
    size: (u64, u64),
    script: Script,
    ending: Ending,
) -> Result<(), Fault>
    requires few { (1 ≤ size.0) × (size.0 ≤ MAX_SEATS) }
    requires limit { size.1 ≤ MAX_HISTORY }
{
    tries_in(rt, alloc, Profile::One, size, script, ending)
}

#[test]
fn a_desk_is_full_at_its_limit(rt: HostRuntime) -> Result<(), Fault> {
    const STEPS: &[(usize, Step)] = &[
        (0, Lists(&[])),
        (0, Lists(&[])),
        (0, MayNotList(Fault::HistoryFull(2))),
        (0, Has(2, 2)),
    ];
    let script = Script::Plays(STEPS);
    tries(&rt, rt.alloc(), (1, 2), script, Closes(&[2]))
}

#[test]
fn a_false_front_is_refused(rt: HostRuntime) -> Result<(), Fault> {
    const STEPS: &[(usize, Step)] = &[
        (0, Learns(99)),
        (0, Refuses(Delete(1), Fault::StrangeSeat(99, 0))),
        (0, Has(0, 99)),
    ];
    let script = Script::Plays(STEPS);
    tries(&rt, rt.alloc(), (1, 9), script, IsDiscarded)
}

/// One seat makes a program, and the other one runs its first row and looks at what it left.
const TWO_SEATS: &[(usize, Step)] = &[
    (0, Accepts(Set(&[4]))),
    (0, Accepts(Field(b"a"))),
    (0, Accepts(Field(b"b"))),
    (0, Accepts(Field(b"c"))),
    (0, Accepts(Input(b"a", &[10, 20, 30, 250]))),
    (0, Accepts(Input(b"b", &[1, 2, 3, 10]))),
    (0, Inserts(SUM, 1)),
    (0, Inserts(SUM, 2)),
    (0, Lists(&[1, 2])),
    (1, Takes(1, 7)),
    (1, Brings(0, Kept)),
    (1, Shows(b"c", After(RowId(1)), &[11, 22, 33, 4])),
    (0, Has(9, 9)),
    (1, Has(3, 12)),
];

#[test]
fn a_desk_is_closed_with_its_last_seat(rt: HostRuntime) -> Result<(), Fault> {
    let script = Script::Plays(TWO_SEATS);
    tries(&rt, rt.alloc(), (2, 100), script, Misses(1, &[9, 3]))
}

#[test]
fn the_least_missing_seat_is_told(rt: HostRuntime) -> Result<(), Fault> {
    let script = Script::Plays(TWO_SEATS);
    tries(&rt, rt.alloc(), (2, 100), script, Misses(0, &[9, 3]))
}

#[test]
fn two_seats_in_profile_two(rt: HostRuntime) -> Result<(), Fault> {
    const STEPS: &[(usize, Step)] = &[
        (0, Accepts(Set(&[4]))),
        (0, Refuses(FieldOf(b"a", 129), Fault::BadWidth)),
        (0, Accepts(FieldOf(b"a", 128))),
        (0, Accepts(FieldOf(b"b", 128))),
        (0, Accepts(FieldOf(b"c", 128))),
        (0, Accepts(Input(b"a", &[10, LOW, 30, u128::MAX]))),
        (0, Accepts(Input(b"b", &[1, HIGH, 3, 5]))),
        (0, Inserts(b"u-add-3-1L c a b 128", 1)),
        (0, Inserts(SUM, 2)),
        (0, Lists(&[1, 2])),
        (1, Takes(1, 7)),
        (1, Brings(0, Kept)),
        (1, Shows(b"c", After(RowId(1)), &[11, LOW_AND_HIGH, 33, 4])),
        (0, Has(10, 10)),
        (1, Has(3, 13)),
    ];
    let script = Script::Plays(STEPS);
    let ending = ClosesInTwo(&[10, 3]);
    tries_in(&rt, rt.alloc(), Profile::Two, (2, 100), script, ending)
}

#[test]
fn a_wide_field_is_refused_in_profile_one(rt: HostRuntime) -> Result<(), Fault> {
    const STEPS: &[(usize, Step)] = &[
        (0, Accepts(Set(&[4]))),
        (0, Refuses(FieldOf(b"a", 65), Fault::BadWidth)),
        (0, Accepts(FieldOf(b"a", 64))),
    ];
    let script = Script::Plays(STEPS);
    tries(&rt, rt.alloc(), (1, 100), script, Closes(&[3]))
}

#[test]
fn a_first_script_on_one_seat(rt: HostRuntime) -> Result<(), Fault> {
    const STEPS: &[(usize, Step)] = &[
        (0, Accepts(Set(&[4]))),
        (0, Accepts(Field(b"a"))),
        (0, Accepts(Field(b"b"))),
        (0, Accepts(Field(b"c"))),
        (0, Accepts(Input(b"a", &[10, 20, 30, 250]))),
        (0, Accepts(Input(b"b", &[1, 2, 3, 10]))),
        (0, Inserts(SUM, 1)),
        (0, Waits(b"c", End, 1)),
        (0, Takes(1, 7)),
        (0, Brings(0, Kept)),
        (0, Shows(b"c", End, &[11, 22, 33, 4])),
    ];
    let script = Script::Plays(STEPS);
    tries(&rt, rt.alloc(), (1, 100), script, Closes(&[11]))
}

#[test]
fn rows_that_are_out_on_one_seat(rt: HostRuntime) -> Result<(), Fault> {
    const STEPS: &[(usize, Step)] = &[
        (0, Accepts(Set(&[4]))),
        (0, Accepts(Field(b"a"))),
        (0, Accepts(Field(b"c"))),
        (0, Accepts(Field(b"d"))),
        (0, Inserts(b"u-move-1L c a 8", 1)),
        (0, Inserts(b"u-move-1L d c 8", 2)),
        (0, Takes(1, 5)),
        (0, Brings(0, Kept)),
        (0, Takes(2, 6)),
        (0, Accepts(Input(b"a", &[9]))),
        (0, Brings(1, Stale(Edition(7)))),
        (0, Takes(1, 7)),
        (0, Releases),
        (0, Takes(1, 7)),
    ];
    let script = Script::Plays(STEPS);
    tries(&rt, rt.alloc(), (1, 100), script, Closes(&[14]))
}

#[test]
fn refused_edits_are_recorded(rt: HostRuntime) -> Result<(), Fault> {
    const STEPS: &[(usize, Step)] = &[
        (0, Refuses(Field(b"a"), Fault::NoSet)),
        (1, Refuses(Delete(7), Fault::NoRow)),
        (0, Has(1, 1)),
        (1, Has(1, 2)),
    ];
    let script = Script::Plays(STEPS);
    tries(&rt, rt.alloc(), (3, 100), script, Closes(&[1, 1, 0]))
}

#[test]
fn two_seats_call_at_once(rt: HostRuntime) -> Result<(), Fault> {
    let ending = Closes(&[21, 20]);
    tries(&rt, rt.alloc(), (2, 100), Script::CallsAtOnce, ending)
}

#[test]
fn an_audit_finds_each_change(rt: HostRuntime) -> Result<(), Fault> {
    let script = Script::Plays(TWO_SEATS);
    for change in [
        TradesLists,
        LosesAList,
        LosesAReceipt,
        LosesAnEntry,
        EntryNamesAnotherSeat,
        ReceiptNamesAnotherSeat,
        ReceiptHasNumber(0),
        ReceiptHasNumber(11),
        ReceiptHasNumber(13),
        TellsAnotherEvent,
        TellsAnotherReply,
        TellsAReplyThatIsNotMade,
    ] {
        tries(&rt, rt.alloc(), (2, 100), script, IsSpoilt(change))?;
    }
    Ok(())
}
