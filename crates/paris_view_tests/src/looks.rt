//! Tests of looks: what two seats see, one after another.

ghost use Rattle.std.specs.Prelude.{◌≡◌, ◌≤◌};
ghost use Rattle.paris_records.specs.declared.limits.TheConstants.{MAX_HISTORY, MAX_SEATS};

use crate::spellings::{Text, instr_of, key, name};
use paris_audit::audit_with;
use paris_book::Look;
use paris_desk::{CloseFault, Closed, Desk, Front, Office, Opening, Seat, close};
use paris_edits::{Edit, Verdict};
use paris_exec::execute;
use paris_names::Spot::{After, End};
use paris_names::{Fault, Items, KeyName, Profile, RowId, Spot};
use paris_view::View;
use std::alloc::{AllocError, Global};
use std::marker::Brand;
use std::process::Abort;
use std::sync::Wait;

/// What a look answers.
#[derive(Clone, Copy)]
enum Sight {
    /// The key is settled, with these numbers.
    Settled(&'static [u128]),
    /// The key is pending, for the row of this id.
    Pending(u64),
    /// There is nothing to look at, by this fault.
    Refused(Fault),
}

/// Whether a look is what is wanted.
fn is_wanted(look: &Look<'_>, wanted: Sight) -> Result<bool, AllocError> {
    match (look, wanted) {
        (Look::Settled(value), Sight::Settled(numbers)) => {
            Ok(value.numbers()?.as_slice() == numbers)
        }
        (Look::Pending(row), Sight::Pending(id)) => Ok(*row == RowId(id)),
        _ => Ok(false),
    }
}

/// Whether a refusal is what is wanted.
fn is_refusal(fault: Fault, wanted: Sight) -> bool {
    match wanted {
        Sight::Refused(other) => fault == other,
        _ => false,
    }
}

/// A seat looks at a key, and says whether it sees what is wanted.
fn looks_at<L: Office>(
    desk: &Desk<L>,
    seat: Seat<L>,
    name: KeyName,
    spot: Spot,
    wanted: Sight,
) -> (Seat<L>, bool) {
    match View::new(desk).look(seat, name, spot) {
        Ok(held) => {
            let is_met = is_wanted(&held.look(), wanted);
            (held.end(), is_met.unwrap_or(false))
        }
        Err((seat, fault)) => (seat, is_refusal(fault, wanted)),
    }
}

/// A seat looks at a key, and sees what is wanted. It was told of so many entries then.
fn sees<L: Office>(
    rt: &impl Abort,
    desk: &Desk<L>,
    seat: Seat<L>,
    place: (Text, Spot),
    wanted: Sight,
    front: u64,
) -> Seat<L> {
    let (seat, is_met) = looks_at(desk, seat, key(rt, place.0), place.1, wanted);
    assert!(rt; is_met && seat.front() == Front(front));
    seat
}

fn input_of(
    rt: &impl Abort,
    alloc: Global,
    field: Text,
    numbers: &[u128],
) -> Result<Edit, AllocError> {
    Ok(Edit::Input {
        key: key(rt, field),
        from: 0,
        values: Items::new(Vec::from_slice(alloc, numbers)?),
    })
}

fn field_of(rt: &impl Abort, field: Text, width: u64) -> Edit {
    Edit::AddField {
        name: name(rt, field),
        set: name(rt, b"S"),
        width,
    }
}

/// A seat declares a set of four processors with fields as wide as they may be.
fn declares<L: Office>(
    rt: &(impl Abort + Wait),
    alloc: Global,
    desk: &Desk<L>,
    seat: &mut Seat<L>,
    profile: Profile,
) -> Result<(), Fault> {
    let set = Edit::AddSet {
        name: name(rt, b"S"),
        axes: Items::new(Vec::from_slice(alloc, &[4])?),
    };
    desk.edit(rt, seat, set)?;
    for field in [b"a", b"b", b"c"] {
        desk.edit(rt, seat, field_of(rt, field, profile.max_width()))?;
    }
    Ok(())
}

/// A seat gives a field numbers.
fn gives<L: Office>(
    rt: &(impl Abort + Wait),
    alloc: Global,
    desk: &Desk<L>,
    seat: &mut Seat<L>,
    field: Text,
    numbers: &[u128],
) -> Result<(), Fault> {
    let input = input_of(rt, alloc, field, numbers)?;
    desk.edit(rt, seat, input)?;
    Ok(())
}

/// A seat puts in a row that adds two fields.
fn adds<L: Office>(
    rt: &(impl Abort + Wait),
    desk: &Desk<L>,
    seat: &mut Seat<L>,
) -> Result<(), Fault> {
    let row = Edit::Insert {
        spot: End,
        instr: instr_of(rt, b"u-add-3-1L c a b 8"),
    };
    desk.edit(rt, seat, row)?;
    Ok(())
}

/// A seat declares a set of four processors with fields as wide as they may be, gives two of them numbers, and puts in a row that adds
/// eight bits of them.
fn begins<L: Office>(
    rt: &(impl Abort + Wait),
    alloc: Global,
    desk: &Desk<L>,
    seat: &mut Seat<L>,
    profile: Profile,
) -> Result<(), Fault> {
    declares(rt, alloc, desk, seat, profile)?;
    gives(rt, alloc, desk, seat, b"a", &[10, 20, 30, 250])?;
    gives(rt, alloc, desk, seat, b"b", &[1, 2, 3, 10])?;
    adds(rt, desk, seat)
}

/// Whether a seat takes an order, executes it and brings the result, which is kept.
fn works<L: Office>(
    rt: &(impl Abort + Wait),
    alloc: Global,
    desk: &Desk<L>,
    seat: &mut Seat<L>,
) -> Result<bool, Fault> {
    let order = desk.take(rt, seat)?.expect(rt, "a row is ready");
    let done = execute(alloc, order).ok().expect(rt, "there is memory");
    Ok(desk.bring(rt, seat, done).ok() == Some(Verdict::Kept))
}

/// What is settled at the end.
const SUM: Sight = Sight::Settled(&[11, 22, 33, 4]);

/// What a seat sees behind the result, and of how many entries it was told: the result, and nothing where no such key or row is.
const BEHIND: &[((Text, Spot), Sight, u64)] = &[
    ((b"c", End), SUM, 9),
    ((b"zz", End), Sight::Refused(Fault::NoField), 9),
    ((b"c", After(RowId(9))), Sight::Refused(Fault::NoRow), 9),
];

fn sees_behind<L: Office>(rt: &impl Abort, desk: &Desk<L>, seat: Seat<L>) -> Seat<L> {
    let mut seat = seat;
    for (place, sight, front) in BEHIND {
        seat = sees(rt, desk, seat, *place, *sight, *front);
    }
    seat
}

/// The first seat begins and looks. The second one learns from it and sees no less, works, and sees the result; and it sees nothing
/// where no such key, no such row or no such history is.
fn looks<L: Office>(
    rt: &(impl Abort + Wait),
    alloc: Global,
    desk: &Desk<L>,
    first: Seat<L>,
    second: Seat<L>,
    profile: Profile,
) -> (Seat<L>, Seat<L>) {
    let (mut first, mut second) = (first, second);
    let unknown = Sight::Refused(Fault::NoField);
    second = sees(rt, desk, second, (b"c", End), unknown, 0);
    assert!(rt; begins(rt, alloc, desk, &mut first, profile).is_ok());
    first = sees(rt, desk, first, (b"c", End), Sight::Pending(1), 7);
    second.learn_from(&first);
    assert!(rt; second.front() == Front(7));
    second = sees(rt, desk, second, (b"c", End), Sight::Pending(1), 7);
    assert!(rt; works(rt, alloc, desk, &mut second) == Ok(true));
    second = sees_behind(rt, desk, second);
    second.learn(Front(99));
    let short = Sight::Refused(Fault::StrangeSeat(99, 9));
    second = sees(rt, desk, second, (b"c", End), short, 99);
    first = sees(rt, desk, first, (b"c", End), SUM, 9);
    (first, second)
}

/// What is left of a desk that is closed with all its seats.
fn left_of<L: Office>(rt: &(impl Abort + Wait), desk: Desk<L>, seats: Vec<Seat<L>>) -> Closed {
    match close(rt, desk, seats) {
        Ok(closed) => closed,
        Err(fault) => {
            let CloseFault {
                desk,
                seats: _seats,
                cause: _,
            } = fault;
            desk.discard(rt);
            None.expect(rt, "it is closed")
        }
    }
}

/// Whether there are two lists, of so many receipts.
fn has_counts(closed: &Closed, counts: [usize; 2]) -> bool {
    match closed.receipts.as_slice() {
        [first, second] => first.len() == counts[0] && second.len() == counts[1],
        _ => false,
    }
}

/// Whether of two seats one made seven calls and the other two, and history and receipts agree.
fn agrees(alloc: Global, closed: &Closed, profile: Profile) -> Result<bool, AllocError> {
    let is_agreed = audit_with(alloc, profile, &closed.history, &closed.receipts)?;
    Ok(is_agreed && closed.history.len() == 9 && has_counts(closed, [7, 2]))
}

/// The two seats of a desk.
fn both_of<L: Office>(rt: &impl Abort, all: &mut Vec<Seat<L>>) -> (Seat<L>, Seat<L>) {
    let second = all.pop().expect(rt, "there is a seat");
    let first = all.pop().expect(rt, "there are two seats");
    (first, second)
}

fn gives_back<L: Office>(rt: &impl Abort, all: &mut Vec<Seat<L>>, seat: Seat<L>) {
    all.push(seat).ok().expect(rt, "there is memory");
}

/// Both seats of a desk look, and then it is closed.
fn looks_and_closes<L: Office>(
    rt: &(impl Abort + Wait),
    alloc: Global,
    desk: Desk<L>,
    all: Vec<Seat<L>>,
    profile: Profile,
) -> Closed {
    let mut all = all;
    let (first, second) = both_of(rt, &mut all);
    let (first, second) = looks(rt, alloc, &desk, first, second, profile);
    gives_back(rt, &mut all, first);
    gives_back(rt, &mut all, second);
    left_of(rt, desk, all)
}

/// Whether two seats look at a desk, and what is left of it is right.
fn opens<L: Office, R: Abort + Wait>(
    rt: &R,
    alloc: Global,
    opening: Opening,
    profile: Profile,
    seats: u64,
    limit: u64,
) -> Result<bool, AllocError>
    requires opening { (opening.blank.name ≡ L.name) × (opening.blank.parts ≡ L.parts) × (opening.seen.book ≡ L.log) }
    requires profile { profile ≡ L.profile }
    requires seats { (seats ≡ L.parts) × (seats ≡ L.seats) }
    requires few { (1 ≤ seats) × (seats ≤ MAX_SEATS) }
    requires limit { (limit ≡ L.limit) × (limit ≤ MAX_HISTORY) }
{
    let (desk, all) = Desk::<L>::with_profile(rt, alloc, opening, profile, seats, limit)?;
    let closed = looks_and_closes(rt, alloc, desk, all, profile);
    agrees(alloc, &closed, profile)
}

fn tries<R: Abort + Wait>(rt: &R, alloc: Global, profile: Profile) -> Result<(), AllocError> {
    let is_right = opens::<Brand, R>(rt, alloc, Opening::new(2), profile, 2, 100)?;
    assert!(rt; is_right);
    Ok(())
}

#[test]
fn two_seats_look(rt: HostRuntime) -> Result<(), AllocError> {
    tries(&rt, rt.alloc(), Profile::One)
}

#[test]
fn two_seats_look_in_profile_two(rt: HostRuntime) -> Result<(), AllocError> {
    tries(&rt, rt.alloc(), Profile::Two)
}
