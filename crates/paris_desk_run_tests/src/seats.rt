//! What seats do in their threads: sessions call at random, and workers work until the sessions are through.

use crate::dice::{Dice, any_of};
use crate::eyes::{Eyes, looks};
use crate::spellings::{FIELDS, INSTRUCTIONS, KEYS, SLOW, instr_of, key, name};
use paris_desk::{Desk, Front, Office, Seat, work};
use paris_edits::{Edit, EditReply, RowLook, Verdict};
use paris_events::{Reply, Shown};
use paris_exec::{Done, OpenGate, Order, execute};
use paris_names::{Fault, Items, RowId, Spot};
use std::alloc::{AllocError, Global};
use std::process::Abort;
use std::sync::Wait;
use std::sync::atomic::{AtomicU64, Ordering};
use std::thread;
use std::time::{Clock, Duration};

/// How often a worker finds nothing to do at most, a millisecond apart.
pub(crate) const TURNS: u64 = 10_000;

/// How many calls a session makes.
const CALLS: u64 = 24;

/// The set `s` of a run: the lengths of its axes, how many processors it has, and the width of its fields but `n`.
#[derive(Clone, Copy)]
pub(crate) struct Shape {
    pub(crate) axes: &'static [u64],
    pub(crate) count: u64,
    pub(crate) width: u64,
}

/// What the threads of a run share beside the desk: how many sessions aren't through, and a front that one of them had.
#[derive(Drop)]
pub(crate) struct Shared {
    pub(crate) left: AtomicU64,
    pub(crate) front: AtomicU64,
}

/// A seat, and what its thread keeps: its dice, results in hand, and the greatest id of a row that it was told.
#[derive(Drop)]
pub(crate) struct Player<L: Office> {
    pub(crate) seat: Seat<L>,
    pub(crate) is_session: bool,
    pub(crate) dice: Dice,
    pub(crate) hand: Vec<Done>,
    pub(crate) last: u64,
    pub(crate) fault: Option<Fault>,
    pub(crate) eyes: Eyes<L>,
}

/// An id, which a row has in most cases.
fn any_id(dice: &mut Dice, last: u64) -> RowId {
    RowId(dice.throw(last.saturating_add(2)).saturating_add(1))
}

fn any_spot(dice: &mut Dice, last: u64) -> Spot {
    match dice.throw(4) {
        0 => Spot::Start,
        1 => Spot::After(any_id(dice, last)),
        _ => Spot::End,
    }
}

/// An instruction of the table; on a large set none of the slow ones.
fn any_text(dice: &mut Dice, shape: Shape) -> &'static [u8] {
    let slow = if shape.count > 64 { SLOW } else { 0 };
    let bound = INSTRUCTIONS.len().saturating_sub(slow);
    let place = dice.throw(bound as u64) as usize;
    INSTRUCTIONS.get(place).copied().unwrap_or(b"set-context s")
}

/// A number, which in most cases is an address, and for a flag a bit.
fn any_number(dice: &mut Dice, is_bit: bool, count: u64) -> u128 {
    match dice.throw(64) {
        0 => u128::from(dice.throw(300)),
        _ if is_bit => u128::from(dice.throw(2)),
        1..=12 => u128::from(dice.throw(256)),
        _ => u128::from(dice.throw(count)),
    }
}

/// How many numbers an input has: in most cases no more than fit from a processor on.
fn any_count(dice: &mut Dice, from: u64, shape: Shape) -> u64 {
    let most = if dice.throw(8) == 0 {
        shape.count
    } else {
        shape.count.saturating_sub(from).saturating_sub(1)
    };
    let least = dice.throw(8).min(1);
    dice.throw(most.min(63).saturating_add(1))
        .saturating_add(least)
}

fn any_numbers(
    alloc: Global,
    dice: &mut Dice,
    is_bit: bool,
    from: u64,
    shape: Shape,
) -> Result<Vec<u128>, AllocError> {
    let mut numbers = Vec::new(alloc);
    for _ in 0..any_count(dice, from, shape) {
        numbers.push(any_number(dice, is_bit, shape.count))?;
    }
    Ok(numbers)
}

/// A set, which has a name that is taken or axes that make none.
fn any_set(rt: &impl Abort, alloc: Global, dice: &mut Dice) -> Result<Edit, AllocError> {
    let (text, axes) = match dice.throw(3) {
        0 => (b"s".as_slice(), [4]),
        1 => (b"a".as_slice(), [2]),
        _ => (b"t".as_slice(), [3]),
    };
    Ok(Edit::AddSet {
        name: name(rt, text),
        axes: Items::new(Vec::from_slice(alloc, axes.as_slice())?),
    })
}

/// The width of a field. One of the fields is of a bit.
pub(crate) fn width_of(text: &[u8], shape: Shape) -> u64 {
    if text == b"n".as_slice() {
        1
    } else {
        shape.width
    }
}

/// A field, which may be declared already, or have a width that none has, or a set that is unknown.
fn any_field(rt: &impl Abort, dice: &mut Dice, shape: Shape) -> Edit {
    let text = any_of(dice, b"a".as_slice(), FIELDS);
    let (set, width) = match dice.throw(8) {
        0 => (b"t".as_slice(), 8),
        1 => (b"s".as_slice(), 0),
        _ => (b"s".as_slice(), width_of(text, shape)),
    };
    Edit::AddField {
        name: name(rt, text),
        set: name(rt, set),
        width,
    }
}

fn any_input(
    rt: &impl Abort,
    alloc: Global,
    dice: &mut Dice,
    shape: Shape,
) -> Result<Edit, AllocError> {
    let text = any_of(dice, b"a".as_slice(), KEYS);
    let is_bit = text == b"n".as_slice() || text.len() > 1;
    let from = dice.throw(shape.count);
    let values = any_numbers(alloc, dice, is_bit, from, shape)?;
    Ok(Edit::Input {
        key: key(rt, text),
        from,
        values: Items::new(values),
    })
}

fn any_edit<L: Office>(
    rt: &impl Abort,
    alloc: Global,
    player: &mut Player<L>,
    shape: Shape,
) -> Result<Edit, AllocError> {
    let last = player.last;
    let dice = &mut player.dice;
    match dice.throw(16) {
        0 => any_set(rt, alloc, dice),
        1 | 2 => Ok(any_field(rt, dice, shape)),
        3..=5 => any_input(rt, alloc, dice, shape),
        6..=11 => Ok(Edit::Insert {
            spot: any_spot(dice, last),
            instr: instr_of(rt, any_text(dice, shape)),
        }),
        12 | 13 => Ok(Edit::Delete(any_id(dice, last))),
        _ => Ok(Edit::Replace {
            row: any_id(dice, last),
            instr: instr_of(rt, any_text(dice, shape)),
        }),
    }
}

/// Whether the last receipt of a seat is of an edit with this answer.
fn has_edit<L: Office>(seat: &Seat<L>, answer: Result<EditReply, Fault>) -> bool {
    match seat.receipts().last() {
        Some(receipt) => match &receipt.reply {
            Reply::Edit(kept) => *kept == answer,
            _ => false,
        },
        None => false,
    }
}

/// Whether the last receipt of a seat is of a result with this verdict.
fn has_verdict<L: Office>(seat: &Seat<L>, verdict: Verdict) -> bool {
    match seat.receipts().last() {
        Some(receipt) => match &receipt.reply {
            Reply::Bring(kept) => *kept == verdict,
            _ => false,
        },
        None => false,
    }
}

fn is_same_shown(answer: &Result<Shown, Fault>, kept: &Result<Shown, Fault>) -> bool {
    match (answer, kept) {
        (Ok(Shown::Settled(value)), Ok(Shown::Settled(other))) => value.get().equals(other.get()),
        (Ok(Shown::Pending(id)), Ok(Shown::Pending(other))) => *id == *other,
        (Err(fault), Err(other)) => *fault == *other,
        _ => false,
    }
}

/// Whether the last receipt of a seat is of a look with this answer.
fn has_shown<L: Office>(seat: &Seat<L>, answer: &Result<Shown, Fault>) -> bool {
    match seat.receipts().last() {
        Some(receipt) => match &receipt.reply {
            Reply::Show(kept) => is_same_shown(answer, kept),
            _ => false,
        },
        None => false,
    }
}

/// Makes an edit, and learns the id of the row that it put in.
pub(crate) fn edits_with<L: Office>(
    rt: &(impl Abort + Wait),
    desk: &Desk<L>,
    player: &mut Player<L>,
    edit: Edit,
) -> Result<EditReply, Fault> {
    let answer = desk.edit(rt, &mut player.seat, edit);
    assert!(rt; has_edit(&player.seat, answer));
    if let Ok(EditReply::Row(id)) = answer {
        player.last = id.0;
    }
    answer
}

fn edits<L: Office>(
    rt: &(impl Abort + Wait),
    alloc: Global,
    desk: &Desk<L>,
    player: &mut Player<L>,
    shape: Shape,
) -> Result<(), Fault> {
    let edit = any_edit(rt, alloc, player, shape)?;
    edits_with(rt, desk, player, edit).ok();
    Ok(())
}

/// Executes an order, and keeps its result in hand.
fn executes<L: Office>(
    rt: &impl Abort,
    alloc: Global,
    player: &mut Player<L>,
    order: Order,
) -> Result<(), AllocError> {
    player.last = player.last.max(order.id().0);
    let done = execute(alloc, order).ok().expect(rt, "there is memory");
    player.hand.push(done)?;
    Ok(())
}

/// Takes an order, and executes it.
pub(crate) fn takes<L: Office>(
    rt: &(impl Abort + Wait),
    alloc: Global,
    desk: &Desk<L>,
    player: &mut Player<L>,
) -> Result<(), Fault> {
    if let Some(order) = desk.take(rt, &mut player.seat)? {
        executes(rt, alloc, player, order)?;
    }
    Ok(())
}

/// Brings a copy of a result in hand, which may have been brought before.
pub(crate) fn brings<L: Office>(
    rt: &(impl Abort + Wait),
    desk: &Desk<L>,
    player: &mut Player<L>,
) -> Result<(), Fault> {
    let place = player.dice.throw(player.hand.len() as u64) as usize;
    if let Some(done) = player.hand.get(place) {
        let done = done.copy()?;
        let verdict = desk
            .bring(rt, &mut player.seat, done)
            .ok()
            .expect(rt, "it is recorded");
        assert!(rt; has_verdict(&player.seat, verdict));
    }
    Ok(())
}

pub(crate) fn shows_at<L: Office>(
    rt: &(impl Abort + Wait),
    desk: &Desk<L>,
    player: &mut Player<L>,
    text: &[u8],
    spot: Spot,
) {
    let answer = desk.show(rt, &mut player.seat, key(rt, text), spot);
    assert!(rt; has_shown(&player.seat, &answer));
}

fn shows<L: Office>(rt: &(impl Abort + Wait), desk: &Desk<L>, player: &mut Player<L>) {
    let text = any_of(&mut player.dice, b"a".as_slice(), KEYS);
    let spot = any_spot(&mut player.dice, player.last);
    shows_at(rt, desk, player, text, spot);
}

/// Looks at a key with no lock.
fn sees<L: Office>(
    rt: &impl Abort,
    alloc: Global,
    desk: &Desk<L>,
    player: &mut Player<L>,
) -> Result<(), Fault> {
    let text = any_of(&mut player.dice, b"a".as_slice(), KEYS);
    let spot = any_spot(&mut player.dice, player.last);
    let name = key(rt, text);
    looks(rt, alloc, desk, &mut player.eyes, &player.seat, &name, spot)?;
    Ok(())
}

/// Lists the rows, and learns their ids.
pub(crate) fn lists<L: Office>(
    rt: &(impl Abort + Wait),
    desk: &Desk<L>,
    player: &mut Player<L>,
) -> Result<(), Fault> {
    let looks = desk.list(rt, &mut player.seat)?;
    for look in looks.as_slice() {
        player.last = player.last.max(look.id.0);
    }
    Ok(())
}

/// Makes a call.
fn calls<L: Office>(
    rt: &(impl Abort + Wait),
    alloc: Global,
    desk: &Desk<L>,
    player: &mut Player<L>,
    shape: Shape,
) -> Result<(), Fault> {
    match player.dice.throw(16) {
        0..=6 => edits(rt, alloc, desk, player, shape),
        7 | 8 => takes(rt, alloc, desk, player),
        9 | 10 => brings(rt, desk, player),
        11 | 12 => Ok(shows(rt, desk, player)),
        13 => sees(rt, alloc, desk, player),
        14 => lists(rt, desk, player),
        _ => desk.release(rt, &mut player.seat),
    }
}

/// Tells of the own front, and learns that which was told last.
fn talks<L: Office>(player: &mut Player<L>, shared: &Shared) {
    let told = shared.front.swap(player.seat.front().0, Ordering::SeqCst);
    player.seat.learn(Front(told));
}

fn sits<L: Office>(
    rt: &(impl Abort + Wait),
    alloc: Global,
    desk: &Desk<L>,
    player: &mut Player<L>,
    shape: Shape,
    shared: &Shared,
) -> Result<(), Fault> {
    for _ in 0..CALLS {
        calls(rt, alloc, desk, player, shape)?;
        if player.dice.throw(4) == 0 {
            talks(player, shared);
        }
    }
    Ok(())
}

/// Works again and again, until the sessions are through and nothing is ready.
fn serves<L: Office, R: Abort + Wait + Clock>(
    rt: &R,
    alloc: Global,
    desk: &Desk<L>,
    player: &mut Player<L>,
    shared: &Shared,
) -> Result<(), Fault> {
    for _ in 0..TURNS {
        let are_through = shared.left.load(Ordering::SeqCst) == 0;
        let limit = player.dice.throw(4).saturating_add(1);
        let ran = work(rt, alloc, desk, &mut player.seat, &OpenGate, limit)?;
        if ran == 0 && are_through {
            return Ok(());
        }
        if ran == 0 {
            thread::sleep(rt, Duration::from_millis(1));
        }
    }
    Ok(())
}

/// Whether all rows are settled.
fn are_settled(looks: &[RowLook]) -> bool {
    for look in looks {
        if !look.status.is_settled() {
            return false;
        }
    }
    true
}

/// What is left to do behind all threads: orders that are out are given up, all rows are run, and the rows are settled. They are
/// listed, and each key is shown.
pub(crate) fn finishes<L: Office>(
    rt: &(impl Abort + Wait),
    alloc: Global,
    desk: &Desk<L>,
    player: &mut Player<L>,
) -> Result<(), Fault> {
    desk.release(rt, &mut player.seat)?;
    work(rt, alloc, desk, &mut player.seat, &OpenGate, TURNS)?;
    let looks = desk.list(rt, &mut player.seat)?;
    assert!(rt; are_settled(looks.as_slice()));
    for text in KEYS {
        shows_at(rt, desk, player, *text, Spot::End);
    }
    Ok(())
}

/// What a seat does in its thread.
pub(crate) fn plays<L: Office, R: Abort + Wait + Clock>(
    rt: &R,
    alloc: Global,
    desk: &Desk<L>,
    player: &mut Player<L>,
    shape: Shape,
    shared: &Shared,
) {
    let result = if player.is_session {
        let result = sits(rt, alloc, desk, player, shape, shared);
        shared.left.fetch_sub(1, Ordering::SeqCst);
        result
    } else {
        serves(rt, alloc, desk, player, shared)
    };
    player.fault = result.err();
}
