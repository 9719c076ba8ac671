//! Plays a part of a script by calls of a seat.

ghost use Rattle.std.specs.Prelude.{◌≡◌, ◌^◌, ◌<◌, ◌≤◌, false, length, IfErr, IfOk, OnErr, OnOk};
ghost use Rattle.std.specs.List.{list_all};
ghost use Rattle.paris_session.specs.declared.asked.Asked.TheVariants as AskedCase;
ghost use Rattle.paris_names.specs.declared.faults.Fault.TheVariants as FaultCase;
ghost use Rattle.paris_session.specs.Hands.{faults_told, is_skipped, plainly, refused};
ghost use Rattle.paris_session.specs.Replies.{ok_text};
ghost use Rattle.paris_parts.specs.Beginning.{hand_at};
ghost use Rattle.paris_parts.specs.Faults.{StopsRun};
ghost use Rattle.paris_parts.specs.Moving.{Answered, HasAnswered, HasPlayed, is_unmet};
ghost use Rattle.paris_parts.specs.Seeing.{IsInTime};

use crate::parts::Part;
use crate::texts::faults_among;
use paris_desk::{Desk, Office, Seat};
use paris_edits::RowLook;
use paris_events::Event;
use paris_names::{Fault, KeyName, Spot};
use paris_session::{Asked, Hand, Room, faults_text};
use paris_view::View;
use std::alloc::{AllocError, Global};
use std::sync::Wait;

/// Whether a fault of a look says that the seat met no history that it could look at.
fn is_unmet(fault: Fault) -> bool
    ensures { result ≡ is_unmet fault }
{
    match fault {
        Fault::NoEntry => true,
        Fault::StrangeSeat(_, _) => true,
        _ => false,
    }
}

/// Tells of those rows of a list that are refused.
fn tell_faults(hand: &mut Hand, alloc: Global, looks: &[RowLook]) -> Result<Vec<u8>, AllocError>
    requires { hand.old.hand.commands < 2 ^ 62 }
    ensures { IfOk result (λ text. (hand.new.hand, text.items) ≡ faults_told hand.old.hand looks.now) }
{
    let faults = faults_among(alloc, looks)?;
    let text = faults_text(alloc, faults.as_slice())?;
    Ok(hand.plainly(text))
}

/// Answers `faults` by a list of the rows.
fn answer_faults<L: Office, R: Wait>(
    hand: &mut Hand,
    rt: &R,
    alloc: Global,
    desk: &Desk<L>,
    seat: &mut Seat<L>,
) -> Result<Vec<u8>, Fault>
    requires time { IsInTime seat.old }
    requires few { hand.old.hand.commands < 2 ^ 62 }
    ensures answered { IfOk result (λ text. Answered L.profile seat.old seat.new hand.old.hand AskedCase.Faults hand.new.hand text.items) }
    ensures fault { IfErr result (λ fault. StopsRun L.limit fault) }
{
    let looks = desk.list(rt, seat)?;
    Ok(tell_faults(hand, alloc, looks.as_slice())?)
}

/// Answers by a call of the seat.
fn answer_call<L: Office, R: Wait>(
    hand: &mut Hand,
    rt: &R,
    desk: &Desk<L>,
    seat: &mut Seat<L>,
    event: Event,
) -> Result<Vec<u8>, Fault>
    requires time { IsInTime seat.old }
    requires few { hand.old.hand.commands < 2 ^ 62 }
    ensures answered { IfOk result (λ text. Answered L.profile seat.old seat.new hand.old.hand (AskedCase.Call event) hand.new.hand text.items) }
    ensures fault { IfErr result (λ fault. StopsRun L.limit fault) }
{
    let room = hand.ready(&event)?;
    match desk.call(rt, seat, event) {
        Ok(reply) => Ok(hand.tell(room, reply)?),
        Err((_, fault)) => Err(fault),
    }
}

/// Answers by a look of the seat, which waits for nobody.
fn answer_look<L: Office>(
    hand: &mut Hand,
    desk: &Desk<L>,
    seat: Seat<L>,
    key: KeyName,
    spot: Spot,
) -> Result<(Seat<L>, Vec<u8>), Fault>
    requires time { IsInTime seat }
    requires few { hand.old.hand.commands < 2 ^ 62 }
    ensures answered { IfOk result (λ p. Answered L.profile seat p.0 hand.old.hand (AskedCase.Look key spot) hand.new.hand p.1.items) }
    ensures fault { IfErr result (λ fault. StopsRun L.limit fault) }
{
    match View::new(desk).look(seat, key, spot) {
        Ok(held) => {
            let text = hand.tell_look(&held.look());
            Ok((held.end(), text?))
        }
        Err((seat, fault)) => {
            if is_unmet(fault) {
                return Err(fault);
            }
            Ok((seat, hand.refuse(fault)?))
        }
    }
}

/// Answers by `ok`: the profile that is chosen is the desk's already.
fn answer_chosen(hand: &mut Hand, alloc: Global) -> Result<Vec<u8>, AllocError>
    requires { hand.old.hand.commands < 2 ^ 62 }
    ensures { IfOk result (λ text. (hand.new.hand, text.items) ≡ plainly hand.old.hand ok_text) }
{
    let room = Room::new(alloc)?;
    Ok(hand.plainly(room.ok()))
}

/// Refuses `settle`, which no line of a session that has a seat says.
fn refuse_settle(hand: &mut Hand) -> Result<Vec<u8>, AllocError>
    requires { hand.old.hand.commands < 2 ^ 62 }
    ensures { IfOk result (λ text. (hand.new.hand, text.items) ≡ refused hand.old.hand (FaultCase.Syntax 1)) }
{
    hand.refuse(Fault::Syntax(1))
}

/// Answers what is asked for, by at most one call of the seat, or by a look of it.
fn answer_asked<L: Office, R: Wait>(
    hand: &mut Hand,
    rt: &R,
    alloc: Global,
    desk: &Desk<L>,
    seat: Seat<L>,
    asked: Asked,
) -> Result<(Seat<L>, Vec<u8>), Fault>
    requires time { IsInTime seat }
    requires few { hand.old.hand.commands < 2 ^ 62 }
    ensures answered { IfOk result (λ p. Answered L.profile seat p.0 hand.old.hand asked hand.new.hand p.1.items) }
    ensures fault { IfErr result (λ fault. StopsRun L.limit fault) }
{
    let mut seat = seat;
    match asked {
        Asked::Call(event) => {
            let text = answer_call(hand, rt, desk, &mut seat, event)?;
            Ok((seat, text))
        }
        Asked::Look(key, spot) => answer_look(hand, desk, seat, key, spot),
        Asked::Faults => {
            let text = answer_faults(hand, rt, alloc, desk, &mut seat)?;
            Ok((seat, text))
        }
        Asked::Settle => Ok((seat, refuse_settle(hand)?)),
        Asked::Chosen(_) => Ok((seat, answer_chosen(hand, alloc)?)),
        Asked::Refused(fault) => Ok((seat, hand.refuse(fault)?)),
    }
}

/// Answers a line. One that is skipped is answered by nothing, and no fault ends it.
fn answer<L: Office, R: Wait>(
    hand: &mut Hand,
    rt: &R,
    alloc: Global,
    desk: &Desk<L>,
    seat: Seat<L>,
    line: &[u8],
) -> Result<(Seat<L>, Vec<u8>), Fault>
    requires time { IsInTime seat }
    requires few { hand.old.hand.commands < 2 ^ 62 }
    ensures answered { IfOk result (λ p. HasAnswered L.profile seat p.0 hand.old.hand line.now hand.new.hand p.1.items) }
    ensures fault { IfErr result (λ fault. StopsRun L.limit fault) }
    ensures needed { OnErr result (is_skipped line.now ≡ false) }
{
    match hand.asked(true, line)? {
        Some(asked) => answer_asked(hand, rt, alloc, desk, seat, asked),
        None => Ok((seat, Vec::new(alloc))),
    }
}

/// Answers the lines of a part, one after another. The seat comes back, but where a fault ends the part, which none does whose lines are all
/// skipped.
pub(crate) fn play<L: Office, R: Wait>(
    hand: &mut Hand,
    rt: &R,
    alloc: Global,
    desk: &Desk<L>,
    seat: Seat<L>,
    part: &Part,
) -> Result<(Seat<L>, Vec<u8>), Fault>
    requires few { length part.now < 2 ^ 62 }
    requires fresh { hand.old.hand ≡ hand_at seat }
    requires time { IsInTime seat }
    ensures played { IfOk result (λ p. HasPlayed L.profile seat p.0 part.now hand.new.hand p.1.items) }
    ensures count { OnOk result (hand.new.hand.commands ≤ length part.now) }
    ensures fault { IfErr result (λ fault. StopsRun L.limit fault) }
    ensures needed { OnErr result (list_all (λ line. is_skipped line) part.now ≡ false) }
{
    let mut seat = seat;
    let mut text = Vec::new(alloc);
    let lines = part.lines();
    for line in lines {
        let (next, reply) = answer(hand, rt, alloc, desk, seat, line.as_slice())?;
        seat = next;
        text.extend_from_slice(reply.as_slice())?;
    }
    Ok((seat, text))
}
