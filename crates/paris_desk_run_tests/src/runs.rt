//! Runs of random sessions in threads: at the end of each the desk is closed and audited, and its history is told again.

ghost use Rattle.std.specs.Prelude.{◌≡◌, ◌≤◌};
ghost use Rattle.paris_names.specs.declared.profiles.Profile.TheVariants.{One};
ghost use Rattle.paris_records.specs.declared.limits.TheConstants.{MAX_HISTORY, MAX_SEATS};

use crate::dice::Dice;
use crate::eyes::Eyes;
use crate::first::begins;
use crate::replay::{Met, NOTHING_MET, agrees};
use crate::seats::{Player, Shape, Shared, finishes, plays, width_of};
use crate::spellings::{FIRST_FIELDS, name};
use paris_audit::audit;
use paris_desk::{CloseFault, Closed, Desk, Entry, Office, Opening, Seat, close};
use paris_edits::{Edit, EditReply};
use paris_names::{Fault, Items};
use std::alloc::{AllocError, Global};
use std::marker::Brand;
use std::process::Abort;
use std::sync::Wait;
use std::sync::atomic::AtomicU64;
use std::thread::{Threads, for_each_mut};
use std::time::Clock;

/// How many entries a history has room for.
const LIMIT: u64 = 100_000;

/// How many runs a test plays.
const RUNS: u64 = 100;

const LINE_OF_FOUR: Shape = Shape {
    axes: &[4],
    count: 4,
    width: 8,
};

const SQUARE_OF_FOUR: Shape = Shape {
    axes: &[2, 2],
    count: 4,
    width: 8,
};

const LARGE_SQUARE: Shape = Shape {
    axes: &[32, 32],
    count: 1024,
    width: 16,
};

/// A run: how many of its seats are sessions, how many play, how many there are with those that only look, one for each session, its
/// set, and the seed of its numbers.
#[derive(Clone, Copy)]
struct Run {
    sessions: u64,
    players: u64,
    seats: u64,
    shape: Shape,
    seed: u64,
}

/// The set of a run. One run of ten has a large one.
fn shape_of(seed: u64) -> Shape {
    match seed % 10 {
        0 => LARGE_SQUARE,
        1..=4 => SQUARE_OF_FOUR,
        _ => LINE_OF_FOUR,
    }
}

/// The run of a seed: two to six sessions, and one to four workers.
fn run_of(seed: u64) -> Run
    ensures { (1 ≤ result.seats) × (result.seats ≤ MAX_SEATS) }
{
    let mut dice = Dice::new(seed);
    let sessions = dice.throw(5).min(4) + 2;
    let workers = dice.throw(4).min(3) + 1;
    Run {
        sessions,
        players: sessions + workers,
        seats: sessions + workers + sessions,
        shape: shape_of(seed),
        seed,
    }
}

fn accepts<L: Office>(
    rt: &(impl Abort + Wait),
    desk: &Desk<L>,
    player: &mut Player<L>,
    edit: Edit,
) {
    let answer = desk.edit(rt, &mut player.seat, edit);
    assert!(rt; matches!(answer, Ok(EditReply::Accepted)));
}

/// Declares the set, and some fields.
fn declares<L: Office>(
    rt: &(impl Abort + Wait),
    alloc: Global,
    desk: &Desk<L>,
    player: &mut Player<L>,
    shape: Shape,
) -> Result<(), AllocError> {
    let set = Edit::AddSet {
        name: name(rt, b"s"),
        axes: Items::new(Vec::from_slice(alloc, shape.axes)?),
    };
    accepts(rt, desk, player, set);
    for text in FIRST_FIELDS {
        let field = Edit::AddField {
            name: name(rt, *text),
            set: name(rt, b"s"),
            width: width_of(*text, shape),
        };
        accepts(rt, desk, player, field);
    }
    Ok(())
}

/// The dice of the seat of a number.
fn dice_of(run: Run, number: u64) -> Dice {
    Dice::new(run.seed.wrapping_mul(16).wrapping_add(number))
}

/// A player with its seat.
fn player_of<L: Office>(alloc: Global, seat: Seat<L>, run: Run) -> Player<L> {
    let number = seat.number();
    Player {
        is_session: number < run.sessions,
        dice: dice_of(run, number),
        seat,
        hand: Vec::new(alloc),
        last: 0,
        fault: None,
        eyes: Eyes::new(alloc),
    }
}

/// Gives a seat to the player at a place, to look for it.
fn gives_eyes<L: Office>(players: &mut [Player<L>], place: u64, seat: Seat<L>) {
    if let Some(player) = players.get_mut(place as usize) {
        player.eyes.seat = Some(seat);
    }
}

/// Adds a seat to the players: as one that plays, or as one that looks for another.
fn sits_down<L: Office>(
    rt: &impl Abort,
    alloc: Global,
    players: &mut Vec<Player<L>>,
    seat: Seat<L>,
    run: Run,
) {
    match seat.number().checked_sub(run.players) {
        None => {
            let player = player_of(alloc, seat, run);
            players.push(player).ok().expect(rt, "there is memory");
        }
        Some(place) => gives_eyes(players.as_mut_slice(), place, seat),
    }
}

/// The seats with what their threads keep. The first ones play, and the others look for the first ones.
fn players_of<L: Office>(
    rt: &impl Abort,
    alloc: Global,
    seats: Vec<Seat<L>>,
    run: Run,
) -> Vec<Player<L>> {
    let mut players = Vec::new(alloc);
    for seat in seats {
        sits_down(rt, alloc, &mut players, seat, run);
    }
    players
}

/// Adds a seat to others.
fn gives_seat<L: Office>(rt: &impl Abort, seats: &mut Vec<Seat<L>>, seat: Seat<L>) {
    seats.push(seat).ok().expect(rt, "there is memory");
}

/// Adds the looks of a player to others.
fn add_looks(rt: &impl Abort, seen: &mut Vec<Entry>, more: Vec<Entry>) {
    for look in more {
        seen.push(look).ok().expect(rt, "there is memory");
    }
}

/// Adds the seat that looked for a player to others, and what it saw.
fn gives_eyes_back<L: Office>(
    rt: &impl Abort,
    eyes: Eyes<L>,
    seats: &mut Vec<Seat<L>>,
    seen: &mut Vec<Entry>,
) {
    let Eyes { seat, seen: more } = eyes;
    if let Some(seat) = seat {
        gives_seat(rt, seats, seat);
    }
    add_looks(rt, seen, more);
}

/// Adds the seats of a player who met no fault to others, and what was seen.
fn gives_back<L: Office>(
    rt: &impl Abort,
    player: Player<L>,
    seats: &mut Vec<Seat<L>>,
    seen: &mut Vec<Entry>,
) {
    assert!(rt; player.fault.is_none());
    gives_seat(rt, seats, player.seat);
    gives_eyes_back(rt, player.eyes, seats, seen);
}

/// The seats of players who met no fault, and what was seen.
fn left_by<L: Office>(
    rt: &impl Abort,
    alloc: Global,
    players: Vec<Player<L>>,
) -> (Vec<Seat<L>>, Vec<Entry>) {
    let (mut seats, mut seen) = (Vec::new(alloc), Vec::new(alloc));
    for player in players {
        gives_back(rt, player, &mut seats, &mut seen);
    }
    (seats, seen)
}

/// The first seat declares a set and makes calls of each kind.
fn starts<L: Office>(
    rt: &(impl Abort + Wait),
    alloc: Global,
    desk: &Desk<L>,
    players: &mut [Player<L>],
    shape: Shape,
) -> Result<(), Fault> {
    let first = players.first_mut().expect(rt, "there is a seat");
    declares(rt, alloc, desk, first, shape)?;
    begins(rt, alloc, desk, first, shape)
}

/// All seats play, each in a thread.
fn play_at_once<L: Office + Send + Sync, R: Abort + Threads + Wait + Clock + Sync>(
    rt: &R,
    alloc: Global,
    desk: &Desk<L>,
    players: &mut [Player<L>],
    run: Run,
) {
    let shared = Shared {
        left: AtomicU64::new(run.sessions),
        front: AtomicU64::new(0),
    };
    for_each_mut(
        rt,
        players,
        16,
        &|_, player| { plays(rt, alloc, desk, player, run.shape, &shared) },
    );
}

/// The first seat finishes.
fn ends<L: Office>(
    rt: &(impl Abort + Wait),
    alloc: Global,
    desk: &Desk<L>,
    players: &mut [Player<L>],
) -> Result<(), Fault> {
    let first = players.first_mut().expect(rt, "there is a seat");
    finishes(rt, alloc, desk, first)
}

/// The first seat declares a set and makes calls of each kind, then all seats play, each in a thread, and then the first one finishes.
fn play_all<L: Office + Send + Sync, R: Abort + Threads + Wait + Clock + Sync>(
    rt: &R,
    alloc: Global,
    desk: &Desk<L>,
    players: &mut [Player<L>],
    run: Run,
) -> Result<(), Fault> {
    starts(rt, alloc, desk, players, run.shape)?;
    play_at_once(rt, alloc, desk, players, run);
    ends(rt, alloc, desk, players)
}

/// All seats play, and what they leave.
fn plays_at<L: Office + Send + Sync, R: Abort + Threads + Wait + Clock + Sync>(
    rt: &R,
    alloc: Global,
    desk: &Desk<L>,
    seats: Vec<Seat<L>>,
    run: Run,
) -> (Vec<Seat<L>>, Vec<Entry>) {
    let mut players = players_of(rt, alloc, seats, run);
    assert!(rt; play_all(rt, alloc, desk, players.as_mut_slice(), run).is_ok());
    left_by(rt, alloc, players)
}

/// What is left of a desk that is closed with all its seats.
fn left_of<L: Office>(rt: &(impl Abort + Wait), desk: Desk<L>, seats: Vec<Seat<L>>) -> Closed {
    match close(rt, desk, seats) {
        Ok(closed) => closed,
        Err(fault) => {
            let CloseFault {
                desk,
                seats: _seats,
                cause: _,
            } = fault;
            desk.discard(rt);
            None.expect(rt, "it is closed")
        }
    }
}

fn opens<L: Office + Send + Sync, R: Abort + Threads + Wait + Clock + Sync>(
    rt: &R,
    alloc: Global,
    opening: Opening,
    limit: u64,
    run: Run,
) -> Result<(Closed, Vec<Entry>), AllocError>
    requires opening { (opening.blank.name ≡ L.name) × (opening.blank.parts ≡ L.parts) × (opening.seen.book ≡ L.log) }
    requires profile { One ≡ L.profile }
    requires seats { (run.seats ≡ L.parts) × (run.seats ≡ L.seats) }
    requires few { (1 ≤ run.seats) × (run.seats ≤ MAX_SEATS) }
    requires limit { (limit ≡ L.limit) × (limit ≤ MAX_HISTORY) }
{
    let (desk, seats) = Desk::<L>::new(rt, alloc, opening, run.seats, limit)?;
    let (seats, seen) = plays_at(rt, alloc, &desk, seats, run);
    Ok((left_of(rt, desk, seats), seen))
}

/// History and receipts agree, and each reply is what the definitions give, and so is what was seen with no lock.
fn is_right(
    rt: &impl Abort,
    alloc: Global,
    met: &mut Met,
    closed: &Closed,
    seen: &[Entry],
) -> Result<(), AllocError> {
    let agree = audit(alloc, &closed.history, &closed.receipts)?;
    assert!(rt; agree);
    agrees(rt, alloc, met, &closed.history, seen)
}

/// Plays a run, counts the replies that were met, and looks whether all is right.
fn plays_run<R: Abort + Threads + Wait + Clock + Sync>(
    rt: &R,
    alloc: Global,
    met: &mut Met,
    run: Run,
) -> Result<(), AllocError>
    requires { (1 ≤ run.seats) × (run.seats ≤ MAX_SEATS) }
{
    let (closed, seen) = opens::<Brand, R>(rt, alloc, Opening::new(run.seats), LIMIT, run)?;
    is_right(rt, alloc, met, &closed, &seen)
}

/// Plays so many runs. Replies of all kinds are met.
fn plays_runs<R: Abort + Threads + Wait + Clock + Sync>(
    rt: &R,
    alloc: Global,
    first: u64,
) -> Result<(), AllocError> {
    let mut met = NOTHING_MET;
    for seed in 0..RUNS {
        plays_run(rt, alloc, &mut met, run_of(first.wrapping_add(seed)))?;
    }
    assert!(rt; met.has_all());
    Ok(())
}

#[test]
fn the_first_hundred_runs_agree(rt: HostRuntime) -> Result<(), AllocError> {
    plays_runs(&rt, rt.alloc(), 1)
}

#[test]
fn the_second_hundred_runs_agree(rt: HostRuntime) -> Result<(), AllocError> {
    plays_runs(&rt, rt.alloc(), 101)
}

#[test]
fn the_third_hundred_runs_agree(rt: HostRuntime) -> Result<(), AllocError> {
    plays_runs(&rt, rt.alloc(), 201)
}

#[test]
fn the_fourth_hundred_runs_agree(rt: HostRuntime) -> Result<(), AllocError> {
    plays_runs(&rt, rt.alloc(), 301)
}

#[test]
fn the_fifth_hundred_runs_agree(rt: HostRuntime) -> Result<(), AllocError> {
    plays_runs(&rt, rt.alloc(), 401)
}

#[test]
fn the_sixth_hundred_runs_agree(rt: HostRuntime) -> Result<(), AllocError> {
    plays_runs(&rt, rt.alloc(), 501)
}

#[test]
fn the_seventh_hundred_runs_agree(rt: HostRuntime) -> Result<(), AllocError> {
    plays_runs(&rt, rt.alloc(), 601)
}

#[test]
fn the_eighth_hundred_runs_agree(rt: HostRuntime) -> Result<(), AllocError> {
    plays_runs(&rt, rt.alloc(), 701)
}

#[test]
fn the_ninth_hundred_runs_agree(rt: HostRuntime) -> Result<(), AllocError> {
    plays_runs(&rt, rt.alloc(), 801)
}

#[test]
fn the_tenth_hundred_runs_agree(rt: HostRuntime) -> Result<(), AllocError> {
    plays_runs(&rt, rt.alloc(), 901)
}
