//! Worked rows: a schedule with an order that is lost, and results of orders that were made by hand.

use crate::texts::{Text, edit_of, key};
use paris::{
    Book, Done, EditReply, Edition, Event, Look, Move, MoveReply, Order, Reply, RowId, SharedValue,
    Spot, Verdict, execute,
};
use std::alloc::{AllocError, Global};
use std::process::Abort;

/// A move, as a table has it. An edit is a line of a script.
#[derive(Clone, Copy)]
enum Play {
    Edit(Text),
    Take,
    Bring(u64),
    Lose(u64),
    Release,
}

/// What a reply to a move says.
#[derive(Clone, Copy, PartialEq, Eq)]
enum Said {
    Accepted,
    Row(u64),
    /// An order, for the row of this id with this edition.
    Order(u64, u64),
    Nothing,
    Brought(Verdict),
    Released,
    Lost,
    NoOrder,
    Else,
}

/// Declarations, input data and a sum: row 1 of edition 7. Its order is lost, and another one is brought twice.
const LOSS: &[(Play, Said)] = &[
    (Play::Edit(b"set S 4"), Said::Accepted),
    (Play::Edit(b"field a S 8"), Said::Accepted),
    (Play::Edit(b"field b S 8"), Said::Accepted),
    (Play::Edit(b"field c S 8"), Said::Accepted),
    (Play::Edit(b"input a 0 10 20 30 250"), Said::Accepted),
    (Play::Edit(b"input b 0 1 2 3 10"), Said::Accepted),
    (Play::Edit(b"insert end u-add-3-1L c a b 8"), Said::Row(1)),
    (Play::Take, Said::Order(1, 7)),
    (Play::Lose(1), Said::Lost),
    (Play::Take, Said::Nothing),
    (Play::Release, Said::Released),
    (Play::Take, Said::Order(1, 7)),
    (Play::Bring(1), Said::NoOrder),
    (Play::Bring(2), Said::Brought(Verdict::Kept)),
    (Play::Bring(2), Said::Brought(Verdict::Repeated)),
];

fn said_of_take(order: &Option<Order>) -> Said {
    match order {
        Some(order) => Said::Order(order.id().0, order.edition().0),
        None => Said::Nothing,
    }
}

fn said_of(reply: &MoveReply) -> Said {
    match reply {
        MoveReply::Lost => Said::Lost,
        MoveReply::NoOrder => Said::NoOrder,
        MoveReply::Reply(Reply::Edit(Ok(EditReply::Accepted))) => Said::Accepted,
        MoveReply::Reply(Reply::Edit(Ok(EditReply::Row(id)))) => Said::Row(id.0),
        MoveReply::Reply(Reply::Take(order)) => said_of_take(order),
        MoveReply::Reply(Reply::Bring(verdict)) => Said::Brought(*verdict),
        MoveReply::Reply(Reply::Release) => Said::Released,
        _ => Said::Else,
    }
}

/// Whether replies are those of a table.
fn are_said(replies: &[MoveReply], table: &[(Play, Said)]) -> bool {
    for (reply, (_, said)) in replies.iter().zip(table) {
        if said_of(reply) != *said {
            return false;
        }
    }
    replies.len() == table.len()
}

fn play_of(rt: &impl Abort, alloc: Global, play: Play) -> Move {
    match play {
        Play::Edit(line) => Move::Event(Event::Edit(edit_of(rt, alloc, line))),
        Play::Take => Move::Event(Event::Take),
        Play::Bring(number) => Move::Bring(number),
        Play::Lose(number) => Move::Lose(number),
        Play::Release => Move::Event(Event::Release),
    }
}

fn push_table(
    rt: &impl Abort,
    alloc: Global,
    moves: &mut Vec<Move>,
    table: &[(Play, Said)],
) -> Result<(), AllocError> {
    for (play, _) in table {
        moves.push(play_of(rt, alloc, *play))?;
    }
    Ok(())
}

/// Whether a book that plays these moves answers what the table says.
fn answers(book: &mut Book, moves: Vec<Move>, table: &[(Play, Said)]) -> bool {
    match book.play(moves) {
        Ok(replies) => are_said(replies.as_slice(), table),
        Err(_) => false,
    }
}

/// Whether a book answers what the table says to its moves.
fn plays(
    rt: &impl Abort,
    alloc: Global,
    book: &mut Book,
    table: &[(Play, Said)],
) -> Result<bool, AllocError> {
    let mut moves = Vec::new(alloc);
    push_table(rt, alloc, &mut moves, table)?;
    Ok(answers(book, moves, table))
}

const SUM: &[u128] = &[11, 22, 33, 4];

/// Whether a key is shown at the end as settled, with the sum.
fn is_sum(rt: &impl Abort, book: &Book, text: &[u8]) -> Result<bool, AllocError> {
    match book.show(key(rt, text), Spot::End) {
        Ok(Look::Settled(value)) => Ok(value.numbers()?.as_slice() == SUM),
        _ => Ok(false),
    }
}

fn loses(rt: &impl Abort, alloc: Global, book: &mut Book) -> Result<bool, AllocError> {
    Ok(plays(rt, alloc, book, LOSS)? && is_sum(rt, book, b"c")?)
}

#[test]
fn an_order_that_is_lost_keeps_its_number(rt: HostRuntime) -> Result<(), AllocError> {
    let mut book = Book::new(rt.alloc());
    let is_right = loses(&rt, rt.alloc(), &mut book)?;
    assert!(rt; is_right);
    Ok(())
}

/// A program of two rows, of which the second needs what the first writes.
const PROGRAM: &[(Play, Said)] = &[
    (Play::Edit(b"set S 4"), Said::Accepted),
    (Play::Edit(b"field a S 8"), Said::Accepted),
    (Play::Edit(b"field b S 8"), Said::Accepted),
    (Play::Edit(b"field c S 8"), Said::Accepted),
    (Play::Edit(b"input a 0 10 20 30 250"), Said::Accepted),
    (Play::Edit(b"input b 0 1 2 3 10"), Said::Accepted),
    (Play::Edit(b"insert end u-add-3-1L c a b 8"), Said::Row(1)),
    (Play::Edit(b"field d S 8"), Said::Accepted),
    (Play::Edit(b"insert end u-move-1L d c 8"), Said::Row(2)),
];

/// The orders for both, and their results.
const WORK: &[(Play, Said)] = &[
    (Play::Take, Said::Order(1, 7)),
    (Play::Bring(1), Said::Brought(Verdict::Kept)),
    (Play::Take, Said::Order(2, 9)),
    (Play::Bring(2), Said::Brought(Verdict::Kept)),
];

/// The places in it of the orders for row 1 and row 2.
const FIRST: usize = 0;

const SECOND: usize = 2;

/// A result that is made by hand: the place of an order with its plan and its inputs, the row and the edition that it says it is of,
/// and what has to become of it.
const HANDMADE: &[(usize, u64, u64, Verdict)] = &[
    (SECOND, 2, 9, Verdict::Foreign),
    (FIRST, 1, 8, Verdict::Stale(Edition(7))),
    (SECOND, 3, 9, Verdict::Gone),
    (SECOND, 1, 7, Verdict::Foreign),
    (FIRST, 1, 7, Verdict::Kept),
    (SECOND, 2, 9, Verdict::Kept),
];

fn order_taken(reply: &Reply) -> Option<&Order> {
    match reply {
        Reply::Take(order) => order.as_ref(),
        _ => None,
    }
}

/// The order that a reply holds.
fn order_in(reply: &MoveReply) -> Option<&Order> {
    match reply {
        MoveReply::Reply(reply) => order_taken(reply),
        _ => None,
    }
}

fn inputs_like(alloc: Global, like: &Order) -> Result<Vec<SharedValue>, AllocError> {
    let mut inputs = Vec::new(alloc);
    for value in like.inputs() {
        inputs.push(value.copy()?)?;
    }
    Ok(inputs)
}

/// An order with the plan and the inputs of another, for a row and an edition.
fn order_like(
    rt: &impl Abort,
    alloc: Global,
    like: &Order,
    row: u64,
    edition: u64,
) -> Result<Order, AllocError> {
    let inputs = inputs_like(alloc, like)?;
    let plan = like.shared_plan().copy()?;
    Ok(Order::new(RowId(row), Edition(edition), plan, inputs).expect(rt, "the inputs fit"))
}

fn result_of(rt: &impl Abort, alloc: Global, order: Order) -> Done {
    execute(alloc, order).ok().expect(rt, "there is memory")
}

/// Adds the handmade results, made like the orders in the replies of another book.
fn push_handmade(
    rt: &impl Abort,
    alloc: Global,
    moves: &mut Vec<Move>,
    replies: &[MoveReply],
) -> Result<(), AllocError> {
    for (place, row, edition, _) in HANDMADE {
        let like = replies
            .get(*place)
            .and_then(|reply| order_in(reply))
            .expect(rt, "an order was taken");
        let order = order_like(rt, alloc, like, *row, *edition)?;
        moves.push(Move::Event(Event::Bring(result_of(rt, alloc, order))))?;
    }
    Ok(())
}

/// Whether another book, which has the program, gives the orders. Then the handmade results are added.
fn push_like_another(
    rt: &impl Abort,
    alloc: Global,
    moves: &mut Vec<Move>,
    other: &mut Book,
) -> Result<bool, AllocError> {
    let mut work = Vec::new(alloc);
    push_table(rt, alloc, &mut work, WORK)?;
    let replies = other.play(work).ok().expect(rt, "there is memory");
    push_handmade(rt, alloc, moves, replies.as_slice())?;
    Ok(are_said(replies.as_slice(), WORK))
}

/// Whether replies are the verdicts on the handmade results.
fn are_verdicts(replies: &[MoveReply]) -> bool {
    for (reply, (_, _, _, verdict)) in replies.iter().zip(HANDMADE) {
        if said_of(reply) != Said::Brought(*verdict) {
            return false;
        }
    }
    replies.len() == HANDMADE.len()
}

fn gets_verdicts(book: &mut Book, moves: Vec<Move>) -> bool {
    match book.play(moves) {
        Ok(replies) => are_verdicts(replies.as_slice()),
        Err(_) => false,
    }
}

/// Whether a book judges handmade results as the table says.
fn judges(
    rt: &impl Abort,
    alloc: Global,
    book: &mut Book,
    other: &mut Book,
) -> Result<bool, AllocError> {
    let mut moves = Vec::new(alloc);
    let are_like = push_like_another(rt, alloc, &mut moves, other)?;
    Ok(are_like && gets_verdicts(book, moves))
}

/// Whether two books of the program judge so, and the first shows the sum twice.
fn judges_handmade(
    rt: &impl Abort,
    alloc: Global,
    book: &mut Book,
    other: &mut Book,
) -> Result<bool, AllocError> {
    Ok(
        plays(rt, alloc, book, PROGRAM)?
            && plays(rt, alloc, other, PROGRAM)?
            && judges(rt, alloc, book, other)?
            && is_sum(rt, book, b"c")?
            && is_sum(rt, book, b"d")?,
    )
}

/// Whether a book does, beside a new one. (A function that owns two books and may end early takes a minute to prove.)
fn judges_beside_another(
    rt: &impl Abort,
    alloc: Global,
    book: &mut Book,
) -> Result<bool, AllocError> {
    let mut other = Book::new(alloc);
    judges_handmade(rt, alloc, book, &mut other)
}

#[test]
fn results_of_orders_by_hand_are_judged(rt: HostRuntime) -> Result<(), AllocError> {
    let mut book = Book::new(rt.alloc());
    let is_right = judges_beside_another(&rt, rt.alloc(), &mut book)?;
    assert!(rt; is_right);
    Ok(())
}
