//! A schedule from a list: events, and the orders that its takes give, executed and brought in any order, more than once, or lost.

ghost use Rattle.std.specs.Prelude.{◌≡◌, ◌<◌, ◌≤◌, ◌++◌, ◌∷◌, [], take, length, slice_get, vec_len, vec_capacity, Some, IsSome, List, true, is_some, IfOk, IfErr, OnOk, OnErr};
ghost use Rattle.std.specs.Option.{option_copied};
ghost use Rattle.paris_events.specs.Orders.{take_reply, after_take};
ghost use Rattle.paris_events.specs.Results.{verdict_of, after_bring};
ghost use Rattle.paris_events.specs.Events.{reply_to, after, after_all, grows};
ghost use Rattle.paris_events.specs.Plays.{play_of, start_of, order_numbered, reply_to_loss, lost_at, with_order, orders_after, reply_to_move, after_move, replies_to_moves, after_moves, events_of, move_grows};
ghost use Rattle.paris_events.specs.declared.moves.Move.{Move as AnyMove};
ghost use Rattle.paris_events.specs.declared.moves.Move.TheVariants as MoveCase;

use crate::book::Book;
use paris_edits::Verdict;
use paris_events::{Event, Move, MoveReply, Reply};
use paris_exec::{Order, execute};
use std::alloc::AllocError;

/// The order of a number, if it was given and isn't lost. The first has number 1.
fn order_numbered(orders: &[Option<Order>], number: u64) -> Option<&Order>
    ensures { option_copied result ≡ order_numbered orders.entry.now number }
{
    if number == 0 || number > orders.len() as u64 {
        return None;
    }
    orders[number as usize - 1].as_ref()
}

/// Drops the order of a number, if there is one. The others keep their numbers.
fn lose(orders: &mut Vec<Option<Order>>, number: u64) -> MoveReply
    ensures reply { result ≡ reply_to_loss (order_numbered orders.old.items number) }
    ensures orders { orders.new.items ≡ lost_at orders.old.items number (order_numbered orders.old.items number) }
{
    if order_numbered(orders.as_slice(), number).is_none() {
        return MoveReply::NoOrder;
    }
    orders[number as usize - 1] = None;
    MoveReply::Lost
}

/// Keeps an order, for which there is room.
fn push_order(orders: &mut Vec<Option<Order>>, order: Order)
    requires { vec_len orders.old < vec_capacity orders.old }
    ensures { orders.new.items ≡ orders.old.items ++ Some order ∷ [] }
{
    match orders.push(Some(order)) {
        Ok(()) => {}
        Err(_) => unreachable!(),
    }
}

/// Adds a reply, for which there is room.
fn push_reply(replies: &mut Vec<MoveReply>, reply: MoveReply)
    requires { vec_len replies.old < vec_capacity replies.old }
    ensures items { replies.new.items ≡ replies.old.items ++ reply ∷ [] }
    ensures capacity { vec_capacity replies.old ≤ vec_capacity replies.new }
{
    match replies.push(reply) {
        Ok(()) => {}
        Err(_) => unreachable!(),
    }
}

impl Book {
    /// Takes an order, and keeps a copy of it. The copy and the room for it are made before the book changes.
    fn take_and_keep(
        &mut self,
        orders: &mut Vec<Option<Order>>,
    ) -> Result<Option<Order>, AllocError>
        ensures order { IfOk result (λ order. order ≡ take_reply self.old) }
        ensures state { OnOk result (self.new ≡ after_take self.old) }
        ensures orders { OnOk result (orders.new.items ≡ with_order orders.old.items (take_reply self.old)) }
        ensures err { OnErr result ((self.new ≡ self.old) × (orders.new.items ≡ orders.old.items)) }
        ensures ready { OnErr result (IsSome (take_reply self.old)) }
    {
        let Some(copy) = self.peek()? else {
            return self.take();
        };
        orders.reserve(1)?;
        let order = self.take()?;
        push_order(orders, copy);
        Ok(order)
    }

    /// Executes a copy of an order, and brings its result.
    fn execute_and_bring(&mut self, order: &Order) -> Result<Verdict, AllocError>
        ensures verdict { IfOk result (λ verdict. verdict ≡ verdict_of self.old order.now) }
        ensures state { OnOk result (self.new ≡ after_bring self.old order.now) }
        ensures err { OnErr result (self.new ≡ self.old) }
    {
        match execute(self.loose.allocator(), order.copy()?) {
            Ok(done) => Ok(self.bring(done)),
            Err((_, refused)) => Err(refused),
        }
    }

    /// Executes and brings the order of a number, if there is one.
    fn bring_numbered(
        &mut self,
        orders: &[Option<Order>],
        number: u64,
    ) -> Result<MoveReply, AllocError>
        ensures reply { IfOk result (λ reply. reply ≡ reply_to_move (play_of self.old orders.now) (MoveCase.Bring number)) }
        ensures state { OnOk result (self.new ≡ (after_move (play_of self.old orders.now) (MoveCase.Bring number)).state) }
        ensures err { OnErr result (self.new ≡ self.old) }
        ensures there { OnErr result (is_some (order_numbered orders.now number) ≡ true) }
    {
        match order_numbered(orders, number) {
            None => Ok(MoveReply::NoOrder),
            Some(order) => Ok(MoveReply::Reply(Reply::Bring(self.execute_and_bring(order)?))),
        }
    }

    /// An event of a schedule. An order that a take gives is kept.
    fn play_event(
        &mut self,
        orders: &mut Vec<Option<Order>>,
        event: Event,
    ) -> Result<Reply, AllocError>
        ensures reply { IfOk result (λ reply. reply ≡ reply_to self.old event) }
        ensures state { OnOk result (self.new ≡ after self.old event) }
        ensures orders { OnOk result (orders.new.items ≡ orders_after (play_of self.old orders.old.items) event) }
        ensures err { OnErr result ((self.new ≡ self.old) × (orders.new.items ≡ orders.old.items)) }
        ensures grows { OnErr result (grows self.old event ≡ true) }
    {
        match event {
            Event::Take => Ok(Reply::Take(self.take_and_keep(orders)?)),
            other => match self.step(other) {
                Ok(reply) => Ok(reply),
                Err((_, refused)) => Err(refused),
            },
        }
    }

    /// One move, with the orders that were given so far. At an error the book and the orders are as they were.
    fn play_one(
        &mut self,
        orders: &mut Vec<Option<Order>>,
        next: Move,
    ) -> Result<MoveReply, AllocError>
        ensures reply { IfOk result (λ reply. reply ≡ reply_to_move (play_of self.old orders.old.items) next) }
        ensures play { OnOk result (play_of self.new orders.new.items ≡ after_move (play_of self.old orders.old.items) next) }
        ensures err { OnErr result ((self.new ≡ self.old) × (orders.new.items ≡ orders.old.items)) }
        ensures grows { OnErr result (move_grows (play_of self.old orders.old.items) next ≡ true) }
    {
        match next {
            Move::Event(event) => Ok(MoveReply::Reply(self.play_event(orders, event)?)),
            Move::Bring(number) => self.bring_numbered(orders.as_slice(), number),
            Move::Lose(number) => Ok(lose(orders, number)),
        }
    }

    /// A schedule: any list of moves, in order. The orders that its takes give are numbered from 1 and kept until its end. The error
    /// says that memory was refused: it holds the replies so far, and the book is that after the moves of these. Room for all replies is
    /// asked for first; where the error has some, the next move is one that takes memory. A loss and a number of no order take none.
    pub fn play(&mut self, moves: Vec<Move>) -> Result<Vec<MoveReply>, (Vec<MoveReply>, AllocError)>
        ensures replies { IfOk result (λ replies. replies.items ≡ replies_to_moves (start_of self.old) moves.items) }
        ensures state { OnOk result (self.new ≡ (after_moves (start_of self.old) moves.items).state) }
        ensures err { IfErr result (λ e. (e.0.items ≡ replies_to_moves (start_of self.old) (take (vec_len e.0) moves.items))
            × (self.new ≡ (after_moves (start_of self.old) (take (vec_len e.0) moves.items)).state)) }
        ensures fewer { IfErr result (λ e. vec_len e.0 < length moves.items) }
        ensures grows { IfErr result (λ e. (next : AnyMove) → 0 < vec_capacity e.0 → slice_get moves.items (vec_len e.0) ≡ Some next
            → move_grows (after_moves (start_of self.old) (take (vec_len e.0) moves.items)) next ≡ true) }
    {
        let mut replies = Vec::new(self.loose.allocator());
        if let Err(refused) = replies.reserve(moves.len()) {
            return Err((replies, refused));
        }
        let mut orders = Vec::new(self.loose.allocator());
        for next in moves {
            match self.play_one(&mut orders, next) {
                Ok(reply) => push_reply(&mut replies, reply),
                Err(refused) => return Err((replies, refused)),
            }
        }
        Ok(replies)
    }

    /// The state after any list of moves is that after the events that they stand for. So what is said of every list of events is
    /// said of every schedule. It changes nothing: what it ensures is the law.
    pub fn moves_are_events(&self)
        ensures { (moves : List AnyMove) → (after_moves (start_of self.now) moves).state ≡ after_all self.now (events_of (start_of self.now) moves) }
    {}
}
