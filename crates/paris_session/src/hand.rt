//! What a session has in hand beside its book: what its lines ask for, and what it tells of the replies.

ghost use Rattle.std.specs.Prelude.{◌≡◌, ◌^◌, ◌<◌, ◌≤◌, length, nat_lt, false, true, Ok, IfOk, OnOk, OnErr, option_map};
ghost use Rattle.paris_book.specs.Among.{look_shown};
ghost use Rattle.paris_events.specs.declared.events.Reply.TheVariants as ReplyCase;
ghost use Rattle.paris_session.specs.Hands.{HasPlace, IsReady, asked, asked_by, asked_by_line, asked_by_read, begun, bring_asked, empty_hand, is_look, is_skipped, kept, longest_line, order_at, plainly, refused, setting_of, shown_text, told};
ghost use Rattle.paris_text.specs.CommandReading.{command_in};

use crate::asked::Asked;
use crate::replies::{list_text, values_text};
use crate::room::Room;
use paris_book::Look;
use paris_events::{Event, Reply, Shown};
use paris_exec::{Order, execute};
use paris_names::Fault;
use paris_names::limits::MAX_LINE;
use paris_text::{Command, Setting, read_command_in};
use std::alloc::{AllocError, Global};
use std::marker::Model;

/// Whether a line is longer than a line may be.
fn is_overlong(line: &[u8]) -> bool
    ensures { result ≡ nat_lt longest_line (length line.now) }
{
    line.len() > MAX_LINE
}

/// Whether a line is skipped.
fn is_skipped(line: &[u8]) -> bool
    ensures { result ≡ is_skipped line.now }
{
    line.is_empty() || line[0] == b'#'
}

/// The reply to a look at a key, whose value is shared.
fn shown_text(alloc: Global, shown: &Shown) -> Result<Vec<u8>, AllocError>
    ensures { IfOk result (λ text. text.items ≡ shown_text shown.now) }
{
    match shown {
        Shown::Settled(value) => {
            let numbers = value.get().numbers()?;
            values_text(alloc, numbers.as_slice())
        }
        Shown::Pending(id) => Ok(Room::new(alloc)?.pending(*id)),
    }
}

/// The reply to a look at a key, whose value is lent.
fn look_text(alloc: Global, look: &Look<'_>) -> Result<Vec<u8>, AllocError>
    ensures { IfOk result (λ text. text.items ≡ shown_text (look_shown look.now)) }
{
    match look {
        Look::Settled(value) => {
            let numbers = value.numbers()?;
            values_text(alloc, numbers.as_slice())
        }
        Look::Pending(id) => Ok(Room::new(alloc)?.pending(*id)),
    }
}

/// Copies of orders.
fn copies_of_orders(alloc: Global, orders: &[Order]) -> Result<Vec<Order>, AllocError>
    ensures { IfOk result (λ copies. copies.items ≡ orders.now) }
{
    let mut copies = Vec::with_capacity(alloc, orders.len())?;
    for order in orders {
        copies.push(order.copy()?)?;
    }
    Ok(copies)
}

/// Whether the next command may choose the profile, the orders that were taken, and how many commands were answered and how many of
/// them refused. A clause sees the tasks of the orders, and for how many there is room.
#[derive(Drop)]
pub struct Hand {
    first: bool,
    tray: Vec<Order>,
    commands: u64,
    refusals: u64,
}

impl Model for Hand {
    ghost use Rattle.std.specs.Prelude.{◌≤◌, length};
    ghost use Rattle.std.specs.Vec.{vec_capacity};
    ghost use Rattle.paris_session.specs.Hands.{Held, hand, held};

    ghost Value = { Held };

    ghost view = { λ h. held (hand h.first h.tray.items h.commands h.refusals) (vec_capacity h.tray) };

    ghost invariant = { λ h. (h.refusals ≤ h.commands) × (length h.tray.items ≤ h.commands) };
}

impl Hand {
    /// A hand with no order, which has answered no command. Its first command may choose the profile, or none may.
    pub fn new(alloc: Global, first: bool) -> Hand
        ensures { result.hand ≡ empty_hand first }
    {
        Hand {
            first,
            tray: Vec::new(alloc),
            commands: 0,
            refusals: 0,
        }
    }

    /// Another hand with the same orders and counts. The error says that memory was refused.
    pub(crate) fn copy(&self) -> Result<Hand, AllocError>
        ensures { IfOk result (λ copy. copy.hand ≡ self.now.hand) }
    {
        let tray = copies_of_orders(self.alloc(), self.tray.as_slice())?;
        Ok(Hand {
            first: self.first,
            tray,
            commands: self.commands,
            refusals: self.refusals,
        })
    }

    pub(crate) fn alloc(&self) -> Global {
        *self.tray.allocator()
    }

    /// How many commands were answered.
    pub fn commands(&self) -> u64
        ensures { result ≡ self.now.hand.commands }
    {
        self.commands
    }

    /// How many commands were refused.
    pub fn refusals(&self) -> u64
        ensures value { result ≡ self.now.hand.refusals }
        ensures few { self.now.hand.refusals ≤ self.now.hand.commands }
    {
        self.refusals
    }

    /// From now on no command may choose the profile.
    pub(crate) fn begin(&mut self)
        ensures { self.new.hand ≡ begun self.old.hand }
    {
        self.first = false;
    }

    /// The order of a number, if it was taken.
    fn order(&self, number: u64) -> Option<&Order>
        ensures { option_map (λ order. order.now) result ≡ order_at self.now.hand.tray number }
    {
        if number == 0 {
            return None;
        }
        self.tray.get(number as usize - 1)
    }

    /// What `bring` asks for: a copy of the order is executed.
    fn bring_asked(&self, number: u64) -> Result<Asked, AllocError>
        ensures { IfOk result (λ asked. asked ≡ bring_asked (order_at self.now.hand.tray number)) }
    {
        let Some(order) = self.order(number) else {
            return Ok(Asked::Refused(Fault::NoOrder));
        };
        let copy = order.copy()?;
        match execute(self.alloc(), copy) {
            Ok(done) => Ok(Asked::Call(Event::Bring(done))),
            Err((_, error)) => Err(error),
        }
    }

    /// What a command asks for.
    fn asked_by(&self, command: Command) -> Result<Asked, AllocError>
        ensures { IfOk result (λ asked. asked ≡ asked_by self.now.hand.tray command) }
    {
        match command {
            Command::Edit(edit) => Ok(Asked::Call(Event::Edit(edit))),
            Command::Take => Ok(Asked::Call(Event::Take)),
            Command::Bring(number) => self.bring_asked(number),
            Command::Release => Ok(Asked::Call(Event::Release)),
            Command::Show { key, spot } => Ok(Asked::Look(key, spot)),
            Command::List => Ok(Asked::Call(Event::List)),
            Command::Faults => Ok(Asked::Faults),
            Command::Settle => Ok(Asked::Settle),
            Command::Paris(profile) => Ok(Asked::Chosen(profile)),
        }
    }

    /// What a line asks for that is no longer than a line may be.
    fn asked_by_read(&self, is_shared: bool, line: &[u8]) -> Result<Asked, AllocError>
        ensures { IfOk result (λ asked. asked ≡ asked_by_read self.now.hand.tray (command_in (setting_of is_shared self.now.hand) line.now)) }
    {
        let setting = Setting {
            is_shared,
            is_first: self.first,
        };
        match read_command_in(self.alloc(), setting, line) {
            Ok(command) => self.asked_by(command),
            Err(fault) => {
                if fault.is_no_memory() {
                    return Err(AllocError);
                }
                Ok(Asked::Refused(fault))
            }
        }
    }

    /// What a line asks for that is not skipped.
    fn asked_by_line(&self, is_shared: bool, line: &[u8]) -> Result<Asked, AllocError>
        ensures { IfOk result (λ asked. asked ≡ asked_by_line is_shared self.now.hand line.now) }
    {
        if is_overlong(line) {
            return Ok(Asked::Refused(Fault::Syntax(MAX_LINE as u64 + 1)));
        }
        self.asked_by_read(is_shared, line)
    }

    /// What a line asks for, of a book that sessions share or of one's own. A line that is skipped asks for nothing, and takes no memory.
    /// The error says that memory was refused.
    pub fn asked(&self, is_shared: bool, line: &[u8]) -> Result<Option<Asked>, AllocError>
        ensures ok { IfOk result (λ a. a ≡ asked is_shared self.now.hand line.now) }
        ensures needed { OnErr result (is_skipped line.now ≡ false) }
    {
        if is_skipped(line) {
            return Ok(None);
        }
        Ok(Some(self.asked_by_line(is_shared, line)?))
    }

    /// Room in the tray for what an event may add to it.
    fn reserve_for(&mut self, event: &Event) -> Result<(), AllocError>
        ensures same { self.new.hand ≡ self.old.hand }
        ensures ready { OnOk result (IsReady self.new event.now) }
    {
        match event {
            Event::Take => self.tray.reserve(1),
            _ => Ok(()),
        }
    }

    /// Room for what is told of the reply to an event, and in the tray for what it may add to that. The error says that memory was
    /// refused.
    pub fn ready(&mut self, event: &Event) -> Result<Room, AllocError>
        ensures same { self.new.hand ≡ self.old.hand }
        ensures ready { OnOk result (IsReady self.new event.now) }
    {
        let room = Room::new(self.alloc())?;
        self.reserve_for(event)?;
        Ok(room)
    }

    /// Counts a command that nothing refuses. The text of its reply comes back.
    pub fn plainly(&mut self, text: Vec<u8>) -> Vec<u8>
        requires { self.old.hand.commands < 2 ^ 62 }
        ensures { (self.new.hand, result.items) ≡ plainly self.old.hand text.items }
    {
        self.first = false;
        self.commands += 1;
        text
    }

    /// Counts a command that is refused, and tells of it.
    fn refused(&mut self, room: Room, fault: Fault) -> Vec<u8>
        requires { self.old.hand.commands < 2 ^ 62 }
        ensures { (self.new.hand, result.items) ≡ refused self.old.hand fault }
    {
        self.first = false;
        self.commands += 1;
        self.refusals += 1;
        room.refusal(fault)
    }

    /// Counts a command that took an order, tells of the order, and keeps it.
    fn kept(&mut self, room: Room, order: Order) -> Vec<u8>
        requires count { self.old.hand.commands < 2 ^ 62 }
        requires place { length self.old.hand.tray < self.old.places }
        ensures { (self.new.hand, result.items) ≡ kept self.old.hand order }
    {
        self.first = false;
        self.commands += 1;
        let number = self.tray.len() as u64 + 1;
        let text = room.order(number, order.id(), order.edition());
        self.tray.push_reserved(order);
        text
    }

    /// Tells of a command that is refused. The error says that memory was refused, and the hand is as it was.
    pub fn refuse(&mut self, fault: Fault) -> Result<Vec<u8>, AllocError>
        requires { self.old.hand.commands < 2 ^ 62 }
        ensures ok { IfOk result (λ text. (self.new.hand, text.items) ≡ refused self.old.hand fault) }
        ensures err { OnErr result (self.new ≡ self.old) }
    {
        let room = Room::new(self.alloc())?;
        Ok(self.refused(room, fault))
    }

    /// Tells of a look whose value is lent. The error says that memory was refused, and the hand is as it was.
    pub fn tell_look(&mut self, look: &Look<'_>) -> Result<Vec<u8>, AllocError>
        requires { self.old.hand.commands < 2 ^ 62 }
        ensures ok { IfOk result (λ text. (self.new.hand, text.items) ≡ told self.old.hand (ReplyCase.Show (Ok (look_shown look.now)))) }
        ensures err { OnErr result (self.new ≡ self.old) }
    {
        let text = look_text(self.alloc(), look)?;
        Ok(self.plainly(text))
    }

    /// Tells of a reply, in the room that was there before. The error says that memory was refused for what a look shows, and the hand
    /// is as it was.
    pub fn tell(&mut self, room: Room, reply: Reply) -> Result<Vec<u8>, AllocError>
        requires count { self.old.hand.commands < 2 ^ 62 }
        requires place { HasPlace self.old reply }
        ensures ok { IfOk result (λ text. (self.new.hand, text.items) ≡ told self.old.hand reply) }
        ensures err { OnErr result (self.new ≡ self.old) }
        ensures look { OnErr result (is_look reply ≡ true) }
    {
        match reply {
            Reply::Edit(Ok(answer)) => Ok(self.plainly(room.edit(answer))),
            Reply::Edit(Err(fault)) => Ok(self.refused(room, fault)),
            Reply::Take(None) => Ok(self.plainly(room.nothing())),
            Reply::Take(Some(order)) => Ok(self.kept(room, order)),
            Reply::Bring(verdict) => Ok(self.plainly(room.verdict(verdict))),
            Reply::Release => Ok(self.plainly(room.ok())),
            Reply::Show(Ok(shown)) => {
                let text = shown_text(self.alloc(), &shown)?;
                Ok(self.plainly(text))
            }
            Reply::Show(Err(fault)) => Ok(self.refused(room, fault)),
            Reply::List(looks) => {
                let text = list_text(self.alloc(), looks.as_slice())?;
                Ok(self.plainly(text))
            }
        }
    }
}
