//! Room for a short reply, which is had before the command takes effect: what is written then takes no memory.

ghost use Rattle.std.specs.Prelude.{◌≡◌, ℕ, ◌+◌, ◌≤◌, List, [], ◌++◌, length, codes, IfOk};
ghost use Rattle.std.specs.Fmt.{decimal};
ghost use Rattle.paris_session.specs.Replies.{ok_text, edit_text, order_text, nothing_text, verdict_text, pending_text, settled_text, refusal_text};

use itoa::Buffer;
use paris_edits::{EditReply, Verdict};
use paris_names::{Edition, Fault, RowId};
use std::alloc::{AllocError, Global};
use std::marker::Model;

/// How many bytes a short reply has at most: an order's has 20 of words, and three numbers of at most 20 digits.
const MOST: usize = 128;

/// Room for a reply that is one short line. A clause sees nothing of it.
#[derive(Drop)]
pub struct Room {
    text: Vec<u8>,
}

impl Model for Room {
    ghost use Rattle.std.specs.Prelude.{◌≤◌};
    ghost use Rattle.std.specs.Vec.{vec_capacity};

    ghost Value = { Unit {0} };

    ghost view = { λ _. tt };

    ghost invariant = { λ room. 128 ≤ vec_capacity room.text };
}

/// A line that is being written into its room. A clause sees its bytes.
#[derive(Drop)]
struct Line {
    text: Vec<u8>,
}

impl Model for Line {
    ghost use Rattle.std.specs.Prelude.{ℕ, ◌≤◌, List};
    ghost use Rattle.std.specs.Vec.{vec_capacity};

    ghost Value = { List ℕ };

    ghost view = { λ line. line.text.items };

    ghost invariant = { λ line. 128 ≤ vec_capacity line.text };
}

impl Line {
    /// The line with some bytes more.
    fn word(self, bytes: &[u8]) -> Line
        requires { length self + length bytes.now ≤ 128 }
        ensures text { result ≡ self ++ bytes.now }
        ensures len { length result ≡ length self + length bytes.now }
    {
        let Line { mut text } = self;
        match text.extend_from_slice(bytes) {
            Ok(()) => Line { text },
            Err(_) => unreachable!(),
        }
    }

    /// The line with a number more.
    fn number(self, number: u64) -> Line
        requires { length self + 20 ≤ 128 }
        ensures text { result ≡ self ++ decimal number }
        ensures len { length result ≤ length self + 20 }
    {
        let mut digits = Buffer::new();
        self.word(digits.format(number).as_bytes())
    }

    /// The bytes of the line.
    fn into_bytes(self) -> Vec<u8>
        ensures { result.items ≡ self }
    {
        let Line { text } = self;
        text
    }
}

impl Room {
    /// Room for a reply.
    pub fn new(alloc: Global) -> Result<Room, AllocError> {
        let text = Vec::with_capacity(alloc, MOST)?;
        Ok(Room { text })
    }

    /// A line with nothing in it.
    fn begin(self) -> Line
        ensures { result ≡ [] }
    {
        let Room { mut text } = self;
        text.clear();
        Line { text }
    }

    /// The reply of a word.
    fn word(self, word: &[u8]) -> Vec<u8>
        requires { length word.now ≤ 128 }
        ensures { result.items ≡ word.now }
    {
        self.begin().word(word).into_bytes()
    }

    /// The reply of a word and a number.
    fn numbered(self, word: &[u8], number: u64) -> Vec<u8>
        requires { length word.now ≤ 64 }
        ensures { result.items ≡ word.now ++ (decimal number ++ codes "\n") }
    {
        self.begin()
            .word(word)
            .number(number)
            .word(b"\n")
            .into_bytes()
    }

    /// The reply to a command that has nothing to tell.
    pub fn ok(self) -> Vec<u8>
        ensures { result.items ≡ ok_text }
    {
        self.word(b"ok\n")
    }

    /// The reply to an edit that is accepted.
    pub fn edit(self, reply: EditReply) -> Vec<u8>
        ensures { result.items ≡ edit_text reply }
    {
        match reply {
            EditReply::Accepted => self.ok(),
            EditReply::Row(id) => self.numbered(b"row ", id.0),
        }
    }

    /// The reply to a take that gave an order, by its number in this run, its row and its edition.
    pub fn order(self, number: u64, row: RowId, edition: Edition) -> Vec<u8>
        ensures { result.items ≡ order_text number row edition }
    {
        self.begin()
            .word(b"order ")
            .number(number)
            .word(b" row ")
            .number(row.0)
            .word(b" edition ")
            .number(edition.0)
            .word(b"\n")
            .into_bytes()
    }

    /// The reply to a take that found no row.
    pub fn nothing(self) -> Vec<u8>
        ensures { result.items ≡ nothing_text }
    {
        self.word(b"nothing\n")
    }

    /// The reply to a result that is brought.
    pub fn verdict(self, verdict: Verdict) -> Vec<u8>
        ensures { result.items ≡ verdict_text verdict }
    {
        match verdict {
            Verdict::Gone => self.word(b"gone\n"),
            Verdict::Stale(edition) => self.numbered(b"stale ", edition.0),
            Verdict::Repeated => self.word(b"repeated\n"),
            Verdict::Foreign => self.word(b"foreign\n"),
            Verdict::Kept => self.word(b"kept\n"),
        }
    }

    /// The reply to a look at a key whose value waits for this row.
    pub fn pending(self, row: RowId) -> Vec<u8>
        ensures { result.items ≡ pending_text row }
    {
        self.numbered(b"pending ", row.0)
    }

    /// The reply to `settle`, which ran so many orders.
    pub fn settled(self, ran: u64) -> Vec<u8>
        ensures { result.items ≡ settled_text ran }
    {
        self.numbered(b"settled ", ran)
    }

    /// The reply of the number of a fault and another number.
    fn refused_at(self, fault: u64, place: u64) -> Vec<u8>
        ensures { result.items ≡ codes "refused " ++ (decimal fault ++ ((codes " " ++ decimal place) ++ codes "\n")) }
    {
        self.begin()
            .word(b"refused ")
            .number(fault)
            .word(b" ")
            .number(place)
            .word(b"\n")
            .into_bytes()
    }

    /// The reply to a command that is refused.
    pub fn refusal(self, fault: Fault) -> Vec<u8>
        ensures { result.items ≡ refusal_text fault }
    {
        let number = fault.number();
        match fault {
            Fault::TooWide(processor) => self.refused_at(number, processor),
            Fault::Syntax(column) => self.refused_at(number, column),
            _ => self.numbered(b"refused ", number),
        }
    }
}
