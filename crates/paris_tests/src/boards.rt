use crate::boards::Ask::*;
use crate::common::*;
use paris_board::Board;
use paris_names::{Fault, FlagName, KeyName};
use std::alloc::Global;
use std::process::Abort;

/// What is asked of a board, as a table has it, and what it has to answer.
enum Ask {
    /// The set of this name: its number, and how many axes it has.
    Set(Text, Result<(u64, usize), Fault>),
    /// The field of this name: the number of its set, and its width.
    Field(Text, Result<(u64, u64), Fault>),
    /// This flag of the set of this name: the number of the set, and the width of the flag.
    Flag(Text, FlagName, Result<(u64, u64), Fault>),
    /// A set of this name is to be declared, of two processors. The board answers by a fault, if it is refused.
    AddSet(Text, Option<Fault>),
    /// A field is to be declared: its name, its set, and its width. The board answers by a fault, if it is refused.
    AddField(Text, Text, u64, Option<Fault>),
    /// Why a set of this name can't be declared.
    SetFault(Text, Option<Fault>),
    /// Why a field can't be declared: its name, its set, and its width.
    FieldFault(Text, Text, u64, Option<Fault>),
    /// How many sets and fields there are.
    Counts(usize, usize),
}

/// A set `plane` of 4 by 2 and a set `line` of 8, with a field `x` of 8 bits in `line` and a field `y` of 64 in `plane`.
fn small_board(rt: &impl Abort, alloc: Global) -> Board {
    let sets: [SetGiven<'_>; 2] = [(b"plane", &[4, 2]), (b"line", &[8])];
    let fields: [FieldGiven<'_>; 2] = [(b"x", b"line", 8), (b"y", b"plane", 64)];
    board_of(rt, alloc, &sets, &fields)
}

fn key_name(rt: &impl Abort, text: &[u8], flag: Option<FlagName>) -> KeyName {
    KeyName {
        name: name(rt, text),
        flag,
    }
}

/// The number of a set, and how many axes it has.
fn number_and_axes(rt: &impl Abort, board: &Board, text: &[u8]) -> Result<(u64, usize), Fault> {
    let set = board.set_of(name(rt, text))?;
    Ok((set.number(), board.geometry(set).axes()))
}

/// The number of the set of a key, and its width.
fn set_and_width(board: &Board, name: KeyName) -> Result<(u64, u64), Fault> {
    let key = &board.key_of(name)?;
    Ok((board.set_of_key(*key).number(), board.width(*key)))
}

fn add_set(rt: &impl Abort, board: &mut Board, text: &[u8]) -> Option<Fault> {
    board.add_set(name(rt, text), geometry(rt, &[2])).err()
}

fn add_field(
    rt: &impl Abort,
    board: &mut Board,
    text: &[u8],
    set: &[u8],
    width: u64,
) -> Option<Fault> {
    board.add_field(name(rt, text), name(rt, set), width).err()
}

fn field_fault(
    rt: &impl Abort,
    board: &Board,
    text: &[u8],
    set: &[u8],
    width: u64,
) -> Option<Fault> {
    board.field_fault(name(rt, text), name(rt, set), width)
}

/// Whether a board gives the answer that it has to give.
fn is_answered(rt: &impl Abort, board: &mut Board, ask: &Ask) -> bool {
    match ask {
        Ask::Set(text, wanted) => number_and_axes(rt, board, *text) == *wanted,
        Ask::Field(text, wanted) => set_and_width(board, key_name(rt, *text, None)) == *wanted,
        Ask::Flag(text, flag, wanted) => {
            set_and_width(board, key_name(rt, *text, Some(*flag))) == *wanted
        }
        Ask::AddSet(text, wanted) => add_set(rt, board, *text) == *wanted,
        Ask::AddField(text, set, width, wanted) => {
            add_field(rt, board, *text, *set, *width) == *wanted
        }
        Ask::SetFault(text, wanted) => board.set_fault(name(rt, *text)) == *wanted,
        Ask::FieldFault(text, set, width, wanted) => {
            field_fault(rt, board, *text, *set, *width) == *wanted
        }
        Ask::Counts(sets, fields) => board.sets() == *sets && board.fields() == *fields,
    }
}

/// A board gives its answers.
fn answers(rt: &impl Abort, board: &mut Board, asks: &[Ask]) {
    for ask in asks {
        assert!(rt; is_answered(rt, board, ask));
    }
}

/// The small board gives its answers.
fn small_answers(rt: &impl Abort, alloc: Global, asks: &[Ask]) {
    answers(rt, &mut small_board(rt, alloc), asks);
}

#[test]
fn a_new_board_is_empty(rt: HostRuntime) {
    let board = Board::new(rt.alloc());
    assert!(rt; board.sets() == 0 && board.fields() == 0);
}

#[test]
fn sets_are_found(rt: HostRuntime) {
    const ASKS: &[Ask] = &[
        Set(b"plane", Ok((0, 2))),
        Set(b"line", Ok((1, 1))),
        Set(b"x", Err(Fault::NoSet)),
    ];
    small_answers(&rt, rt.alloc(), ASKS);
}

#[test]
fn fields_are_found(rt: HostRuntime) {
    const ASKS: &[Ask] = &[
        Field(b"x", Ok((1, 8))),
        Field(b"y", Ok((0, 64))),
        Field(b"plane", Err(Fault::NoField)),
        Field(b"z", Err(Fault::NoField)),
    ];
    small_answers(&rt, rt.alloc(), ASKS);
}

#[test]
fn flags_are_found(rt: HostRuntime) {
    const ASKS: &[Ask] = &[
        Flag(b"plane", FlagName::Carry, Ok((0, 1))),
        Flag(b"line", FlagName::Carry, Ok((1, 1))),
        Flag(b"x", FlagName::Test, Err(Fault::NoField)),
    ];
    small_answers(&rt, rt.alloc(), ASKS);
}

#[test]
fn a_ninth_set_is_refused(rt: HostRuntime) {
    const ASKS: &[Ask] = &[
        AddSet(b"a", None),
        AddSet(b"b", None),
        AddSet(b"c", None),
        AddSet(b"d", None),
        AddSet(b"e", None),
        AddSet(b"f", None),
        AddSet(b"g", None),
        AddSet(b"h", None),
        AddSet(b"i", Some(Fault::SetsFull)),
        AddSet(b"h", Some(Fault::NameTaken)),
        Counts(8, 0),
    ];
    answers(&rt, &mut Board::new(rt.alloc()), ASKS);
}

/// Declares fields of one bit in the set `line`, while there are fewer than 64 fields. Their names are this letter with another.
fn declare_pairs(rt: &impl Abort, board: &mut Board, first: u8) {
    for second in b"abcdefgh" {
        if board.fields() < 64 {
            assert!(rt; add_field(rt, board, &[first, *second], b"line", 1).is_none());
        }
    }
}

#[test]
fn a_65th_field_is_refused(rt: HostRuntime) {
    const ASKS: &[Ask] = &[
        AddField(b"z", b"line", 0, Some(Fault::FieldsFull)),
        AddField(b"aa", b"line", 0, Some(Fault::NameTaken)),
        AddField(b"aa", b"z", 0, Some(Fault::NoSet)),
        Counts(2, 64),
    ];
    let mut board = small_board(&rt, rt.alloc());
    for first in b"abcdefgh" {
        declare_pairs(&rt, &mut board, *first);
    }
    answers(&rt, &mut board, ASKS);
}

#[test]
fn the_first_fault_is_answered(rt: HostRuntime) {
    const ASKS: &[Ask] = &[
        AddSet(b"plane", Some(Fault::NameTaken)),
        AddSet(b"y", Some(Fault::NameTaken)),
        AddField(b"x", b"z", 0, Some(Fault::NoSet)),
        AddField(b"x", b"line", 0, Some(Fault::NameTaken)),
        AddField(b"plane", b"plane", 8, Some(Fault::NameTaken)),
        AddField(b"z", b"line", 0, Some(Fault::BadWidth)),
        AddField(b"z", b"line", 65, Some(Fault::BadWidth)),
        Counts(2, 2),
    ];
    small_answers(&rt, rt.alloc(), ASKS);
}

#[test]
fn no_fault_is_foreseen_where_there_is_none(rt: HostRuntime) {
    const ASKS: &[Ask] = &[
        SetFault(b"z", None),
        SetFault(b"x", Some(Fault::NameTaken)),
        FieldFault(b"z", b"line", 64, None),
        FieldFault(b"z", b"line", 65, Some(Fault::BadWidth)),
    ];
    small_answers(&rt, rt.alloc(), ASKS);
}
