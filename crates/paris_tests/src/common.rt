//! What several tests use: keys, boards and instructions, as tables have them.

use paris_board::Board;
use paris_geometry::Geometry;
use paris_instr::{Plan, resolve};
use paris_model::Instr;
use paris_names::{Fault, FieldNo, FlagName, Key, Name, SetNo};
use paris_text::read_instr;
use std::alloc::Global;
use std::process::Abort;

/// A name or an instruction, as a table has it.
pub(crate) type Text = &'static [u8];

/// A key, as a table has it. Fields and sets have their numbers.
#[derive(Clone, Copy)]
pub(crate) enum Place {
    Field(u64),
    Flag(u64, FlagName),
}

/// A set: its name, and the lengths of its axes.
pub(crate) type SetGiven<'a> = (&'a [u8], &'a [u64]);

/// A field: its name, that of its set, and its width.
pub(crate) type FieldGiven<'a> = (&'a [u8], &'a [u8], u64);

pub(crate) fn name(rt: &impl Abort, text: &[u8]) -> Name {
    Name::new(text).expect(rt, "it is a name")
}

pub(crate) fn key(rt: &impl Abort, place: Place) -> Key {
    match place {
        Place::Field(number) => {
            assert!(rt; number < 64);
            Key::Field(FieldNo::new(number))
        }
        Place::Flag(set, flag) => {
            assert!(rt; set < 8);
            Key::Flag(SetNo::new(set), flag)
        }
    }
}

pub(crate) fn keys(rt: &impl Abort, alloc: Global, places: &[Place]) -> Vec<Key> {
    let mut keys = Vec::new(alloc);
    for place in places {
        keys.push(key(rt, *place))
            .ok()
            .expect(rt, "there is memory");
    }
    keys
}

/// The geometry of the lengths of its axes.
pub(crate) fn geometry(rt: &impl Abort, lengths: &[u64]) -> Geometry {
    Geometry::new(lengths)
        .ok()
        .expect(rt, "the lengths make a geometry")
}

/// The instruction that a text spells.
pub(crate) fn instr(rt: &impl Abort, text: &[u8]) -> Instr {
    read_instr(text)
        .ok()
        .expect(rt, "the text spells an instruction")
}

fn add_sets(rt: &impl Abort, board: &mut Board, sets: &[SetGiven<'_>]) {
    for (text, axes) in sets {
        board
            .add_set(name(rt, *text), geometry(rt, *axes))
            .ok()
            .expect(rt, "the set is declared");
    }
}

fn add_fields(rt: &impl Abort, board: &mut Board, fields: &[FieldGiven<'_>]) {
    for (text, set, width) in fields {
        board
            .add_field(name(rt, *text), name(rt, *set), *width)
            .ok()
            .expect(rt, "the field is declared");
    }
}

/// A board with these sets and fields.
pub(crate) fn board_of(
    rt: &impl Abort,
    alloc: Global,
    sets: &[SetGiven<'_>],
    fields: &[FieldGiven<'_>],
) -> Board {
    let mut board = Board::new(alloc);
    add_sets(rt, &mut board, sets);
    add_fields(rt, &mut board, fields);
    board
}

/// The plan of an instruction on a board.
pub(crate) fn plan_on(rt: &impl Abort, alloc: Global, board: &Board, text: &[u8]) -> Plan {
    resolve(alloc, board, instr(rt, text))
        .ok()
        .expect(rt, "the instruction has a plan")
}

/// Whether these are the keys, in this order.
fn are_keys(rt: &impl Abort, alloc: Global, found: &[Key], places: &[Place]) -> bool {
    found == keys(rt, alloc, places).as_slice()
}

/// A plan reads and writes just these keys.
pub(crate) fn has_keys(
    rt: &impl Abort,
    alloc: Global,
    plan: &Plan,
    reads: &[Place],
    writes: &[Place],
) {
    assert!(rt; are_keys(rt, alloc, plan.reads(), reads));
    assert!(rt; are_keys(rt, alloc, plan.writes(), writes));
}

/// Instructions are refused on a board with these faults.
pub(crate) fn are_refused(
    rt: &impl Abort,
    alloc: Global,
    board: &Board,
    refused: &[(Text, Fault)],
) {
    for (text, fault) in refused {
        let result = resolve(alloc, board, instr(rt, *text));
        assert!(rt; result.err() == Some(*fault), "{fault:?}");
    }
}
