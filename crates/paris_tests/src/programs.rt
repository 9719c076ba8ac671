//! Tests of a program: steps as a table has them, and many rows in blocks that copies share.

use crate::programs::Step::*;
use paris_names::Spot::{After, End, Start};
use paris_names::{RowId, Spot};
use paris_program::Program;
use std::alloc::Global;
use std::process::Abort;

/// What is done with a program of numbers, as a table has it, and what must come of it. Rows are named by their ids.
enum Step {
    /// A row is put at a spot, and has this id.
    Puts(Spot, u64, u64),
    /// The row of this id is taken out, and had this number.
    Deletes(u64, u64),
    /// The row of this id gets another number, and had that one.
    Replaces(u64, u64, u64),
    /// The number at this place is raised by so much.
    RaisesAt(usize, u64),
    /// The number of the row of this id is raised by so much.
    Raises(u64, u64),
    /// The next row has this id.
    HasNext(u64),
    /// Just these rows are there, each with its id and its number.
    Has(&'static [(u64, u64)]),
    /// No row has this id.
    HasNo(u64),
}

fn put_after(rt: &impl Abort, program: &mut Program<u64>, above: RowId, row: u64) -> RowId {
    assert!(rt; program.next_id().0 < 100);
    assert!(rt; program.place_of(above).is_some());
    program
        .insert_after(above, row)
        .ok()
        .expect(rt, "there is memory")
}

/// Puts a row at a spot, and answers its id.
fn put(rt: &impl Abort, program: &mut Program<u64>, spot: Spot, row: u64) -> RowId {
    assert!(rt; program.next_id().0 < 100);
    match spot {
        Spot::Start => program.insert_start(row).ok().expect(rt, "there is memory"),
        Spot::After(above) => put_after(rt, program, above, row),
        Spot::End => program.insert_end(row).ok().expect(rt, "there is memory"),
    }
}

fn delete(rt: &impl Abort, program: &mut Program<u64>, id: u64) -> u64 {
    assert!(rt; program.place_of(RowId(id)).is_some());
    program
        .own_to_delete(RowId(id))
        .ok()
        .expect(rt, "there is memory");
    program.delete(RowId(id))
}

fn replace(rt: &impl Abort, program: &mut Program<u64>, id: u64, row: u64) -> u64 {
    assert!(rt; program.place_of(RowId(id)).is_some());
    program.own(RowId(id)).ok().expect(rt, "there is memory");
    program.replace(RowId(id), row)
}

fn raise_at(rt: &impl Abort, program: &mut Program<u64>, place: usize, number: u64) {
    assert!(rt; place < program.len());
    let (id, _) = program.at(place);
    program.own(id).ok().expect(rt, "there is memory");
    let row = program.at_mut(place);
    *row = row.saturating_add(number);
}

/// Raises the number of a row, and answers whether there is one of this id.
fn raise(rt: &impl Abort, program: &mut Program<u64>, id: u64, number: u64) -> bool {
    program.own(RowId(id)).ok().expect(rt, "there is memory");
    match program.row_mut(RowId(id)) {
        Some(row) => {
            *row = row.saturating_add(number);
            true
        }
        None => false,
    }
}

/// Whether no row has this id.
fn has_no(rt: &impl Abort, program: &mut Program<u64>, id: RowId) -> bool {
    program.own(id).ok().expect(rt, "there is memory");
    program.row(id).is_none() && program.place_of(id).is_none() && program.row_mut(id).is_none()
}

/// Whether the row of this id stands at this place and has this number.
fn has_row(program: &Program<u64>, place: usize, id: RowId, row: &u64) -> bool {
    place < program.len()
        && program.at(place).0 == id
        && program.place_of(id) == Some(place)
        && program.row(id) == Some(row)
}

/// Whether just these rows are there.
fn has_all(program: &Program<u64>, rows: &[(u64, u64)]) -> bool {
    if program.len() != rows.len() || program.is_empty() != rows.is_empty() {
        return false;
    }
    for (place, (id, row)) in rows.iter().enumerate() {
        if !has_row(program, place, RowId(*id), row) {
            return false;
        }
    }
    true
}

fn plays_step(rt: &impl Abort, program: &mut Program<u64>, step: &Step) {
    match *step {
        Step::Puts(spot, row, id) => assert!(rt; put(rt, program, spot, row) == RowId(id)),
        Step::Deletes(id, old) => assert!(rt; delete(rt, program, id) == old),
        Step::Replaces(id, row, old) => assert!(rt; replace(rt, program, id, row) == old),
        Step::RaisesAt(place, number) => raise_at(rt, program, place, number),
        Step::Raises(id, number) => assert!(rt; raise(rt, program, id, number)),
        Step::HasNext(id) => assert!(rt; program.next_id() == RowId(id)),
        Step::Has(rows) => assert!(rt; has_all(program, rows)),
        Step::HasNo(id) => assert!(rt; has_no(rt, program, RowId(id))),
    }
}

fn plays_all(rt: &impl Abort, program: &mut Program<u64>, steps: &[Step]) {
    for step in steps {
        plays_step(rt, program, step);
    }
}

/// Plays the steps of a beginning in a new program, and then further steps.
fn plays(rt: &impl Abort, alloc: Global, beginning: &[Step], steps: &[Step]) {
    let mut program = Program::new(alloc);
    plays_all(rt, &mut program, beginning);
    plays_all(rt, &mut program, steps);
}

/// Two rows put at the end.
const TWO_ROWS: &[Step] = &[Puts(End, 10, 1), Puts(End, 20, 2)];

/// Rows put at the end, at the end, at the start, and after the first that was put.
const FOUR_ROWS: &[Step] = &[
    Puts(End, 10, 1),
    Puts(End, 20, 2),
    Puts(Start, 30, 3),
    Puts(After(RowId(1)), 40, 4),
];

#[test]
fn a_new_program_has_no_rows(rt: HostRuntime) {
    let program: Program<u64> = Program::new(rt.alloc());
    assert!(rt; program.is_empty());
    assert!(rt; program.next_id() == RowId(1));
}

#[test]
fn rows_go_where_they_are_put(rt: HostRuntime) {
    const STEPS: &[Step] = &[Has(&[(3, 30), (1, 10), (4, 40), (2, 20)]), HasNext(5)];
    plays(&rt, rt.alloc(), FOUR_ROWS, STEPS);
}

#[test]
fn an_id_is_never_given_again(rt: HostRuntime) {
    const STEPS: &[Step] = &[
        Puts(End, 10, 1),
        Deletes(1, 10),
        Has(&[]),
        Puts(End, 20, 2),
        HasNo(1),
    ];
    plays(&rt, rt.alloc(), &[], STEPS);
}

#[test]
fn a_row_that_is_replaced_is_handed_out(rt: HostRuntime) {
    const STEPS: &[Step] = &[Replaces(1, 11, 10), Has(&[(1, 11), (2, 20)])];
    plays(&rt, rt.alloc(), TWO_ROWS, STEPS);
}

#[test]
fn a_row_that_is_not_there_is_not_found(rt: HostRuntime) {
    const STEPS: &[Step] = &[HasNo(0), HasNo(5), HasNo(u64::MAX)];
    plays(&rt, rt.alloc(), FOUR_ROWS, STEPS);
}

#[test]
fn a_row_is_changed_in_place(rt: HostRuntime) {
    const STEPS: &[Step] = &[RaisesAt(1, 1), Raises(1, 2), Has(&[(1, 12), (2, 21)])];
    plays(&rt, rt.alloc(), TWO_ROWS, STEPS);
}

#[test]
fn room_is_made_for_a_row(rt: HostRuntime) {
    let mut program: Program<u64> = Program::new(rt.alloc());
    program.room(0).ok().expect(&rt, "there is memory");
    assert!(rt; program.is_empty());
    let id = program.put_at(0, 10);
    assert!(rt; id == RowId(1));
}

/// Many rows, and the same in a plain list, each with its id and its number.
#[derive(Drop)]
struct Many {
    program: Program<u64>,
    rows: Vec<(u64, u64)>,
}

impl Many {
    fn new(alloc: Global) -> Many {
        Many {
            program: Program::new(alloc),
            rows: Vec::new(alloc),
        }
    }

    fn insert(&mut self, rt: &impl Abort, place: usize, row: u64) {
        assert!(rt; place <= self.program.len());
        assert!(rt; place <= self.rows.len());
        assert!(rt; self.program.next_id().0 < 10_000);
        let put = self.program.insert_at(place, row);
        let id = put.ok().expect(rt, "there is memory");
        self.rows
            .insert(place, (id.0, row))
            .ok()
            .expect(rt, "there is memory");
    }

    fn replace(&mut self, rt: &impl Abort, place: usize, row: u64) {
        assert!(rt; place < self.rows.len());
        let (id, old) = self.rows[place];
        assert!(rt; replace(rt, &mut self.program, id, row) == old);
        self.rows[place] = (id, row);
    }

    fn delete(&mut self, rt: &impl Abort, place: usize) {
        assert!(rt; place < self.rows.len());
        let (id, old) = self.rows.remove(place);
        assert!(rt; delete(rt, &mut self.program, id) == old);
    }

    /// Shares what stands between two places, and gives a copy.
    fn copy(&mut self, rt: &impl Abort, start: usize, end: usize) -> Many {
        self.program.share(start, end);
        Many {
            program: self.program.copy().ok().expect(rt, "there is memory"),
            rows: self.rows.clone().ok().expect(rt, "there is memory"),
        }
    }

    /// Changes rows in all parts of the program: each third is replaced, and each seventh is deleted and put in again.
    fn change(&mut self, rt: &impl Abort, row: u64) {
        for place in 0..self.rows.len() {
            if place % 3 == 1 {
                self.replace(rt, place, row);
            } else if place % 7 == 6 {
                self.delete(rt, place);
                self.insert(rt, place / 2, row);
            }
        }
    }

    fn is_same(&self) -> bool {
        has_all(&self.program, self.rows.as_slice())
    }
}

#[test]
fn many_rows_go_apart_from_those_of_copies(rt: HostRuntime) {
    let mut many = Many::new(rt.alloc());
    for row in 0..300 {
        let place = many.rows.len() / 3;
        many.insert(&rt, place, row);
    }
    assert!(&rt; many.is_same());
    let mut other = many.copy(&rt, 0, 300);
    let third = other.copy(&rt, 50, 200);
    other.change(&rt, 5_000);
    assert!(&rt; other.is_same());
    assert!(&rt; many.is_same());
    many.change(&rt, 6_000);
    assert!(&rt; many.is_same());
    assert!(&rt; other.is_same());
    assert!(&rt; third.is_same());
}
