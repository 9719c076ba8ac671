//! Tests of the index of writers and readers, of origins, and of the rows that a change affects.

ghost use Rattle.std.specs.Prelude.{◌≡◌, ◌<◌};
ghost use Rattle.paris_depends.specs.Index.{footprints};

use crate::common::Place::{Field, Flag};
use crate::common::*;
use paris_board::Board;
use paris_depends::{Index, Looks, affected, origin};
use paris_instr::{Plan, SharedPlan};
use paris_names::FlagName::{Context, Test};
use paris_names::{Key, RowId, has_key};
use paris_program::Program;
use std::alloc::{AllocError, Global};
use std::process::Abort;

/// A plan as the data of a row.
#[derive(Drop)]
struct Planned {
    plan: Plan,
}

impl Clone for Planned {
    ghost is_clone = { λ row copy. copy ≡ row };

    fn clone(&self) -> Result<Planned, AllocError> {
        let plan = self.plan.copy()?;
        Ok(Planned { plan })
    }
}

/// Rows of plans, with an index of them.
#[derive(Drop)]
struct Rows {
    alloc: Global,
    program: Program<Planned>,
    index: Index,
    ghost indexed: { footprints (λ r. r.plan) program.rows ≡ index.rows },
}

impl Rows {
    fn new(alloc: Global) -> Rows {
        Rows {
            alloc,
            program: Program::new(alloc),
            index: Index::new(alloc),
        }
    }

    fn len(&self) -> usize {
        self.program.len()
    }

    /// The id of the row at a place.
    fn id_at(&self, rt: &impl Abort, place: usize) -> RowId {
        assert!(rt; place < self.program.len());
        self.program.at(place).0
    }

    /// Puts a plan at a place.
    fn put(&mut self, rt: &impl Abort, place: usize, plan: &Plan) -> RowId {
        assert!(rt; place <= self.program.len());
        assert!(rt; self.program.next_id().0 < 10000);
        let copy = plan.copy().ok().expect(rt, "there is memory");
        let other = plan.copy().ok().expect(rt, "there is memory");
        let shared = SharedPlan::new(self.alloc, other)
            .ok()
            .expect(rt, "there is memory");
        self.index
            .room(place, plan)
            .ok()
            .expect(rt, "there is memory");
        let id = self
            .program
            .insert_at(place, Planned { plan: copy })
            .ok()
            .expect(rt, "there is memory");
        self.index.add(&self.program, id, shared);
        id
    }

    /// Takes a row out.
    fn delete(&mut self, rt: &impl Abort, id: RowId) {
        assert!(rt; self.program.place_of(id).is_some());
        self.index
            .own(&self.program, id)
            .ok()
            .expect(rt, "there is memory");
        self.program
            .own_to_delete(id)
            .ok()
            .expect(rt, "there is memory");
        self.index.remove(&self.program, id);
        drop(self.program.delete(id));
    }

    /// The same rows once more, which have all that can be shared in common with these.
    fn copy(&mut self, rt: &impl Abort) -> Rows {
        self.index.share();
        Rows {
            alloc: self.alloc,
            program: self.program.copy().ok().expect(rt, "there is memory"),
            index: self.index.copy().ok().expect(rt, "there is memory"),
        }
    }

    /// The rows from a place on that a change of keys affects. They are found by no more looks than are promised.
    fn affected(&self, rt: &impl Abort, alloc: Global, place: usize, keys: &[Key]) -> Vec<RowId> {
        assert!(rt; self.program.len() <= 4096);
        assert!(rt; keys.len() <= 128);
        assert!(rt; place <= self.program.len());
        let mut looks = Looks::new();
        let ids = affected(alloc, &self.program, &self.index, place, keys, &mut looks)
            .ok()
            .expect(rt, "there is memory");
        let listed = ids.len() as u64;
        let reaches = listed.saturating_mul(3).saturating_add(keys.len() as u64);
        assert!(rt; looks.count() <= reaches.saturating_mul(listed.saturating_add(32)));
        ids
    }

    /// The row that the value of a key comes from, before a place. It is found by at most 13 looks.
    fn origin(&self, rt: &impl Abort, place: usize, key: Key) -> Option<RowId> {
        assert!(rt; place <= self.program.len());
        let mut looks = Looks::new();
        let id = origin(&self.program, &self.index, place, key, &mut looks);
        assert!(rt; looks.count() <= 13);
        id
    }

    /// The id of a writer of a key, and that it takes one look.
    fn writer(&self, rt: &impl Abort, key: &Key, i: usize) -> RowId {
        let mut looks = Looks::new();
        let count = self.index.writers(*key);
        assert!(rt; i < count);
        let id = self.index.writer(*key, i, &mut looks);
        assert!(rt; looks.count() == 1);
        id
    }

    /// The id of a reader of a key, and that it takes one look.
    fn reader(&self, rt: &impl Abort, key: &Key, i: usize) -> RowId {
        let mut looks = Looks::new();
        let count = self.index.readers(*key);
        assert!(rt; i < count);
        let id = self.index.reader(*key, i, &mut looks);
        assert!(rt; looks.count() == 1);
        id
    }

    /// How many keys a row writes.
    fn key_count(&self, rt: &impl Abort, id: RowId) -> usize {
        assert!(rt; self.program.place_of(id).is_some());
        self.index.keys(&self.program, id)
    }

    /// A key that a row writes, and that it takes one look.
    fn key(&self, rt: &impl Abort, id: RowId, i: usize) -> Key {
        assert!(rt; self.program.place_of(id).is_some());
        assert!(rt; i < self.index.keys(&self.program, id));
        let mut looks = Looks::new();
        let key = self.index.key(&self.program, id, i, &mut looks);
        assert!(rt; looks.count() == 1);
        key
    }
}

/// The set `s` of 4 processors with the fields `a` to `e` of 8 bits, which have the numbers 0 to 4.
fn board(rt: &impl Abort, alloc: Global) -> Board {
    let sets: [SetGiven<'_>; 1] = [(b"s", &[4])];
    let fields: [FieldGiven<'_>; 5] = [
        (b"a", b"s", 8),
        (b"b", b"s", 8),
        (b"c", b"s", 8),
        (b"d", b"s", 8),
        (b"e", b"s", 8),
    ];
    board_of(rt, alloc, &sets, &fields)
}

/// Puts the plans of instructions at the end, one after another.
fn put_all(rt: &impl Abort, alloc: Global, rows: &mut Rows, texts: &[Text]) {
    let board = board(rt, alloc);
    for text in texts {
        let plan = plan_on(rt, alloc, &board, *text);
        let end = rows.len();
        let _id = rows.put(rt, end, &plan);
    }
}

/// `b` from `a`, the row 5, which comes first.
const FIFTH: Text = b"u-move-1L b a 8";

/// The rows 1, 2, 3 and 4: `c` from `b`, `e` from `d`, `b` from `d` in every processor, and `d` from `b`.
const FOUR: &[Text] = &[
    b"u-move-1L c b 8",
    b"u-move-1L e d 8",
    b"u-move-always-1L b d 8",
    b"u-move-1L d b 8",
];

/// The same rows, of which the third moves only the low bits of `d`.
const FOUR_WITH_LOW_BITS: &[Text] = &[
    b"u-move-1L c b 8",
    b"u-move-1L e d 8",
    b"u-move-always-1L b d 7",
    b"u-move-1L d b 8",
];

/// The rows 5, 1, 2, 3 and 4.
fn five_rows(rt: &impl Abort, alloc: Global, four: &[Text]) -> Rows {
    let mut rows = Rows::new(alloc);
    put_all(rt, alloc, &mut rows, four);
    let fifth = plan_on(rt, alloc, &board(rt, alloc), FIFTH);
    assert!(rt; rows.put(rt, 0, &fifth) == RowId(5));
    rows
}

/// Whether these are the ids.
fn are_ids(ids: &[RowId], numbers: &[u64]) -> bool {
    ids.len() == numbers.len() && ids.iter().zip(numbers).all(|(id, number)| id.0 == *number)
}

/// A change, as a table has it: its place, the keys that change there, and the ids of the rows that it affects.
type Change = (usize, &'static [Place], &'static [u64]);

/// Changes of five rows affect the rows that they list.
fn are_listed(rt: &impl Abort, alloc: Global, four: &[Text], changes: &[Change]) {
    let rows = five_rows(rt, alloc, four);
    for (place, changed, listed) in changes {
        let keys = keys(rt, alloc, *changed);
        let ids = rows.affected(rt, alloc, *place, keys.as_slice());
        assert!(rt; are_ids(ids.as_slice(), *listed));
    }
}

#[test]
fn a_change_lists_its_readers_and_what_they_feed(rt: HostRuntime) {
    const CHANGES: &[Change] = &[
        (0, &[Field(0)], &[5, 1]),
        (0, &[Field(1)], &[5, 1]),
        (0, &[Field(3)], &[2, 3, 4]),
        (0, &[Flag(0, Context)], &[5, 1, 2, 4]),
    ];
    are_listed(&rt, rt.alloc(), FOUR, CHANGES);
}

#[test]
fn a_key_that_is_overwritten_wholly_stops_the_change(rt: HostRuntime) {
    const CHANGES: &[Change] = &[(0, &[Field(0)], &[5, 1, 3, 4])];
    are_listed(&rt, rt.alloc(), FOUR_WITH_LOW_BITS, CHANGES);
}

#[test]
fn a_change_is_of_the_rows_from_its_place_on(rt: HostRuntime) {
    const CHANGES: &[Change] = &[
        (1, &[Field(1)], &[1]),
        (2, &[Field(1)], &[]),
        (4, &[Field(1)], &[4]),
        (5, &[Field(1)], &[]),
    ];
    are_listed(&rt, rt.alloc(), FOUR, CHANGES);
}

#[test]
fn several_keys_change_at_once(rt: HostRuntime) {
    const CHANGES: &[Change] = &[(1, &[Field(2), Field(4)], &[1, 2]), (0, &[], &[])];
    are_listed(&rt, rt.alloc(), FOUR, CHANGES);
}

#[test]
fn the_origin_is_the_last_writer_before_the_place(rt: HostRuntime) {
    const CASES: &[(usize, Place, Option<RowId>)] = &[
        (0, Field(1), None),
        (1, Field(1), Some(RowId(5))),
        (3, Field(1), Some(RowId(5))),
        (4, Field(1), Some(RowId(3))),
        (5, Field(1), Some(RowId(3))),
        (4, Field(3), None),
        (5, Field(3), Some(RowId(4))),
        (5, Field(0), None),
    ];
    let rows = five_rows(&rt, rt.alloc(), FOUR);
    for (place, written, id) in CASES {
        assert!(rt; rows.origin(&rt, *place, key(&rt, *written)) == *id);
    }
}

/// Just these rows write a key, in program order, and just these read it.
fn has_lists(rt: &impl Abort, rows: &Rows, key: &Key, writers: &[u64], readers: &[u64]) {
    assert!(rt; rows.index.writers(*key) == writers.len());
    assert!(rt; rows.index.readers(*key) == readers.len());
    for (i, id) in writers.iter().enumerate() {
        assert!(rt; rows.writer(rt, key, i) == RowId(*id));
    }
    for (i, id) in readers.iter().enumerate() {
        assert!(rt; rows.reader(rt, key, i) == RowId(*id));
    }
}

#[test]
fn an_index_has_the_writers_and_readers_in_program_order(rt: HostRuntime) {
    let alloc = rt.alloc();
    let board = board(&rt, alloc);
    let mut rows = Rows::new(alloc);
    put_all(
        &rt,
        alloc,
        &mut rows,
        &[b"u-move-1L c a 8", b"u-move-1L d c 8"],
    );
    let third = rows.put(&rt, 1, &plan_on(&rt, alloc, &board, b"u-move-1L c b 8"));
    let c = key(&rt, Field(2));
    has_lists(&rt, &rows, &c, &[1, 3], &[1, 3, 2]);
    assert!(rt; rows.key_count(&rt, third) == 1);
    assert!(rt; rows.key(&rt, third, 0) == c);
    let ids = rows.affected(&rt, alloc, 0, &[key(&rt, Field(1))]);
    assert!(rt; are_ids(ids.as_slice(), &[3, 2]));
    assert!(rt; rows.origin(&rt, 2, c) == Some(third));
    rows.delete(&rt, third);
    has_lists(&rt, &rows, &c, &[1], &[1, 2]);
    assert!(rt; rows.origin(&rt, 1, c) == Some(RowId(1)));
}

/// Three rows that write `c` and read it or `a`, under the ids 1, 2 and 3.
fn three_rows(rt: &impl Abort, alloc: Global) -> Rows {
    let mut rows = Rows::new(alloc);
    put_all(
        rt,
        alloc,
        &mut rows,
        &[
            b"u-move-1L c a 8",
            b"u-move-1L d c 8",
            b"u-move-always-1L c a 8",
        ],
    );
    rows
}

/// Takes the first row out, and puts one in before the others.
fn change(rt: &impl Abort, alloc: Global, rows: &mut Rows) {
    let board = board(rt, alloc);
    rows.delete(rt, RowId(1));
    let _id = rows.put(rt, 0, &plan_on(rt, alloc, &board, b"u-move-1L d c 8"));
}

/// The lists of `c` and `d` are those of the three rows.
fn are_as_before(rt: &impl Abort, rows: &Rows) {
    has_lists(rt, rows, &key(rt, Field(2)), &[1, 3], &[1, 2]);
    has_lists(rt, rows, &key(rt, Field(3)), &[2], &[2]);
}

/// The lists of `c` and `d` are those after the change.
fn are_changed(rt: &impl Abort, rows: &Rows) {
    has_lists(rt, rows, &key(rt, Field(2)), &[3], &[4, 2]);
    has_lists(rt, rows, &key(rt, Field(3)), &[4, 2], &[4, 2]);
}

#[test]
fn a_copy_stays_while_the_first_changes(rt: HostRuntime) {
    let alloc = rt.alloc();
    let mut rows = three_rows(&rt, alloc);
    are_as_before(&rt, &rows);
    let copy = rows.copy(&rt);
    change(&rt, alloc, &mut rows);
    are_changed(&rt, &rows);
    are_as_before(&rt, &copy);
}

#[test]
fn the_first_stays_while_a_copy_changes(rt: HostRuntime) {
    let alloc = rt.alloc();
    let mut rows = three_rows(&rt, alloc);
    let mut copy = rows.copy(&rt);
    change(&rt, alloc, &mut copy);
    are_changed(&rt, &copy);
    are_as_before(&rt, &rows);
    change(&rt, alloc, &mut rows);
    are_changed(&rt, &rows);
}

#[test]
fn the_last_of_4096_rows_is_found_by_few_looks(rt: HostRuntime) {
    let alloc = rt.alloc();
    let plan = plan_on(&rt, alloc, &board(&rt, alloc), b"set-test s");
    let mut rows = Rows::new(alloc);
    for _ in 0..4096 {
        let end = rows.len();
        let _id = rows.put(&rt, end, &plan);
    }
    let changed = keys(&rt, alloc, &[Flag(0, Test)]);
    let ids = rows.affected(&rt, alloc, 4095, changed.as_slice());
    assert!(rt; are_ids(ids.as_slice(), &[4096]));
    assert!(rt; rows.origin(&rt, 4095, key(&rt, Flag(0, Test))) == Some(RowId(4095)));
}

/// Instructions of which games make their programs.
const INSTRUCTIONS: &[Text] = &[
    b"u-move-1L a b 8",
    b"u-move-1L b a 8",
    b"u-move-1L c a 8",
    b"u-move-1L d c 8",
    b"u-add-3-1L a b c 8",
    b"u-add-3-1L b c d 8",
    b"u-move-always-1L a d 8",
    b"u-move-always-1L b c 8",
    b"u-move-always-1L c b 7",
    b"set-test s",
    b"clear-test s",
];

/// The next number of a generator.
fn next(state: &mut u64) -> u64 {
    *state = state
        .wrapping_mul(6364136223846793005)
        .wrapping_add(1442695040888963407);
    *state >> 33
}

/// A number below an end that is not 0.
fn next_below(rt: &impl Abort, state: &mut u64, end: usize) -> usize
    ensures { result < end }
{
    assert!(rt; end != 0);
    next(state) as usize % end
}

/// The ids of the rows that a change of keys affects, by one sweep over all rows from a place on.
fn swept(rt: &impl Abort, alloc: Global, rows: &Rows, place: usize, keys: &[Key]) -> Vec<RowId> {
    let mut ids = Vec::new(alloc);
    let mut changed = [false; 128];
    for key in keys {
        changed[key.slot()] = true;
    }
    for i in place..rows.program.len() {
        let (id, row) = rows.program.at(i);
        let mut hit = false;
        for key in row.plan.reads() {
            hit = hit || changed[key.slot()];
        }
        for key in row.plan.writes() {
            changed[key.slot()] = hit;
        }
        if hit {
            ids.push(id).ok().expect(rt, "there is memory");
        }
    }
    ids
}

/// The last row before a place that writes a key, by a look at all rows before it.
fn last_writer(rt: &impl Abort, rows: &Rows, place: usize, key: &Key) -> Option<RowId> {
    let mut last = None;
    assert!(rt; place <= rows.program.len());
    for i in 0..place {
        let (id, row) = rows.program.at(i);
        if has_key(row.plan.writes(), *key) {
            last = Some(id);
        }
    }
    last
}

/// A program to which rows are added at any place, and from which some are deleted.
fn random_rows(rt: &impl Abort, alloc: Global, state: &mut u64) -> Rows {
    let board = board(rt, alloc);
    let mut rows = Rows::new(alloc);
    for _ in 0..30 {
        let text = INSTRUCTIONS[next_below(rt, state, INSTRUCTIONS.len())];
        let plan = plan_on(rt, alloc, &board, text);
        let place = next_below(rt, state, rows.len().saturating_add(1));
        let _id = rows.put(rt, place, &plan);
        if next_below(rt, state, 4) == 0 {
            let gone = next_below(rt, state, rows.len());
            let id = rows.id_at(rt, gone);
            rows.delete(rt, id);
        }
    }
    rows
}

/// At each place a change of two keys affects the rows that a sweep lists, and the origin is the last writer.
fn finds_all(rt: &impl Abort, alloc: Global, rows: &Rows, state: &mut u64) {
    for place in 0..rows.len() {
        let first = Field(next(state) % 5);
        let changed = keys(rt, alloc, &[first, Field(next(state) % 5)]);
        let ids = rows.affected(rt, alloc, place, changed.as_slice());
        let all = swept(rt, alloc, rows, place, changed.as_slice());
        assert!(rt; ids.as_slice() == all.as_slice());
        let key = key(rt, first);
        assert!(rt; rows.origin(rt, place, key) == last_writer(rt, rows, place, &key));
    }
}

#[test]
fn an_index_finds_what_a_sweep_does(rt: HostRuntime) {
    let mut state = 7;
    for _ in 0..40 {
        let rows = random_rows(&rt, rt.alloc(), &mut state);
        finds_all(&rt, rt.alloc(), &rows, &mut state);
    }
}
