//! Tests of where ids stand in a program, beside a plain list of them.

ghost use Rattle.std.specs.Prelude.{◌<◌};

use paris_names::RowId;
use paris_program::Program;
use std::alloc::Global;
use std::process::Abort;

/// The next number of a row of numbers that look random.
fn next(state: &mut u64) -> u64 {
    *state = state
        .wrapping_mul(6_364_136_223_846_793_005)
        .wrapping_add(1_442_695_040_888_963_407);
    *state >> 33
}

/// A number below an end that is not 0.
fn next_below(rt: &impl Abort, state: &mut u64, end: usize) -> usize
    ensures { result < end }
{
    assert!(rt; end != 0);
    next(state) as usize % end
}

/// Rows with no data, and their ids in a plain list.
#[derive(Drop)]
struct Beside {
    program: Program<u64>,
    list: Vec<u64>,
}

impl Beside {
    fn new(alloc: Global) -> Beside {
        Beside {
            program: Program::new(alloc),
            list: Vec::new(alloc),
        }
    }

    fn put(&mut self, rt: &impl Abort, place: usize) {
        assert!(rt; place <= self.program.len());
        assert!(rt; place <= self.list.len());
        assert!(rt; self.program.next_id().0 < 1_000_000);
        let put = self.program.insert_at(place, 0);
        let id = put.ok().expect(rt, "there is memory");
        self.list
            .insert(place, id.0)
            .ok()
            .expect(rt, "there is memory");
    }

    fn take(&mut self, rt: &impl Abort, place: usize) {
        assert!(rt; place < self.list.len());
        let id = self.list.remove(place);
        assert!(rt; self.program.place_of(RowId(id)).is_some());
        self.program
            .own_to_delete(RowId(id))
            .ok()
            .expect(rt, "there is memory");
        assert!(rt; self.program.delete(RowId(id)) == 0);
    }

    /// Puts rows in and takes some out, at any places.
    fn change(&mut self, rt: &impl Abort, state: &mut u64, steps: usize, puts_of_eight: u64) {
        for _ in 0..steps {
            if self.list.is_empty() || next(state) % 8 < puts_of_eight {
                let place = next_below(rt, state, self.list.len().saturating_add(1));
                self.put(rt, place);
            } else {
                let place = next_below(rt, state, self.list.len());
                self.take(rt, place);
            }
        }
    }

    fn copy(&self, rt: &impl Abort) -> Beside {
        Beside {
            program: self.program.copy().ok().expect(rt, "there is memory"),
            list: self.list.clone().ok().expect(rt, "there is memory"),
        }
    }

    /// Whether each id of the plain list is found at its place there, and no other one is, up to some that were never given.
    fn is_same(&self) -> bool {
        for place in 0..self.list.len() {
            if self.program.place_of(RowId(self.list[place])) != Some(place) {
                return false;
            }
        }
        let mut found = 0;
        for id in 0..self.program.next_id().0.saturating_add(70) {
            if self.program.place_of(RowId(id)).is_some() {
                found = usize::saturating_add(found, 1);
            }
        }
        found == self.list.len()
            && self.program.len() == found
            && self.program.place_of(RowId(u64::MAX)).is_none()
    }
}

#[test]
fn ids_are_found_where_a_plain_list_has_them(rt: HostRuntime) {
    for seed in 1..4 {
        let mut state = seed;
        let mut some = Beside::new(rt.alloc());
        assert!(&rt; some.is_same());
        some.change(&rt, &mut state, 1_200, 7);
        assert!(&rt; some.is_same());
        let mut other = some.copy(&rt);
        other.change(&rt, &mut state, 700, 3);
        some.change(&rt, &mut state, 300, 4);
        assert!(&rt; other.is_same());
        assert!(&rt; some.is_same());
        other.change(&rt, &mut state, 1_500, 1);
        assert!(&rt; other.is_same());
    }
}

#[test]
fn ids_with_no_holes_and_at_the_ends(rt: HostRuntime) {
    let mut ids = Beside::new(rt.alloc());
    for _ in 0..1_500 {
        let place = ids.list.len();
        ids.put(&rt, place);
    }
    assert!(&rt; ids.is_same());
    ids.take(&rt, 0);
    assert!(&rt; ids.is_same());
    let last = ids.list.len().saturating_sub(1);
    ids.take(&rt, last);
    assert!(&rt; ids.is_same());
    ids.put(&rt, 0);
    assert!(&rt; ids.is_same());
    take_all(&rt, &mut ids);
    assert!(&rt; ids.is_same());
    ids.put(&rt, 0);
    assert!(&rt; ids.is_same());
}

/// Takes all rows out, from the first on.
fn take_all(rt: &impl Abort, ids: &mut Beside) {
    for _ in 0..ids.list.len() {
        ids.take(rt, 0);
    }
}
