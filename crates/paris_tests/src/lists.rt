//! Tests of a list in blocks: plain lists beside it, blocks that split and that go, and what copies share.

use paris_blocks::Blocks;
use std::alloc::Global;
use std::process::Abort;

/// A list in blocks, and its items in a plain list.
#[derive(Drop)]
struct Pair {
    list: Blocks<u64>,
    items: Vec<u64>,
}

impl Pair {
    fn new(alloc: Global) -> Pair {
        Pair {
            list: Blocks::new(alloc),
            items: Vec::new(alloc),
        }
    }

    /// The numbers from 0 on.
    fn counted(rt: &impl Abort, alloc: Global, count: usize) -> Pair {
        let mut pair = Pair::new(alloc);
        for place in 0..count {
            pair.insert(rt, place, place as u64);
        }
        pair
    }

    fn insert(&mut self, rt: &impl Abort, place: usize, item: u64) {
        assert!(rt; place <= self.list.len());
        assert!(rt; place <= self.items.len());
        assert!(rt; self.list.len() < 10_000);
        self.list.room(place).ok().expect(rt, "there is memory");
        self.list.insert(place, item);
        self.items
            .insert(place, item)
            .ok()
            .expect(rt, "there is memory");
    }

    fn write(&mut self, rt: &impl Abort, place: usize, item: u64) {
        assert!(rt; place < self.list.len());
        assert!(rt; place < self.items.len());
        self.list.own(place).ok().expect(rt, "there is memory");
        *self.list.at_mut(place) = item;
        self.items[place] = item;
    }

    fn remove(&mut self, rt: &impl Abort, place: usize) {
        assert!(rt; place < self.list.len());
        assert!(rt; place < self.items.len());
        self.list.own(place).ok().expect(rt, "there is memory");
        let item = self.list.remove(place);
        assert!(rt; self.items.remove(place) == item);
    }

    /// Shares what stands between two places, and gives a copy.
    fn copy(&mut self, rt: &impl Abort, start: usize, end: usize) -> Pair {
        self.list.share(start, end);
        Pair {
            list: self.list.copy().ok().expect(rt, "there is memory"),
            items: self.items.clone().ok().expect(rt, "there is memory"),
        }
    }

    /// Whether the list has just the items.
    fn is_same(&self) -> bool {
        if self.list.len() != self.items.len() {
            return false;
        }
        for (place, item) in self.items.iter().enumerate() {
            if place >= self.list.len() || self.list.at(place) != item {
                return false;
            }
        }
        true
    }
}

/// How many items there are, on both sides of the numbers at which blocks split.
const COUNTS: &[usize] = &[
    0, 1, 63, 64, 65, 127, 128, 129, 191, 192, 193, 256, 257, 300,
];

/// Places on both sides of those at which blocks begin.
const PLACES: &[usize] = &[0, 1, 63, 64, 65, 127, 128, 129, 192, 193, 256, 257, 300];

/// An item is put in at a place, written and taken out again.
fn changes_at(rt: &impl Abort, alloc: Global, count: usize, place: usize) {
    let mut pair = Pair::counted(rt, alloc, count);
    pair.insert(rt, place, 1_000);
    assert!(rt; pair.is_same(), "{count} {place}");
    pair.write(rt, place, 2_000);
    assert!(rt; pair.is_same(), "{count} {place}");
    pair.remove(rt, place);
    assert!(rt; pair.is_same(), "{count} {place}");
}

#[test]
fn items_are_changed_on_both_sides_of_each_block(rt: HostRuntime) {
    for count in COUNTS {
        for place in PLACES {
            if place <= count {
                changes_at(&rt, rt.alloc(), *count, *place);
            }
        }
    }
}

/// Where items are put in and taken out: so many of so many parts from the start.
const PARTS: &[(usize, usize)] = &[(0, 1), (1, 1), (1, 2), (1, 3), (2, 3)];

/// The place at some parts of so many items, at most the last.
fn place_at(len: usize, part: usize, parts: usize) -> usize {
    if parts == 0 || len > 10_000 || part > 10 {
        return 0;
    }
    len * part / parts
}

#[test]
fn a_list_grows_at_one_part_and_goes_at_another(rt: HostRuntime) {
    for (grown, parts) in PARTS {
        for (gone, others) in PARTS {
            let mut pair = Pair::new(rt.alloc());
            for item in 0..400 {
                let place = place_at(pair.items.len(), *grown, *parts);
                pair.insert(&rt, place, item);
            }
            assert!(&rt; pair.is_same());
            for _ in 0..400 {
                let last = pair.items.len().saturating_sub(1);
                pair.remove(&rt, place_at(last, *gone, *others));
            }
            assert!(&rt; pair.is_same());
            pair.insert(&rt, 0, 7);
            assert!(&rt; pair.is_same());
        }
    }
}

/// Changes a list at each third place, takes an item out and puts one in.
fn change(rt: &impl Abort, pair: &mut Pair, item: u64) {
    for place in 0..pair.items.len() {
        if place % 3 == 1 {
            pair.write(rt, place, item);
        }
    }
    pair.remove(rt, 100);
    pair.insert(rt, 200, item);
}

#[test]
fn copies_keep_what_each_other_changes(rt: HostRuntime) {
    let mut pair = Pair::counted(&rt, rt.alloc(), 400);
    let mut other = pair.copy(&rt, 0, 400);
    let mut third = other.copy(&rt, 100, 300);
    change(&rt, &mut other, 5_000);
    assert!(&rt; pair.is_same());
    assert!(&rt; third.is_same());
    change(&rt, &mut third, 6_000);
    change(&rt, &mut pair, 7_000);
    assert!(&rt; pair.is_same());
    assert!(&rt; other.is_same());
    assert!(&rt; third.is_same());
}

#[test]
fn a_copy_is_taken_out_of_and_the_list_stays(rt: HostRuntime) {
    let mut pair = Pair::counted(&rt, rt.alloc(), 300);
    let mut other = pair.copy(&rt, 0, 150);
    for _ in 0..300 {
        other.remove(&rt, 0);
    }
    assert!(&rt; other.is_same());
    assert!(&rt; pair.is_same());
}

/// An item that may be changed still may after a share of those behind it, and in a copy, with no memory.
#[test]
fn an_item_outside_what_is_shared_may_be_changed(rt: HostRuntime) {
    let mut pair = Pair::counted(&rt, rt.alloc(), 300);
    assert!(&rt; pair.list.len() == 300);
    pair.list.own(10).ok().expect(&rt, "there is memory");
    pair.list.share(11, 300);
    *pair.list.at_mut(10) = 8_000;
    let mut copy = pair.list.copy().ok().expect(&rt, "there is memory");
    *copy.at_mut(10) = 9_000;
    assert!(&rt; *copy.at(10) == 9_000);
    pair.write(&rt, 10, 8_000);
    assert!(&rt; pair.is_same());
}

/// The next number of a generator, below an end.
fn next_below(state: &mut u64, end: usize) -> usize {
    *state = state
        .wrapping_mul(6_364_136_223_846_793_005)
        .wrapping_add(1_442_695_040_888_963_407);
    if end == 0 {
        return 0;
    }
    (*state >> 33) as usize % end
}

/// A change that looks random: one of three is an insert, one a write, and one takes an item out.
fn change_at_random(rt: &impl Abort, pair: &mut Pair, state: &mut u64, item: u64) {
    let len = pair.items.len();
    match next_below(state, 3) {
        0 if len > 0 => pair.remove(rt, next_below(state, len)),
        1 if len > 0 => pair.write(rt, next_below(state, len), item),
        _ => pair.insert(rt, next_below(state, len.saturating_add(1)), item),
    }
}

#[test]
fn lists_and_copies_of_them_go_apart(rt: HostRuntime) {
    let mut state = 11;
    let mut pair = Pair::counted(&rt, rt.alloc(), 500);
    for _ in 0..40 {
        let start = next_below(&mut state, 500);
        let mut other = pair.copy(&rt, start, start.saturating_add(200));
        for item in 0..40 {
            change_at_random(&rt, &mut other, &mut state, item);
        }
        assert!(&rt; pair.is_same());
        for item in 40..80 {
            change_at_random(&rt, &mut pair, &mut state, item);
        }
        assert!(&rt; pair.is_same());
        assert!(&rt; other.is_same());
    }
}
