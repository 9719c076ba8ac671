//! Where rows stand, by place.

ghost use Rattle.std.specs.Prelude.{◌≡◌, ℕ, true, cond, ◌<◌, ◌≤◌, ◌+◌, [], length, set, insert, remove, slice_get, None, Some, IfOk, OnErr, OnOk};
ghost use Rattle.paris_edits.specs.declared.rows.Status.{Status as AnyStatus};
ghost use Rattle.std.specs.List.{count_by};
ghost use Rattle.paris_names.specs.declared.limits.TheConstants.{MAX_ROWS};
ghost use Rattle.paris_book.specs.Statuses.{IsInSpan, is_unsettled, first_unsettled as first_from};

use paris_edits::Status;
use std::alloc::{AllocError, Global};
use std::marker::Model;

/// How many rows are unsettled, and a span of places, from `start` to before `end`, outside which no row is.
#[derive(Clone, Copy, Debug)]
struct Span {
    unsettled: usize,
    start: usize,
    end: usize,
}

impl Span {
    /// The span with the row at a place, which it counts no row at.
    fn with(self, place: usize, status: Status) -> Span
        requires few { self.unsettled < MAX_ROWS }
        requires there { place < MAX_ROWS }
        ensures count { result.unsettled ≡ self.unsettled + cond (is_unsettled status) 1 0 }
        ensures place { is_unsettled status ≡ true → IsInSpan result place }
        ensures others { (i : ℕ) → 0 < self.unsettled → IsInSpan self i → IsInSpan result i }
        ensures end { (n : ℕ) → self.end ≤ n → place < n → result.end ≤ n }
    {
        if status.is_settled() {
            return self;
        }
        let unsettled = self.unsettled + 1;
        if self.unsettled == 0 {
            return Span {
                unsettled,
                start: place,
                end: place + 1,
            };
        }
        Span {
            unsettled,
            start: self.start.min(place),
            end: self.end.max(place + 1),
        }
    }

    /// The span without the row at a place, which it counts.
    fn without(self, place: usize, status: Status) -> Span
        requires some { is_unsettled status ≡ true → 0 < self.unsettled }
        requires there { place < MAX_ROWS }
        ensures count { result.unsettled + cond (is_unsettled status) 1 0 ≡ self.unsettled }
        ensures others { (i : ℕ) → (i ≡ place → ⊥) → IsInSpan self i → IsInSpan result i }
        ensures end { result.end ≤ self.end }
    {
        if status.is_settled() {
            return self;
        }
        let start = if self.start == place {
            place + 1
        } else {
            self.start
        };
        let end = if self.end == place + 1 {
            place
        } else {
            self.end
        };
        Span {
            unsettled: self.unsettled - 1,
            start,
            end,
        }
    }

    /// The span after a row was put in at a place, where it counts no row at that place.
    fn opened(self, place: usize) -> Span
        requires { self.end ≤ MAX_ROWS }
        ensures count { result.unsettled ≡ self.unsettled }
        ensures before { (i : ℕ) → i < place → IsInSpan self i → IsInSpan result i }
        ensures behind { (i : ℕ) → place ≤ i → IsInSpan self i → IsInSpan result (i + 1) }
        ensures end { result.end ≤ self.end + 1 }
    {
        let end = if place < self.end {
            self.end + 1
        } else {
            self.end
        };
        Span {
            unsettled: self.unsettled,
            start: self.start,
            end,
        }
    }

    /// The span after the row at a place was taken out, where it counts no row at that place.
    fn closed(self, place: usize) -> Span
        ensures count { result.unsettled ≡ self.unsettled }
        ensures before { (i : ℕ) → i < place → IsInSpan self i → IsInSpan result i }
        ensures behind { (i : ℕ) → place ≤ i → IsInSpan self (i + 1) → IsInSpan result i }
        ensures end { (n : ℕ) → self.end ≤ n + 1 → place ≤ n → result.end ≤ n }
    {
        let start = if place < self.start {
            self.start - 1
        } else {
            self.start
        };
        let end = if place < self.end {
            self.end - 1
        } else {
            self.end
        };
        Span {
            unsettled: self.unsettled,
            start,
            end,
        }
    }
}

/// The first place from `start` on where an unsettled row's status stands. `None` where there is none. There is none from `end` on.
fn first_between(statuses: &[Status], start: usize, end: usize) -> Option<usize>
    requires within { end ≤ length statuses.now }
    requires past { (place : ℕ) → end ≤ place → first_from statuses.now place ≡ None }
    ensures { result ≡ first_from statuses.now start }
{
    for place in start..end {
        if !statuses[place].is_settled() {
            return Some(place);
        }
    }
    None
}

/// Where rows stand, by place: a byte for each row. A count of the unsettled ones takes one step, and a search for them reads no
/// more than the span in which they stand.
#[derive(Drop)]
pub(crate) struct Statuses {
    list: Vec<Status>,
    span: Span,
}

impl Model for Statuses {
    ghost use Rattle.std.specs.Prelude.{List};
    ghost use Rattle.paris_edits.specs.declared.rows.Status.{Status};
    ghost use Rattle.paris_book.specs.Statuses.{IsSpanned};

    ghost Value = { List Status };

    ghost view = { λ s. s.list.items };

    ghost invariant = { λ s. IsSpanned s.list.items s.span };
}

impl Statuses {
    /// Of no row. It takes no memory until the first insert.
    pub(crate) fn new(alloc: Global) -> Statuses
        ensures { result ≡ [] }
    {
        Statuses {
            list: Vec::new(alloc),
            span: Span {
                unsettled: 0,
                start: 0,
                end: 0,
            },
        }
    }

    /// The same statuses once more.
    pub(crate) fn copy(&self) -> Result<Statuses, AllocError>
        ensures { IfOk result (λ copy. copy ≡ self.now) }
    {
        let list = self.list.clone()?;
        Ok(Statuses {
            list,
            span: self.span,
        })
    }

    /// How many are an unsettled row's.
    pub(crate) fn count_unsettled(&self) -> usize
        ensures { result ≡ count_by is_unsettled self.now }
    {
        self.span.unsettled
    }

    /// The first place from one on where an unsettled row's status stands. `None` where there is none.
    pub(crate) fn first_unsettled(&self, from: usize) -> Option<usize>
        ensures { result ≡ first_from self.now from }
    {
        if self.span.unsettled == 0 {
            return None;
        }
        let start = from.max(self.span.start);
        first_between(self.list.as_slice(), start, self.span.end)
    }

    /// The place where the unsettled rows begin, and the place behind them.
    pub(crate) fn ends(&self) -> (usize, usize)
        ensures { (i : ℕ) (s : AnyStatus) → slice_get self.now i ≡ Some s → is_unsettled s ≡ true → (result.0 ≤ i) × (i < result.1) }
    {
        if self.span.unsettled == 0 {
            return (0, 0);
        }
        (self.span.start, self.span.end)
    }

    /// Puts another status at a place.
    pub(crate) fn set(&mut self, place: usize, status: Status)
        requires { place < length self.old }
        ensures { self.new ≡ set self.old place status }
    {
        let before = self.list[place];
        self.list[place] = status;
        self.span = self.span.without(place, before).with(place, status);
    }

    /// Puts a status in at a place, before those that stand there. Where memory is refused nothing has changed.
    pub(crate) fn insert(&mut self, place: usize, status: Status) -> Result<(), AllocError>
        requires there { place ≤ length self.old }
        requires few { length self.old < MAX_ROWS }
        ensures ok { OnOk result (self.new ≡ insert self.old place status) }
        ensures err { OnErr result (self.new ≡ self.old) }
    {
        self.list.insert(place, status)?;
        self.span = self.span.opened(place).with(place, status);
        Ok(())
    }

    /// Takes the status at a place out.
    pub(crate) fn remove(&mut self, place: usize)
        requires { place < length self.old }
        ensures { self.new ≡ remove self.old place }
    {
        let status = self.list.remove(place);
        self.span = self.span.without(place, status).closed(place);
    }
}
