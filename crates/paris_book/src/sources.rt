//! Where the values came from by which a row was settled last. What one source names is one value, as long as a book lasts.

ghost use Rattle.std.specs.Prelude.{◌≡◌, slice_set, true};
ghost use Rattle.paris_book.specs.SourceLists.{IsKnownAt, no_sources, same_source};

use paris_names::{Edition, RowId};

/// Where the value of a key came from: the input data that the edit of a number gave, or the result of the order that the row of an
/// id gave in an edition.
#[derive(Clone, Copy, Debug)]
pub(crate) enum Source {
    Unknown,
    Input(u64),
    Row(RowId, Edition),
}

impl Source {
    /// Whether two sources are known and the same.
    fn is_same(self, other: Source) -> bool
        ensures { result ≡ same_source self other }
    {
        match (self, other) {
            (Source::Input(number), Source::Input(other)) => number == other,
            (Source::Row(id, edition), Source::Row(other_id, other_edition)) => {
                id.0 == other_id.0 && edition.0 == other_edition.0
            }
            _ => false,
        }
    }
}

/// The sources of the first eight keys that a plan reads, in order. That of any further key counts as unknown.
#[derive(Clone, Copy, Debug)]
pub(crate) struct Sources {
    keys: [Source; 8],
}

impl Sources {
    /// No source is known.
    pub(crate) fn none() -> Sources
        ensures { result.keys ≡ no_sources }
    {
        Sources {
            keys: [Source::Unknown; 8],
        }
    }

    /// Notes the source of the key of a number, counted from 0, if there is room for it.
    pub(crate) fn put(&mut self, key: usize, source: Source)
        ensures { self.new.keys ≡ slice_set self.old.keys key source }
    {
        if key < 8 {
            self.keys[key] = source;
        }
    }

    /// Whether the source of the key of a number is known, and is this one.
    pub(crate) fn is_known_at(&self, key: usize, source: Source) -> bool
        ensures { result ≡ true → IsKnownAt self.now.keys key source }
    {
        key < 8 && self.keys[key].is_same(source)
    }
}
