// A walk over the strips of a row.
ghost use Rattle.std.specs.Prelude.{◌≡◌};
ghost use Rattle.std.specs.Iterator.{YieldsFirstBy, item_count};
ghost use Rattle.series.specs.Series.{series_of};
ghost use Rattle.bands.specs.loops.Walks.{standing, strips_left};

use series::strip_at;

// A strip of a row: the index of its first word, and its words.
#[derive(Clone, Copy)]
pub(crate) struct Strip<'a> {
    pub(crate) start: usize,
    pub(crate) words: &'a [u32],
}

// The strips of a row, each behind the one before: the row, and the index where the next one begins.
#[derive(Clone, Copy)]
pub(crate) struct Strips<'a> {
    row: &'a [u32],
    next: usize,
}

impl<'a> Strips<'a> {
    pub(crate) fn of(row: &'a [u32]) -> Strips<'a>
        ensures { strips_left result ≡ series_of row.now }
    {
        Strips { row, next: 0 }
    }
}

impl<'a> Iterator for Strips<'a> {
    type Item = Strip<'a>;

    ghost next_gives = { YieldsFirstBy standing strips_left };

    ghost remaining = { item_count strips_left };

    fn next(&mut self) -> Option<Strip<'a>> {
        if self.next < self.row.len() {
            let start = self.next;
            let words = strip_at(self.row, start);
            self.next += words.len();
            Some(Strip { start, words })
        } else {
            None
        }
    }
}
