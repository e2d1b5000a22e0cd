// A finished round to be read: the rules, the words, and the table that it left.
ghost use Rattle.std.specs.Prelude.{◌≡◌, ◌+◌, ◌<◌, ◌≤◌, length};
ghost use Rattle.chart.specs.Limits.{most_words};

use chart::Chart;
use derivation::Rules;
use scale::Scale;
use table::Table;

#[derive(Drop)]
pub(crate) struct Reader<'a, S: Scale, C: Chart> {
    pub(crate) rules: &'a Rules,
    pub(crate) text: &'a [u16],
    pub(crate) table: &'a Table<'a, S, C>,
    // the table is for the categories of the rules, and for all the words
    ghost kinds: { table.now.kinds ≡ rules.now.categories },
    ghost whole: { length text.now ≡ (C.seen table.now.chart.now).words },
}

// The words from one to another, counted from 1: at least one, and no more than a chart takes.
#[derive(Clone, Copy)]
pub(crate) struct Span {
    pub(crate) begin: usize,
    pub(crate) end: usize,
    ghost first: { 1 ≤ begin },
    ghost order: { begin ≤ end },
    ghost last: { end ≤ most_words },
}

impl Span {
    // The words up to a split.
    pub(crate) fn left(self, split: usize) -> Span
        requires first { self.begin ≤ split }
        requires last { split < self.end }
        ensures begin { result.begin ≡ self.begin }
        ensures end { result.end ≡ split }
    {
        Span {
            begin: self.begin,
            end: split,
        }
    }

    // The words after a split.
    pub(crate) fn right(self, split: usize) -> Span
        requires { split < self.end }
        ensures begin { result.begin ≡ split + 1 }
        ensures end { result.end ≡ self.end }
    {
        Span {
            begin: split + 1,
            end: self.end,
        }
    }
}
