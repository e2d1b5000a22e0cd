// What a tree request brings, by its sizes.
ghost use Rattle.std.specs.Prelude.{◌≡◌, ◌≤◌};
ghost use Rattle.chart.specs.Limits.{most_words, most_categories};
ghost use Rattle.session.specs.Request.{enough};

use chart::cells_of;

// The chart's capacity, the bound's span, and how many costs and nodes there is memory for.
#[derive(Clone, Copy)]
pub struct Sizes {
    pub room: usize,
    pub span: usize,
    pub costs: usize,
    pub nodes: usize,
}

impl Sizes {
    // Whether they are enough for n words and g categories.
    pub(crate) fn suffice(self, n: usize, g: usize) -> bool
        requires some { 1 ≤ n }
        requires most { n ≤ most_words }
        requires few { g ≤ most_categories }
        ensures { result ≡ enough n g self }
    {
        (n <= self.room && n <= self.span)
            && (cells_of(n) * g <= self.costs && (2 * n - 1) * g <= self.nodes)
    }
}
