// How far a chart goes.
ghost use Rattle.std.specs.Prelude.{◌≡◌, ◌≤◌, true, ◌&&◌, nat_le};
ghost use Rattle.chart.specs.Limits.{most_words, most_categories};
ghost use Rattle.chart.specs.Meaning.{Inside, inside};

use crate::meaning::{admits, takes};

// How many words a chart can take, and the numbers of words and categories that it was last started with.
#[derive(Clone, Copy)]
pub struct Extent {
    pub capacity: usize,
    pub words: usize,
    pub categories: usize,
    ghost most: { capacity ≤ most_words },
    ghost within: { words ≤ capacity },
    ghost kinds: { categories ≤ most_categories },
}

impl Extent {
    // Whether the chart can be started for n words and g categories.
    pub fn admits(&self, n: usize, g: usize) -> bool
        ensures answer { result ≡ (nat_le n self.now.capacity && nat_le g most_categories) }
        ensures fact { result ≡ true → (n ≤ self.now.capacity) × (g ≤ most_categories) }
    {
        admits(self.capacity, n, g)
    }

    // Whether (b, e, a) is a constituent that the chart may hold.
    pub fn takes(&self, b: usize, e: usize, a: usize) -> bool
        ensures answer { result ≡ inside self.now.words self.now.categories b e a }
        ensures fact { result ≡ true → Inside self.now.words self.now.categories b e a }
    {
        takes(self.words, self.categories, b, e, a)
    }
}
