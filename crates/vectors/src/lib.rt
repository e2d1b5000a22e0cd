// The vector chart: each constituent is kept twice, by its start and by its end, so that the lowest split is one "and" of two vectors.
#![tactic(auto)]

ghost use Rattle.std.specs.Prelude.{◌≡◌, ◌*◌, ◌<◌, ◌≤◌, length};
ghost use Rattle.chart.specs.Facts.{limited_bounded};
ghost use Rattle.chart.specs.Limits.{most_words, most_categories, Greatest};
ghost use Rattle.chart.specs.Meaning.{Empty};
ghost use Rattle.vectors.specs.Vectors.{vectors_for, vector, by_start, held, Starts, Ends};

use chart::{Chart, Extent, MOST_CATEGORIES, MOST_WORDS};

#[derive(Drop)]
pub struct VectorChart<'a> {
    // A row of vectors for each word by start, then one for each word by end; a vector of a row for each category.
    vectors: &'a mut [u64],
    extent: Extent,
    ghost fits: { vectors_for extent.capacity ≤ length vectors.now },
    ghost starts: { Starts vectors.now extent.words extent.categories },
    ghost ends: { Ends vectors.now extent.words extent.categories },
}

// The vector of a row and a category.
fn vector_of(row: usize, a: usize) -> usize
    requires first { 1 ≤ row }
    requires last { row ≤ 2 * most_words }
    requires kind { a < most_categories }
    ensures { result ≡ vector row a }
{
    (row - 1) * MOST_CATEGORIES + a
}

// The capacity of a chart over so many vectors: the greatest number of words that they have room for.
pub fn most_words(vectors: usize) -> usize
    ensures { Greatest vectors_for vectors result }
{
    (vectors / (2 * MOST_CATEGORIES)).min(MOST_WORDS)
}

impl<'a> VectorChart<'a> {
    // A chart with no words, no categories and the empty set, whatever the vectors hold.
    pub fn new(vectors: &'a mut [u64]) -> VectorChart<'a>
        ensures room { Greatest vectors_for (length vectors.old) result.extent.capacity }
        ensures words { result.extent.words ≡ 0 }
        ensures categories { result.extent.categories ≡ 0 }
        ensures empty { Empty (held result.vectors.now result.extent.words result.extent.categories) }
    {
        let capacity = most_words(vectors.len());
        VectorChart {
            vectors,
            extent: Extent {
                capacity,
                words: 0,
                categories: 0,
            },
        }
    }
}

impl Chart for VectorChart<'_> {
    ghost seen = { λ c. record { room = c.extent.capacity; words = c.extent.words; categories = c.extent.categories; holds = held c.vectors.now c.extent.words c.extent.categories } };

    ghost sound = { record { most = λ c. c.extent.most; within = λ c. c.extent.within; kinds = λ c. c.extent.kinds; bounded = λ c. limited_bounded c.extent.words c.extent.categories (by_start c.vectors.now) } };

    fn capacity(&self) -> usize {
        self.extent.capacity
    }

    fn start(&mut self, n: usize, g: usize) -> bool {
        if self.extent.admits(n, g) {
            // While the vectors change, the chart is one of no words, whose vectors need not agree.
            self.extent.words = 0;
            self.vectors[..2 * MOST_CATEGORIES * n].fill(0);
            self.extent.words = n;
            self.extent.categories = g;
            true
        } else {
            false
        }
    }

    fn put(&mut self, b: usize, e: usize, a: usize) -> bool {
        if self.extent.takes(b, e, a) {
            let n = self.extent.words;
            let by_start = vector_of(b, a);
            let by_end = vector_of(n + e, a);
            // As in `start`, no words while only one of the two bits is set.
            self.extent.words = 0;
            self.vectors[by_start] |= 1 << e;
            self.vectors[by_end] |= 1 << b;
            self.extent.words = n;
            true
        } else {
            false
        }
    }

    fn has(&self, b: usize, e: usize, a: usize) -> bool {
        self.extent.takes(b, e, a) && (self.vectors[vector_of(b, a)] >> e) & 1 == 1
    }

    fn split(&self, p: usize, q: usize, b: usize, e: usize) -> Option<usize> {
        if self.extent.takes(b, e, p) && q < self.extent.categories {
            let lasts = self.vectors[vector_of(b, p)];
            let firsts = self.vectors[vector_of(self.extent.words + e, q)];
            let m = (lasts & (firsts >> 1)).trailing_zeros();
            if m < u64::BITS {
                return Some(m as usize);
            }
        }
        None
    }
}

#[cfg(test)]
mod tests;
