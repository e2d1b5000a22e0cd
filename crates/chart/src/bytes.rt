// The byte chart: one byte for each constituent, over bytes that are lent.
ghost use Rattle.std.specs.Prelude.{◌≡◌, ◌<◌, ◌≤◌, length};
ghost use Rattle.chart.specs.Limits.{most_words, most_categories, Greatest};
ghost use Rattle.chart.specs.Meaning.{Empty};
ghost use Rattle.chart.specs.Facts.{limited_bounded};
ghost use Rattle.chart.specs.Bytes.{bytes_for, place, marked, held};

use crate::cells::{cell_of, cells_of};
use crate::extent::Extent;
use crate::meaning::Chart;
use crate::{MOST_CATEGORIES, MOST_WORDS};

#[derive(Drop)]
pub struct ByteChart<'a> {
    bytes: &'a mut [u8],
    extent: Extent,
    ghost fits: { bytes_for extent.capacity ≤ length bytes.now },
}

// How many bytes n words take.
fn bytes_for(n: usize) -> usize
    requires { n ≤ most_words }
    ensures { result ≡ bytes_for n }
{
    cells_of(n) * MOST_CATEGORIES
}

// The byte of a constituent.
fn place_of(b: usize, e: usize, a: usize) -> usize
    requires first { 1 ≤ b }
    requires order { b ≤ e }
    requires last { e ≤ most_words }
    requires kind { a < most_categories }
    ensures { result ≡ place b e a }
{
    cell_of(b, e) * MOST_CATEGORIES + a
}

// The capacity of a chart over so many bytes: the greatest number of words that they have room for.
pub fn most_words(bytes: usize) -> usize
    ensures { Greatest bytes_for bytes result }
{
    (0..MOST_WORDS)
        .find(|&n| bytes < bytes_for(n + 1))
        .unwrap_or(MOST_WORDS)
}

impl<'a> ByteChart<'a> {
    // A chart with no words, no categories and the empty set, whatever the bytes hold.
    pub fn new(bytes: &'a mut [u8]) -> ByteChart<'a>
        ensures room { Greatest bytes_for (length bytes.old) result.extent.capacity }
        ensures words { result.extent.words ≡ 0 }
        ensures categories { result.extent.categories ≡ 0 }
        ensures empty { Empty (held result.bytes.now result.extent.words result.extent.categories) }
    {
        let capacity = most_words(bytes.len());
        ByteChart {
            bytes,
            extent: Extent {
                capacity,
                words: 0,
                categories: 0,
            },
        }
    }
}

impl Chart for ByteChart<'_> {
    ghost seen = { λ c. record { room = c.extent.capacity; words = c.extent.words; categories = c.extent.categories; holds = held c.bytes.now c.extent.words c.extent.categories } };

    ghost sound = { record { most = λ c. c.extent.most; within = λ c. c.extent.within; kinds = λ c. c.extent.kinds; bounded = λ c. limited_bounded c.extent.words c.extent.categories (marked c.bytes.now) } };

    fn capacity(&self) -> usize {
        self.extent.capacity
    }

    fn start(&mut self, n: usize, g: usize) -> bool {
        if self.extent.admits(n, g) {
            self.bytes[..bytes_for(n)].fill(0);
            self.extent.words = n;
            self.extent.categories = g;
            true
        } else {
            false
        }
    }

    fn put(&mut self, b: usize, e: usize, a: usize) -> bool {
        if self.extent.takes(b, e, a) {
            self.bytes[place_of(b, e, a)] = 1;
            true
        } else {
            false
        }
    }

    fn has(&self, b: usize, e: usize, a: usize) -> bool {
        self.extent.takes(b, e, a) && self.bytes[place_of(b, e, a)] == 1
    }

    fn split(&self, p: usize, q: usize, b: usize, e: usize) -> Option<usize> {
        (b..e).find(|&m| self.has(b, m, p) && self.has(m + 1, e, q))
    }
}
