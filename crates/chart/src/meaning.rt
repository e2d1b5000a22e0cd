// What a chart is: a set of constituents over words counted from 1. Every parser here is written against this trait alone.
ghost use Rattle.std.specs.Prelude.{◌≡◌, ℕ, ◌<◌, ◌≤◌, true, false, ◌&&◌, nat_le};
ghost use Rattle.chart.specs.Limits.{most_categories};
ghost use Rattle.chart.specs.Meaning.{Seen, Sound, Starts, Puts, Inside, inside, Lowest};

use crate::MOST_CATEGORIES;

pub trait Chart {
    // All that is seen of a chart.
    ghost seen: { Self → Seen };

    // What every chart keeps.
    ghost sound: { Sound seen };

    // How many words the chart can take.
    fn capacity(&self) -> usize
        ensures { result ≡ (seen self.now).room };

    // Empties the chart for n words and g categories. Refused, and then nothing alters, if either is too many.
    fn start(&mut self, n: usize, g: usize) -> bool
        ensures { Starts n g (seen self.old) result (seen self.new) };

    // Adds the constituent (b, e, a), and nothing else. Answers no, and alters nothing, if the chart may not hold it.
    fn put(&mut self, b: usize, e: usize, a: usize) -> bool
        ensures { Puts b e a (seen self.old) result (seen self.new) };

    // Whether the constituent (b, e, a) is in the set.
    fn has(&self, b: usize, e: usize, a: usize) -> bool
        ensures { result ≡ (seen self.now).holds b e a };

    // The lowest m with a p over b to m and a q over m + 1 to e in the set.
    fn split(&self, p: usize, q: usize, b: usize, e: usize) -> Option<usize>
        ensures { Lowest (seen self.now).holds p q b e result };
}

// Whether a chart of that capacity can be started for n words and g categories.
pub fn admits(capacity: usize, n: usize, g: usize) -> bool
    ensures answer { result ≡ (nat_le n capacity && nat_le g most_categories) }
    ensures fact { result ≡ true → (n ≤ capacity) × (g ≤ most_categories) }
{
    n <= capacity && g <= MOST_CATEGORIES
}

// Whether (b, e, a) is a constituent that a chart of n words and g categories may hold.
pub fn takes(n: usize, g: usize, b: usize, e: usize, a: usize) -> bool
    ensures answer { result ≡ inside n g b e a }
    ensures fact { result ≡ true → Inside n g b e a }
{
    1 <= b && b <= e && e <= n && a < g
}
