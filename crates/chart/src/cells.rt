// The number of each cell of a triangle, and how many cells there are. Nothing else knows how cells are numbered.
ghost use Rattle.std.specs.Prelude.{◌≡◌, ◌+◌, ◌-◌, ◌*◌, ◌/◌, ◌≤◌};
ghost use Rattle.chart.specs.Limits.{most_words};
ghost use Rattle.chart.specs.Triangle.{tri, cell};

use crate::square::CELLS;

// The number of the cell of the words b to e.
pub fn cell_of(b: usize, e: usize) -> usize
    requires first { 1 ≤ b }
    requires order { b ≤ e }
    requires last { e ≤ most_words }
    ensures number { result ≡ cell b e }
    ensures closed { result ≡ e * (e - 1) / 2 + b - 1 }
{
    usize::from(CELLS[e - 1][b - 1])
}

// How many cells n words have.
pub fn cells_of(n: usize) -> usize
    requires { n ≤ most_words }
    ensures sum { result ≡ tri n }
    ensures closed { result ≡ n * (n + 1) / 2 }
{
    n * (n + 1) / 2
}
