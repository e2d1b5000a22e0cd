// The constituents that are kept and their costs: a chart, and a row of costs beside it.
#![tactic(auto)]

ghost use Rattle.std.specs.Prelude.{◌≡◌, ℕ, ◌<◌, ◌≤◌, true, length};
ghost use Rattle.chart.specs.Meaning.{Lowest};
ghost use Rattle.table.specs.Memory.{slot, Ready, Placed, Stored, Cleared};

use chart::{Chart, cell_of};
use scale::Scale;

// What a round has found: a chart, and beside it a row with the cost of each constituent that the chart holds.
#[derive(Drop)]
pub struct Table<'a, S: Scale, C: Chart> {
    chart: &'a C,
    costs: &'a [S::Cost],
    kinds: usize,
    ghost ready: { Ready kinds (C.seen chart.now) (length costs.now) },
}

// The place of a constituent's cost.
pub fn slot_of(kinds: usize, b: usize, e: usize, a: usize) -> usize
    requires first { 1 ≤ b }
    requires order { b ≤ e }
    requires last { e ≤ 40 }
    requires kind { a < kinds }
    requires few { kinds ≤ 64 }
    ensures { result ≡ slot kinds b e a }
{
    cell_of(b, e) * kinds + a
}

// Adds a constituent and its cost.
pub fn store<S: Scale, C: Chart>(
    chart: &mut C,
    costs: &mut [S::Cost],
    kinds: usize,
    b: usize,
    e: usize,
    a: usize,
    cost: S::Cost,
)
    requires placed { Placed kinds b e (C.seen chart.old) (length costs.old) }
    requires kind { a < kinds }
    ensures { Stored S.scale.neutral kinds b e a cost (C.seen chart.old) costs.old (C.seen chart.new) costs.new }
{
    chart.put(b, e, a);
    costs[slot_of(kinds, b, e, a)] = cost;
}

// Makes the first costs neutral.
pub fn clear<S: Scale>(costs: &mut [S::Cost], end: usize)
    requires { end ≤ length costs.old }
    ensures { Cleared S.scale.neutral end costs.old costs.new }
{
    let none = S::start();
    for cost in &mut costs[..end] {
        *cost = none;
    }
}

impl<'a, S: Scale, C: Chart> Table<'a, S, C> {
    ghost use Rattle.table.specs.Tables.{entries, holds};

    // The table of a chart that was started for so many categories and the costs beside it.
    pub fn over(chart: &'a C, costs: &'a [S::Cost], categories: usize) -> Table<'a, S, C>
        requires { Ready categories (C.seen chart.now) (length costs.now) }
        ensures kinds { result.kinds ≡ categories }
        ensures chart { result.chart.now ≡ chart.now }
        ensures costs { result.costs.now ≡ costs.now }
    {
        Table {
            chart,
            costs,
            kinds: categories,
        }
    }

    // The cost of a constituent, if the chart holds it.
    pub fn known(&self, b: usize, e: usize, a: usize) -> Option<S::Cost>
        ensures { result ≡ entries self.now a b e }
    {
        self.has(b, e, a).then(|| self.cost(b, e, a))
    }

    // Whether the chart holds a constituent.
    pub fn has(&self, b: usize, e: usize, a: usize) -> bool
        ensures { result ≡ holds self.now b e a }
    {
        self.chart.has(b, e, a)
    }

    // The lowest m with a p over b to m and a q over m + 1 to e.
    pub fn split(&self, p: usize, q: usize, b: usize, e: usize) -> Option<usize>
        ensures { Lowest (holds self.now) p q b e result }
    {
        self.chart.split(p, q, b, e)
    }

    // The cost in the place of a constituent that the chart holds.
    fn cost(&self, b: usize, e: usize, a: usize) -> S::Cost
        requires { holds self.now b e a ≡ true }
        ensures { entries self.now a b e ≡ Some result }
    {
        self.costs[slot_of(self.kinds, b, e, a)]
    }
}
