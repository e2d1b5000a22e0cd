// A cheapest tree of a text: the rounds of a ladder, and the nodes of a derivation at the kept cost.
ghost use Rattle.std.specs.Prelude.{◌≡◌, ℕ, ◌-◌, ◌*◌, ◌≤◌, length};
ghost use Rattle.derivation.specs.Grammar.{grammar};
ghost use Rattle.chart.specs.Triangle.{tri};
ghost use Rattle.search.specs.Best.{Best};

use crate::climb::climb;
use bound::Bound;
use chart::Chart;
use derivation::Rules;
use scale::Scale;
use table::Table;
use tree::{Node, extract};

// A tree that was found: its cost, the number of rounds before the last, how many constituents the last one kept, and how many nodes were written.
#[derive(Clone, Copy)]
pub struct Tree<Cost> {
    pub cost: Cost,
    pub rung: usize,
    pub kept: usize,
    pub nodes: usize,
}

// The tree of the first round that keeps the top over all words; none if no round does.
pub fn best<S: Scale, C: Chart, B: Bound<S>>(
    rules: &Rules,
    text: &[u16],
    bound: &B,
    ladder: &[S::Cost],
    chart: &mut C,
    costs: &mut [S::Cost],
    nodes: &mut [Node],
) -> Option<Tree<S::Cost>>
    requires roomy { length text.now ≤ (C.seen chart.old).room }
    requires long { tri (length text.now) * rules.now.categories ≤ length costs.old }
    requires wide { (2 * length text.now - 1) * rules.now.categories ≤ length nodes.old }
    ensures room { (C.seen chart.new).room ≡ (C.seen chart.old).room }
    ensures best { Best S.scale (grammar rules.now) (B.limit bound.now) ladder.now text.now costs.old (C.seen chart.new) costs.new nodes.old nodes.new result }
{
    let last = climb::<S, C, B>(rules, text, bound, ladder, chart, costs)?;
    let table = Table::<S, C>::over(chart, costs, rules.categories);
    let Some(cost) = table.known(1, text.len(), usize::from(rules.top)) else {
        unreachable()
    };
    let nodes = extract(rules, text, &table, nodes);
    Some(Tree {
        cost,
        rung: last.rung,
        kept: last.kept,
        nodes,
    })
}
