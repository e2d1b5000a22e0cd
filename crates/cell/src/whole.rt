// One cell filled: word rules, binary rules over shorter stretches, then chain rules.
ghost use Rattle.std.specs.Prelude.{◌≡◌, ℕ, ◌≤◌, length, None};
ghost use Rattle.derivation.specs.Grammar.{grammar};
ghost use Rattle.table.specs.Memory.{view, Placed, Framed};
ghost use Rattle.cell.specs.Cell.{Closes};

use crate::cell::Cell;
use crate::task::Task;
use bound::Bound;
use chart::Chart;
use scale::Scale;

// Fills the empty cell of the words b to e.
pub fn fill<S: Scale, C: Chart, B: Bound<S>>(
    task: &Task<'_, S::Cost, B>,
    chart: &mut C,
    costs: &mut [S::Cost],
    b: usize,
    e: usize,
)
    requires placed { Placed task.now.rules.now.categories b e (C.seen chart.old) (length costs.old) }
    requires covered { e ≤ length task.now.text.now }
    requires blank { (A : ℕ) → view S.scale.neutral task.now.rules.now.categories (C.seen chart.old) costs.old A b e ≡ None }
    ensures framed { Framed S.scale.neutral task.now.rules.now.categories b e (C.seen chart.old) costs.old (C.seen chart.new) costs.new }
    ensures closes { Closes S.scale (grammar task.now.rules.now) (B.limit task.now.bound.now) task.now.ceiling task.now.text.now (view S.scale.neutral task.now.rules.now.categories (C.seen chart.old) costs.old) (view S.scale.neutral task.now.rules.now.categories (C.seen chart.new) costs.new) b e }
{
    let mut cell = Cell::new(task, chart, costs, b, e);
    cell.single();
    cell.pairs();
    cell.links();
}
