// A cell while it is filled.
ghost use Rattle.std.specs.Prelude.{◌≡◌, ◌-◌, ◌≤◌, length};
ghost use Rattle.table.specs.Memory.{Placed};

use crate::task::Task;
use chart::Chart;
use scale::Scale;
use table::Table;

// The words b to e, with so many words to the left and to the right; and what the round has found so far.
#[derive(Drop)]
pub struct Cell<'r, 'a, S: Scale, C: Chart, B> {
    pub task: &'r Task<'r, S::Cost, B>,
    pub chart: &'a mut C,
    pub costs: &'a mut [S::Cost],
    pub b: usize,
    pub e: usize,
    pub left: usize,
    pub right: usize,
    ghost placed: { Placed task.now.rules.now.categories b e (C.seen chart.now) (length costs.now) },
    ghost covered: { e ≤ length task.now.text.now },
    ghost before: { left ≡ b - 1 },
    ghost after: { right ≡ length task.now.text.now - e },
}

impl<'r, 'a, S: Scale, C: Chart, B> Cell<'r, 'a, S, C, B> {
    pub fn new(
        task: &'r Task<'r, S::Cost, B>,
        chart: &'a mut C,
        costs: &'a mut [S::Cost],
        b: usize,
        e: usize,
    ) -> Cell<'r, 'a, S, C, B>
        requires placed { Placed task.now.rules.now.categories b e (C.seen chart.old) (length costs.old) }
        requires covered { e ≤ length task.now.text.now }
        ensures task { result.task ≡ task.entry }
        ensures first { result.b ≡ b }
        ensures last { result.e ≡ e }
        ensures chart { result.chart.now ≡ chart.old }
        ensures costs { result.costs.now ≡ costs.old }
        ensures chart_lent { result.chart.ghost_name ≡ chart.entry.ghost_name }
        ensures costs_lent { result.costs.ghost_name ≡ costs.entry.ghost_name }
    {
        let right = task.text.len() - e;
        Cell {
            task,
            chart,
            costs,
            b,
            e,
            left: b - 1,
            right,
        }
    }

    // What the round has found so far.
    pub fn table(&self) -> Table<'_, S, C>
        ensures kinds { result.kinds ≡ self.now.task.now.rules.now.categories }
        ensures chart { result.chart.now ≡ self.now.chart.now }
        ensures costs { result.costs.now ≡ self.now.costs.now }
    {
        Table::over(self.chart, self.costs, self.task.rules.categories)
    }
}
