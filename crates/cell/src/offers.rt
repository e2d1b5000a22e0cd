// Offers of costs to the categories of one cell: the cheapest that passes stays.
ghost use Rattle.std.specs.Prelude.{◌≡◌, ◌-◌, length};
ghost use Rattle.bound.specs.Gate.{admitted};
ghost use Rattle.cell.specs.Open.{column_of, open_to, Beside};
ghost use Rattle.cell.specs.Laws.{cell_laws};

use crate::cell::Cell;
use bound::{Bound, passes};
use chart::Chart;
use scale::Scale;
use settle::{Row, wanted};
use table::store;

impl<S: Scale, C: Chart, B: Bound<S>> Cell<'_, '_, S, C, B> {
    // Whether the pruning gate lets a cost stay.
    fn passes(&self, category: usize, cost: S::Cost) -> bool
        ensures { result ≡ admitted S.scale self.now.task.now.ceiling (B.limit self.now.task.now.bound.now category (self.now.b - 1) (length self.now.task.now.text.now - self.now.e)) cost }
    {
        let task = self.task;
        let (left, right) = (self.left, self.right);
        passes::<S, B>(cost, task.bound, category, left, right, task.ceiling)
    }
}

impl<S: Scale, C: Chart, B: Bound<S>> Row<S> for Cell<'_, '_, S, C, B> {
    ghost costs = { λ cell. column_of cell };

    ghost size = { λ cell. cell.task.now.rules.now.categories };

    ghost enters = { λ cell. open_to B.Bound.limit cell };

    ghost beside = { λ before after. Beside before after };

    ghost laws = { cell_laws B.Bound.limit };

    fn categories(&self) -> usize {
        self.task.rules.categories
    }

    fn known(&self, category: usize) -> Option<S::Cost> {
        self.table().known(self.b, self.e, category)
    }

    fn offer(&mut self, category: usize, cost: S::Cost) {
        if self.passes(category, cost) && wanted::<S>(self.known(category), cost) {
            let kinds = self.task.rules.categories;
            store::<S, C>(
                self.chart, self.costs, kinds, self.b, self.e, category, cost,
            );
        }
    }
}
