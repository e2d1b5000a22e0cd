// What the chain rules make of a cell. Rules may form circles, also of weight 0.
ghost use Rattle.settle.specs.declared.direction.Direction.TheVariants.{Up};
ghost use Rattle.settle.specs.Chains.{Settled};
ghost use Rattle.cell.specs.Open.{column_of, open_to, chains_of, Beside};

use crate::cell::Cell;
use bound::Bound;
use chart::Chart;
use scale::Scale;
use settle::{Direction, settle};

impl<S: Scale, C: Chart, B: Bound<S>> Cell<'_, '_, S, C, B> {
    // Closes a cell under the chain rules.
    pub fn links(&mut self)
        ensures beside { Beside self.old self.new }
        ensures settled { Settled S.scale (open_to B.limit self.old) Up (chains_of self.old) (column_of self.old) (column_of self.new) }
    {
        settle::<S, Self>(&self.task.rules.chains, Direction::Up, self);
    }
}
