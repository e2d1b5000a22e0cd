// Ranks for the categories over one stretch of words, so that a run of chain rules never comes back.
ghost use Rattle.std.specs.Prelude.{◌<◌, IsSome};
ghost use Rattle.derivation.specs.Grammar.{grammar};
ghost use Rattle.table.specs.Tables.{entries};
ghost use Rattle.tree.specs.Ways.{rank};
ghost use Rattle.tree.specs.Ranks.{Ranked, Swept, Grounded};

use crate::reader::{Reader, Span};
use chart::Chart;
use scale::Scale;

// The rank of each category that has one.
pub(crate) type Ranks = [Option<u8>; 64];

impl<S: Scale, C: Chart> Reader<'_, S, C> {
    // Gives the rank `level` to each category that has none yet, and that has a way to lower ranks.
    fn sweep(&self, ranks: &mut Ranks, level: u8, span: Span)
        requires some { 0 < level }
        requires ranked { Ranked S.scale (grammar self.now.rules.now) self.now.text.now (entries self.now.table.now) ranks.old level span.begin span.end }
        ensures { Swept S.scale (grammar self.now.rules.now) self.now.text.now (entries self.now.table.now) ranks.old ranks.new level self.now.rules.now.categories span.begin span.end }
    {
        for category in 0..self.rules.categories {
            if ranks[category].is_none() && self.way(ranks, level, category as u8, span).is_some() {
                ranks[category] = Some(level);
            }
        }
    }

    // Ranks from 1 on, up to that of the category: at once where it has a way that is no chain rule, else by sweeps.
    pub fn rank_cell(&self, category: u8, span: Span) -> Ranks
        requires grounded { Grounded S.scale (grammar self.now.rules.now) self.now.text.now (entries self.now.table.now) span.begin span.end category }
        ensures ranked { Ranked S.scale (grammar self.now.rules.now) self.now.text.now (entries self.now.table.now) result self.now.rules.now.categories span.begin span.end }
        ensures some { IsSome (rank result category) }
    {
        let mut ranks = [None; 64];
        if self.way(&ranks, 1, category, span).is_some() {
            ranks[usize::from(category)] = Some(1);
            return ranks;
        }
        let mut level = 0;
        while ranks[usize::from(category)].is_none() {
            level += 1;
            self.sweep(&mut ranks, level, span);
        }
        ranks
    }
}
