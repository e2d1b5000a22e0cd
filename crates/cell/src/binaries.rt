// What the binary rules offer to a cell, of the costs of shorter stretches.
ghost use Rattle.std.specs.Prelude.{◌≡◌, ℕ, ◌+◌, ◌<◌, ◌≤◌, length};
ghost use Rattle.chart.specs.Meaning.{Splits, Lowest};
ghost use Rattle.settle.specs.Column.{Grown};
ghost use Rattle.settle.specs.Offers.{joined};
ghost use Rattle.cell.specs.Cell.{Meet, Pair};
ghost use Rattle.cell.specs.Open.{costs_in, held_in, column_of, open_to, binaries_of, Beside};

use crate::cell::Cell;
use bound::Bound;
use chart::Chart;
use derivation::BinaryRule;
use scale::Scale;
use settle::Row;

impl<S: Scale, C: Chart, B: Bound<S>> Cell<'_, '_, S, C, B> {
    // The lowest split at which the parts of a rule meet.
    fn lowest(&self, rule: BinaryRule) -> Option<usize>
        ensures { Lowest (held_in self.now) rule.left rule.right self.now.b self.now.e result }
    {
        let left = usize::from(rule.left);
        let right = usize::from(rule.right);
        self.table().split(left, right, self.b, self.e)
    }

    // What a rule makes of its parts over b to m and m + 1 to e.
    fn paired(&self, rule: BinaryRule, m: usize) -> Option<S::Cost>
        requires { m < self.now.e }
        ensures { result ≡ joined S.scale rule.weight (costs_in self.now rule.left self.now.b m) (costs_in self.now rule.right (m + 1) self.now.e) }
    {
        let x = self.table().known(self.b, m, usize::from(rule.left))?;
        let y = self.table().known(m + 1, self.e, usize::from(rule.right))?;
        Some(S::join(S::price(rule.weight), S::join(x, y)))
    }

    // Offers what one rule makes at every split, where none is below `from`.
    fn meets(&mut self, rule: BinaryRule, from: usize)
        requires low { self.old.b ≤ from }
        requires high { from < self.old.e }
        requires lowest { (k : ℕ) → k < from → Splits (held_in self.old) rule.left rule.right self.old.b self.old.e k → ⊥ }
        requires kind { rule.category < self.old.task.now.rules.now.categories }
        ensures beside { Beside self.old self.new }
        ensures grown { Grown S.scale (open_to B.limit self.old) (Meet S.scale rule (costs_in self.old) self.old.b self.old.e self.old.e) (column_of self.old) (column_of self.new) }
    {
        for m in from..self.e {
            if let Some(cost) = self.paired(rule, m) {
                self.offer(usize::from(rule.category), cost);
            }
        }
    }

    // Offers what every rule makes: one whose parts meet nowhere is passed over at the cost of one question.
    pub fn pairs(&mut self)
        ensures beside { Beside self.old self.new }
        ensures grown { Grown S.scale (open_to B.limit self.old) (Pair S.scale (binaries_of self.old) (costs_in self.old) self.old.b self.old.e (length (binaries_of self.old))) (column_of self.old) (column_of self.new) }
    {
        for rule in &self.task.rules.binaries {
            if let Some(from) = self.lowest(*rule) {
                self.meets(*rule, from);
            }
        }
    }
}
