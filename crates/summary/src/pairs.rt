// The least costs of surroundings: a row for each pair of numbers of words beside the gap, made from rows before it.
ghost use Rattle.std.specs.Prelude.{◌≡◌, ℕ, ◌+◌, ◌-◌, ◌*◌, ◌<◌, ◌≤◌, length};
ghost use Rattle.derivation.specs.Grammar.{grammar};
ghost use Rattle.derivation.specs.Named.{NamedBinaries};
ghost use Rattle.settle.specs.Column.{Grown};
ghost use Rattle.settle.specs.Offers.{cell, Only};
ghost use Rattle.summary.specs.declared.step.Sought.TheVariants.{Gap};
ghost use Rattle.summary.specs.Least.{LeastOutside};
ghost use Rattle.summary.specs.Memory.{tri, view, place, Summed};
ghost use Rattle.summary.specs.Filling.{Joins, Pile, Insides, Outsides, across, shorter};

use crate::Summary;
use crate::pair::Pair;
use crate::rows::{combine, empty, row_at};
use crate::step::{Side, Sought};
use derivation::{BinaryRule, Rules};
use scale::Scale;
use settle::{CostRow, Direction, Row, settle};

// Offers the top to the row of a pair: with no words beside the gap it stands alone.
fn seed<S: Scale, R: Row<S>>(top: usize, pair: Pair, row: &mut R)
    requires named { top < R.size row.old }
    ensures beside { R.beside row.old row.new }
    ensures grown { Grown S.scale (R.enters row.old) (λ A x. (pair.left + pair.right ≡ 0) × Only top S.scale.neutral A x) (R.costs row.old) (R.costs row.new) }
{
    if pair.left + pair.right == 0 {
        row.offer(top, S::start());
    }
}

// Offers to the row of a pair what the binary rules make of a sibling of m words and the pair without it.
fn gaps<S: Scale, R: Row<S>>(
    binaries: &[BinaryRule],
    side: Side,
    before: &[Option<S::Cost>],
    pair: Pair,
    row: &mut R,
)
    requires room { place pair.span pair.left pair.right * R.size row.old ≤ length before.now }
    requires named { NamedBinaries binaries.now (R.size row.old) }
    ensures beside { R.beside row.old row.new }
    ensures grown { Grown S.scale (R.enters row.old) (Pile (across side pair.left pair.right + 1) (λ m. Joins S.scale (Gap side) binaries.now (view (R.size row.old) before.now (shorter side pair.span pair.left pair.right m * R.size row.old)) (view (R.size row.old) before.now ((m - 1) * R.size row.old)))) (R.costs row.old) (R.costs row.new) }
{
    let size = row.categories();
    for m in 1..=side.across(pair.left, pair.right) {
        combine::<S, _>(
            binaries,
            Sought::Gap(side),
            row_at(before, size, pair.row_without(side, m)),
            row_at(before, size, m - 1),
            row,
        );
    }
}

// Makes the row of a pair, after the rows of the lengths and of the pairs before it.
fn make_pair<S: Scale>(
    rules: &Rules,
    before: &[Option<S::Cost>],
    pair: Pair,
    row: &mut [Option<S::Cost>],
)
    requires room { length before.now ≡ place pair.span pair.left pair.right * rules.now.categories }
    requires long { length row.old ≡ rules.now.categories }
    requires lengths { Insides S.scale (grammar rules.now) rules.now.categories pair.span before.now }
    requires pairs { Outsides S.scale (grammar rules.now) rules.now.categories pair.span (pair.left + pair.right) pair.left before.now }
    ensures { (A : ℕ) → LeastOutside S.scale (grammar rules.now) A pair.left pair.right (cell row.new A) }
{
    let binaries = rules.binaries.as_slice();
    empty(row);
    let mut row = CostRow(row);
    seed::<S, _>(usize::from(rules.top), pair, &mut row);
    gaps::<S, _>(binaries, Side::Left, before, pair, &mut row);
    gaps::<S, _>(binaries, Side::Right, before, pair, &mut row);
    settle::<S, _>(rules.chains.as_slice(), Direction::Down, &mut row);
}

impl<'a, C: Copy> Summary<'a, C> {
    ghost use Rattle.summary.specs.Kept.{Kept};

    // Makes the row of a pair.
    fn pair_row<S: Scale<Cost = C>>(&mut self, rules: &Rules, pair: Pair)
        requires same { rules.now.categories ≡ self.old.categories }
        requires span { pair.span ≡ self.old.span }
        requires lengths { Insides S.scale (grammar rules.now) self.old.categories pair.span self.old.memory.now }
        requires before { Outsides S.scale (grammar rules.now) self.old.categories pair.span (pair.left + pair.right) pair.left self.old.memory.now }
        ensures kept { Kept self.old self.new }
        ensures exact { Outsides S.scale (grammar rules.now) self.old.categories pair.span (pair.left + pair.right) (pair.left + 1) self.new.memory.now }
        ensures lengths { Insides S.scale (grammar rules.now) self.old.categories pair.span self.new.memory.now }
    {
        let memory = &mut *self.memory;
        let (before, rest) = memory.split_at_mut(pair.row() * self.categories);
        make_pair::<S>(rules, before, pair, &mut rest[..self.categories]);
    }

    // Makes the rows of all pairs of n words.
    fn pairs_of<S: Scale<Cost = C>>(&mut self, rules: &Rules, n: usize)
        requires same { rules.now.categories ≡ self.old.categories }
        requires short { n < self.old.span }
        requires lengths { Insides S.scale (grammar rules.now) self.old.categories self.old.span self.old.memory.now }
        requires before { Outsides S.scale (grammar rules.now) self.old.categories self.old.span n 0 self.old.memory.now }
        ensures kept { Kept self.old self.new }
        ensures lengths { Insides S.scale (grammar rules.now) self.old.categories self.old.span self.new.memory.now }
        ensures exact { Outsides S.scale (grammar rules.now) self.old.categories self.old.span (n + 1) 0 self.new.memory.now }
    {
        let span = self.span;
        for left in 0..=n {
            let right = n - left;
            self.pair_row::<S>(rules, Pair { span, left, right });
        }
    }

    // Makes the rows of all pairs in the span.
    pub(crate) fn fill_pairs<S: Scale<Cost = C>>(&mut self, rules: &Rules)
        requires same { rules.now.categories ≡ self.old.categories }
        requires lengths { Insides S.scale (grammar rules.now) self.old.categories self.old.span self.old.memory.now }
        ensures kept { Kept self.old self.new }
        ensures exact { Summed S.scale (grammar rules.now) self.old.categories self.old.span self.new.memory.now }
    {
        for n in 0..self.span {
            self.pairs_of::<S>(rules, n);
        }
    }
}
