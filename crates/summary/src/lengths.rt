// The least costs of derivations by length: a row for each length, made from the rows of the shorter ones.
ghost use Rattle.std.specs.Prelude.{◌≡◌, ℕ, ◌-◌, ◌*◌, ◌<◌, ◌≤◌, length};
ghost use Rattle.derivation.specs.Grammar.{grammar};
ghost use Rattle.derivation.specs.Named.{At, NamedBinaries};
ghost use Rattle.derivation.specs.declared.rules.WordRule.{WordRule as Lexical};
ghost use Rattle.settle.specs.Column.{Grown};
ghost use Rattle.settle.specs.Offers.{cell, By};
ghost use Rattle.summary.specs.declared.step.Sought.TheVariants.{Whole};
ghost use Rattle.summary.specs.Least.{LeastInside};
ghost use Rattle.summary.specs.Memory.{view};
ghost use Rattle.summary.specs.Filling.{Beside, Words, Joins, Pile, Insides};

use crate::Summary;
use crate::rows::{combine, empty, row_at};
use crate::step::Sought;
use derivation::{BinaryRule, Rules, WordRule};
use scale::Scale;
use settle::{CostRow, Direction, Row, settle};

// Offers the word rules to the row of n words: a single word comes by a word rule.
fn seed<S: Scale, R: Row<S>>(words: &[WordRule], n: usize, row: &mut R)
    requires named { (k : ℕ) (r : Lexical) → At words.now k r → r.category < R.size row.old }
    ensures beside { R.beside row.old row.new }
    ensures grown { Grown S.scale (R.enters row.old) (λ A x. (n ≡ 1) × By words.now (length words.now) (Words S.scale) A x) (R.costs row.old) (R.costs row.new) }
{
    if n != 1 {
        return;
    }
    for rule in words {
        row.offer(usize::from(rule.category), S::price(rule.weight));
    }
}

// Offers to the row of n words what the binary rules make of m words and the others.
fn pair_lengths<S: Scale, R: Row<S>>(
    binaries: &[BinaryRule],
    shorter: &[Option<S::Cost>],
    n: usize,
    row: &mut R,
)
    requires some { 1 ≤ n }
    requires room { (n - 1) * R.size row.old ≤ length shorter.now }
    requires named { NamedBinaries binaries.now (R.size row.old) }
    ensures beside { R.beside row.old row.new }
    ensures grown { Grown S.scale (R.enters row.old) (Pile n (λ m. Joins S.scale Whole binaries.now (view (R.size row.old) shorter.now ((m - 1) * R.size row.old)) (view (R.size row.old) shorter.now ((n - m - 1) * R.size row.old)))) (R.costs row.old) (R.costs row.new) }
{
    let size = row.categories();
    for m in 1..n {
        combine::<S, _>(
            binaries,
            Sought::Whole,
            row_at(shorter, size, m - 1),
            row_at(shorter, size, n - m - 1),
            row,
        );
    }
}

// Makes the row of n words, after the rows of the shorter ones.
fn make_length<S: Scale>(
    rules: &Rules,
    shorter: &[Option<S::Cost>],
    n: usize,
    row: &mut [Option<S::Cost>],
)
    requires some { 1 ≤ n }
    requires room { length shorter.now ≡ (n - 1) * rules.now.categories }
    requires long { length row.old ≡ rules.now.categories }
    requires before { Insides S.scale (grammar rules.now) rules.now.categories (n - 1) shorter.now }
    ensures { (A : ℕ) → LeastInside S.scale (grammar rules.now) A n (cell row.new A) }
{
    empty(row);
    let mut row = CostRow(row);
    seed::<S, _>(rules.lexical.as_slice(), n, &mut row);
    pair_lengths::<S, _>(rules.binaries.as_slice(), shorter, n, &mut row);
    settle::<S, _>(rules.chains.as_slice(), Direction::Up, &mut row);
}

impl<'a, C: Copy> Summary<'a, C> {
    ghost use Rattle.summary.specs.Kept.{Kept};

    // Makes the row of n words.
    fn length_row<S: Scale<Cost = C>>(&mut self, rules: &Rules, n: usize)
        requires same { rules.now.categories ≡ self.old.categories }
        requires some { 1 ≤ n }
        requires within { n ≤ self.old.span }
        requires before { Insides S.scale (grammar rules.now) self.old.categories (n - 1) self.old.memory.now }
        ensures kept { Kept self.old self.new }
        ensures exact { Insides S.scale (grammar rules.now) self.old.categories n self.new.memory.now }
        ensures beside { Beside self.old.categories ((n - 1) * self.old.categories) self.old.memory.now self.new.memory.now }
    {
        let memory = &mut *self.memory;
        let (shorter, rest) = memory.split_at_mut((n - 1) * self.categories);
        make_length::<S>(rules, shorter, n, &mut rest[..self.categories]);
    }

    // Makes the rows of all lengths up to the span.
    pub(crate) fn fill_lengths<S: Scale<Cost = C>>(&mut self, rules: &Rules)
        requires { rules.now.categories ≡ self.old.categories }
        ensures kept { Kept self.old self.new }
        ensures exact { Insides S.scale (grammar rules.now) self.old.categories self.old.span self.new.memory.now }
        ensures past { (k : ℕ) → self.old.span * self.old.categories ≤ k → cell self.new.memory.now k ≡ cell self.old.memory.now k }
    {
        for n in 1..=self.span {
            self.length_row::<S>(rules, n);
        }
    }
}
