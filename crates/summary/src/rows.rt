// Rows in a memory, one after another, each with one place for each category; and what the binary rules offer to a row.
ghost use Rattle.std.specs.Prelude.{◌≡◌, ℕ, ◌+◌, ◌*◌, ◌≤◌, length};
ghost use Rattle.derivation.specs.Named.{NamedBinaries};
ghost use Rattle.settle.specs.Column.{Grown};
ghost use Rattle.settle.specs.Offers.{cell, joined as joins};
ghost use Rattle.summary.specs.Memory.{view};
ghost use Rattle.summary.specs.Filling.{Joins};

use crate::step::Sought;
use derivation::BinaryRule;
use scale::Scale;
use settle::Row;

// The row with the number `i`.
pub(crate) fn row_at<C>(rows: &[Option<C>], size: usize, i: usize) -> &[Option<C>]
    requires { i * size + size ≤ length rows.now }
    ensures long { length result.now ≡ size }
    ensures row { cell result.now ≡ view size rows.now (i * size) }
{
    let base = i * size;
    &rows[base..base + size]
}

// Empties a row.
pub(crate) fn empty<C: Copy>(row: &mut [Option<C>])
    ensures { (A : ℕ) → cell row.new A ≡ None }
{
    row.fill(None);
}

// What a rule of this weight makes of two costs.
fn joined<S: Scale>(weight: u16, first: Option<S::Cost>, second: Option<S::Cost>) -> Option<S::Cost>
    ensures { result ≡ joins S.scale weight first second }
{
    match (first, second) {
        (Some(y), Some(z)) => Some(S::join(S::price(weight), S::join(y, z))),
        _ => None,
    }
}

// Offers to a row what the rules make of two others.
pub(crate) fn combine<S: Scale, R: Row<S>>(
    binaries: &[BinaryRule],
    sought: Sought,
    first: &[Option<S::Cost>],
    second: &[Option<S::Cost>],
    row: &mut R,
)
    requires first { R.size row.old ≤ length first.now }
    requires second { R.size row.old ≤ length second.now }
    requires named { NamedBinaries binaries.now (R.size row.old) }
    ensures beside { R.beside row.old row.new }
    ensures grown { Grown S.scale (R.enters row.old) (Joins S.scale sought binaries.now (cell first.now) (cell second.now)) (R.costs row.old) (R.costs row.new) }
{
    for rule in binaries {
        let step = sought.step(*rule);
        if let Some(cost) = joined::<S>(rule.weight, first[step.first], second[step.second]) {
            row.offer(step.into, cost);
        }
    }
}
