// The summary bound of a grammar: exactly the least cost of each surrounding, made in place in memory that is lent.
#![tactic(auto)]

ghost use Rattle.std.specs.Prelude.{◌≡◌, ◌+◌, ◌*◌, ◌≤◌, length, drop};
ghost use Rattle.derivation.specs.Grammar.{grammar};
ghost use Rattle.summary.specs.Memory.{tri, outer, entries_for, Widest, Summed};

use bound::Bound;
use derivation::Rules;
use pair::row_of;
use rows::row_at;
use scale::Scale;

mod lengths;
mod pair;
mod pairs;
mod rows;
mod step;

const MOST_WORDS: usize = 40;

// The least costs of a grammar of so many categories: of derivations by length, then of surroundings.
#[derive(Drop)]
pub struct Summary<'a, C> {
    memory: &'a mut [Option<C>],
    categories: usize,
    span: usize,
    ghost few: { span ≤ 40 },
    ghost room: { (span + tri span) * categories ≤ length memory.now },
}

// How many rows a span takes: one for each length, and one for each pair.
fn rows_for(span: usize) -> usize
    requires { span ≤ 40 }
    ensures { result ≡ span + tri span }
{
    span * (span + 3) / 2
}

// The greatest span up to 40 whose rows have room in so many entries.
fn widest(categories: usize, room: usize) -> usize
    requires { 1 ≤ categories }
    ensures { Widest categories room result }
{
    let rows = room / categories;
    (0..MOST_WORDS)
        .find(|span| rows < rows_for(*span + 1))
        .unwrap_or(MOST_WORDS)
}

// The summary of a grammar, in the entries that its span takes; the others are left as they are.
pub fn summarize<'a, S: Scale>(
    rules: &Rules,
    memory: &'a mut [Option<S::Cost>],
) -> Summary<'a, S::Cost>
    ensures categories { result.categories ≡ rules.now.categories }
    ensures span { Widest result.categories (length memory.old) result.span }
    ensures exact { Summed S.scale (grammar rules.now) result.categories result.span result.memory.now }
    ensures remains { drop (entries_for result.categories result.span) result.memory.now ≡ drop (entries_for result.categories result.span) memory.old }
    ensures long { length result.memory.now ≡ length memory.old }
    ensures lent { result.memory.ghost_name ≡ memory.entry.ghost_name }
{
    let categories = rules.categories;
    let span = widest(categories, memory.len());
    let mut summary = Summary {
        memory,
        categories,
        span,
    };
    summary.fill_lengths::<S>(rules);
    summary.fill_pairs::<S>(rules);
    summary
}

impl<'a, S: Scale> Bound<S> for Summary<'a, S::Cost> {
    ghost limit = { λ b A l r. outer b.categories b.span b.memory.now A l r };

    ghost reach = { λ b. b.span };

    ghost made = { λ b g. Summed S.Scale.scale g b.categories b.span b.memory.now };

    fn span(&self) -> usize {
        self.span
    }

    fn entry(&self, category: usize, left: usize, right: usize) -> Option<S::Cost> {
        if category >= self.categories || left >= self.span || right >= self.span - left {
            return None;
        }
        let row = row_of(self.span, left, right);
        row_at(self.memory, self.categories, row)[category]
    }
}
