// The least cost of each category of a row under the chain rules, upward or downward.
#![tactic(auto)]

ghost use Rattle.std.specs.Prelude.{◌≡◌, ◌<◌, ◌≤◌, length, take, IfSome, MatchOption};
ghost use Rattle.derivation.specs.Named.{NamedChains};
ghost use Rattle.settle.specs.Column.{AllOpen, Grown};
ghost use Rattle.settle.specs.Offers.{By};
ghost use Rattle.settle.specs.Chains.{Steps, Picked, chosen, Closed, Settled};

use derivation::ChainRule;
use scale::Scale;

pub mod direction;
pub mod row;

pub use direction::Direction;
pub use row::{CostRow, Row, wanted};

// The place of the first rule that makes a cost of the row cheaper. A category that has no cost is asked for it once.
fn first_lowering<S: Scale, R: Row<S>>(
    chains: &[ChainRule],
    direction: Direction,
    row: &R,
) -> Option<usize>
    requires few { R.size row.now ≤ 64 }
    requires named { NamedChains chains.now (R.size row.now) }
    ensures closed { MatchOption result (Closed S.scale AllOpen direction chains.now (R.costs row.now)) (λ place. Closed S.scale AllOpen direction (take place chains.now) (R.costs row.now)) }
    ensures open { IfSome result (λ place. (place < length chains.now) × (Closed S.scale AllOpen direction chains.now (R.costs row.now) → ⊥)) }
{
    let mut bare = [false; 64];
    for (place, rule) in chains.iter().enumerate() {
        let (from, to) = direction.ends(rule);
        if !bare[from] {
            match row.known(from) {
                None => bare[from] = true,
                Some(cost) => {
                    if wanted::<S>(row.known(to), S::join(S::price(rule.weight), cost)) {
                        return Some(place);
                    }
                }
            }
        }
    }
    None
}

// Follows the rules that lead from one category, which costs so much, to those not settled.
fn relax<S: Scale, R: Row<S>>(
    chains: &[ChainRule],
    direction: Direction,
    row: &mut R,
    settled: &[bool],
    category: usize,
    cost: S::Cost,
)
    requires long { R.size row.old ≤ length settled.now }
    requires named { NamedChains chains.now (R.size row.old) }
    ensures beside { R.beside row.old row.new }
    ensures grown { Grown S.scale (R.enters row.old) (By chains.now (length chains.now) (Steps S.scale direction settled.now category cost)) (R.costs row.old) (R.costs row.new) }
{
    for rule in chains {
        let (from, to) = direction.ends(rule);
        if from == category && !settled[to] {
            row.offer(to, S::join(S::price(rule.weight), cost));
        }
    }
}

// The cheaper of the best so far and one more.
fn better<S: Scale>(
    best: Option<(usize, S::Cost)>,
    category: usize,
    cost: S::Cost,
) -> Option<(usize, S::Cost)>
    ensures { result ≡ chosen S.scale best category cost }
{
    match best {
        Some((place, least)) if !S::above(least, cost) => Some((place, least)),
        _ => Some((category, cost)),
    }
}

// The cheapest category that is not settled.
fn pick<S: Scale, R: Row<S>>(row: &R, settled: &[bool]) -> Option<(usize, S::Cost)>
    requires { R.size row.now ≤ length settled.now }
    ensures { Picked S.scale (R.costs row.now) settled.now (R.size row.now) result }
{
    let mut best = None;
    for category in 0..row.categories() {
        if !settled[category]
            && let Some(cost) = row.known(category)
        {
            best = better::<S>(best, category, cost);
        }
    }
    best
}

// Closes a row under the chain rules, the cheapest open category first; circles of rules, of weight 0 too, do no harm.
pub fn settle<S: Scale, R: Row<S>>(chains: &[ChainRule], direction: Direction, row: &mut R)
    requires few { R.size row.old ≤ 64 }
    requires named { NamedChains chains.now (R.size row.old) }
    ensures beside { R.beside row.old row.new }
    ensures settled { Settled S.scale (R.enters row.old) direction chains.now (R.costs row.old) (R.costs row.new) }
{
    let Some(first) = first_lowering::<S, _>(chains, direction, row) else {
        return;
    };
    let mut settled = [false; 64];
    // as long as nothing was offered, the rules before the first that lowers a cost have nothing to offer
    let mut rules = &chains[first..];
    while let Some(least) = pick::<S, _>(row, &settled) {
        settled[least.0] = true;
        relax::<S, _>(rules, direction, row, &settled, least.0, least.1);
        rules = chains;
    }
}
