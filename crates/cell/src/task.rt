// What a round is to do.

use derivation::Rules;

// Rules and a text, and what is pruned: all that a bound puts above the ceiling, and nothing where there is no ceiling.
#[derive_where(Clone, Copy; Cost)]
pub struct Task<'a, Cost, B> {
    pub rules: &'a Rules,
    pub text: &'a [u16],
    pub bound: &'a B,
    pub ceiling: Option<Cost>,
}
