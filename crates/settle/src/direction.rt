// Which way chain rules are followed.
ghost use Rattle.std.specs.Prelude.{◌≡◌};
ghost use Rattle.settle.specs.Chains.{source, target};

use derivation::ChainRule;

#[derive(Clone, Copy)]
pub enum Direction {
    // from the part to the category
    Up,
    // from the category to the part
    Down,
}

impl Direction {
    // The category that a rule leads from, and the one that it leads to.
    pub(crate) fn ends(self, rule: &ChainRule) -> (usize, usize)
        ensures from { result.0 ≡ source self rule.now }
        ensures to { result.1 ≡ target self rule.now }
    {
        let category = usize::from(rule.category);
        let part = usize::from(rule.part);
        match self {
            Direction::Up => (part, category),
            Direction::Down => (category, part),
        }
    }
}
