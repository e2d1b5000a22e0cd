// How a binary rule is put to use.
ghost use Rattle.std.specs.Prelude.{◌≡◌};
ghost use Rattle.summary.specs.Filling.{step as stepped, across};

use derivation::BinaryRule;

// The side of a rule on which the gap stands.
#[derive(Clone, Copy)]
pub enum Side {
    Left,
    Right,
}

// What is sought: the cost of a rule's category from its parts, or that around one part from its category and the other part.
#[derive(Clone, Copy)]
pub enum Sought {
    Whole,
    Gap(Side),
}

// The category that gets a cost, and the two that it comes from.
#[derive(Clone, Copy)]
pub struct Step {
    pub into: usize,
    pub first: usize,
    pub second: usize,
}

impl Side {
    // How many words stand across from a gap.
    pub(crate) fn across(self, left: usize, right: usize) -> usize
        ensures { result ≡ across self left right }
    {
        match self {
            Side::Left => right,
            Side::Right => left,
        }
    }
}

impl Sought {
    // How a rule is put to use for what is sought.
    pub(crate) fn step(self, rule: BinaryRule) -> Step
        ensures { result ≡ stepped self rule }
    {
        let category = usize::from(rule.category);
        let left = usize::from(rule.left);
        let right = usize::from(rule.right);
        match self {
            Sought::Whole => Step {
                into: category,
                first: left,
                second: right,
            },
            Sought::Gap(Side::Left) => Step {
                into: left,
                first: category,
                second: right,
            },
            Sought::Gap(Side::Right) => Step {
                into: right,
                first: category,
                second: left,
            },
        }
    }
}
