// The rules of a weighted grammar and, in specs/, the theory of its derivations.
#![tactic(auto)]

ghost use Rattle.derivation.specs.Scale.{Scale};
ghost use Rattle.derivation.specs.Pruning.{PruningLosesNothing};
ghost use Rattle.derivation.specs.Ladder.{FirstSuccessIsCheapest};

pub mod rules;
pub mod tables;

pub use rules::{BinaryRule, ChainRule, WordRule};
pub use tables::Rules;

// Holds the theorem by its name: on every kind of cost, a round with a ceiling loses nothing.
pub fn pruning_loses_nothing<C>()
    ensures { (s : Scale C) → PruningLosesNothing s }
{}

// Holds the theorem by its name: the first round that keeps the top has the least cost of all, and its number counts the ceilings below that cost.
pub fn first_success_is_cheapest<C>()
    ensures { (s : Scale C) → FirstSuccessIsCheapest s }
{}
