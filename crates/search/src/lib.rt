// The search for a cheapest tree: rounds up a ladder of ceilings, then the tree out of the last one.
#![tactic(auto)]

pub mod best;
pub mod climb;

pub use best::Tree;
