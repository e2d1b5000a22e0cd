// The tree of a cheapest derivation, read off the table that a finished round leaves.
#![tactic(auto)]

pub mod node;
mod ranks;
mod reader;
mod ways;
mod write;

pub use node::{Kind, Node};
pub use write::extract;
