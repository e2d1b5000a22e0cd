// One cell: the categories over one stretch of words, from the costs of shorter stretches, under offers that the pruning gate lets pass.
#![tactic(auto)]

mod binaries;
mod cell;
mod chains;
mod offers;
mod task;
mod whole;
mod words;

pub use task::Task;
pub use whole::fill;
