// Sessions over a closed grammar: words put and taken back, trials of a word, and tree requests with the promise of the cheapest tree.
#![tactic(auto)]

mod calls;
mod request;
mod sizes;
mod state;
mod trial;

pub use state::Session;
pub use trial::Trial;
