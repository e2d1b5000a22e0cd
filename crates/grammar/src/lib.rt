// Grammars by name: drafts to which rules are added, closed grammars on which sessions are opened, and their leases.
#![tactic(auto)]

ghost use Rattle.grammar.specs.Added.{LinesAddWhatTheySay};

mod adding;
mod closed;
mod draft;
mod flaw;
mod moving;
mod names;
mod symbols;
mod taking;
#[cfg(test)]
mod tests;

pub use closed::{Closed, Lease};
pub use draft::Draft;
pub use flaw::{Flaw, Part};

// Holds the theorem by its name: a line that is taken adds one rule, or the top, whose numbers are those of the names in the line, and nothing else;
// the names held keep their numbers.
pub fn lines_add_what_they_say()
    ensures { LinesAddWhatTheySay }
{}
