// Bracketed lines: from the bytes of a line to the form that it says, or its fault.
#![tactic(auto)]

ghost use Rattle.std.specs.Prelude.{◌≤◌, length, IfOk};
ghost use Rattle.lines.specs.Said.{Says};
ghost use Rattle.lines.specs.Causes.{FaultsHaveCauses};
ghost use Rattle.lines.specs.Form.{tokens_form, line_form, shown_if, InsideIf};

use refusals::Refusal;
use std::alloc::Global;

mod bytes;
mod fault;
mod form;
mod line;
mod number;
mod reader;
mod shape;
#[cfg(test)]
mod tests;

pub use bytes::line_length;
use bytes::{foreign_at, too_long_at};
pub use fault::{LineFault, Stop};
pub use form::Form;
use line::Line;
pub use number::reads_decimal;
pub use reader::Span;
use reader::Token;
use shape::unpaired_at;
pub use shape::{Allowed, ScaleName};

impl Line<'_> {
    // The form that the tokens of the line make, if there are any.
    fn form(&self, tokens: &[Token]) -> Result<Option<Form<u16>>, Stop<LineFault>>
        ensures { Says shown_if result (tokens_form self.now.allowed self.now.bytes.now tokens.now) }
    {
        if tokens.is_empty() {
            return Ok(None);
        }
        if let Some(at) = unpaired_at(tokens, self.end()) {
            return Err(Stop::Refusal(LineFault::at(Refusal::Unpaired, usize::from(at))));
        }
        let shape = self.fitted(tokens)?;
        Ok(Some(self.valued(shape)?))
    }
}

// The form of a line, which is given without its line end; none where it is blank.
// The heads that may stand there are those that `allowed` names.
pub fn read_line(
    heap: Global,
    line: &[u8],
    allowed: Allowed,
) -> Result<Option<Form<u16>>, Stop<LineFault>>
    ensures says { Says shown_if result (line_form allowed line.now) }
    ensures inside { IfOk result (λ o. InsideIf (length line.now) (shown_if o)) }
{
    if let Some(at) = foreign_at(line) {
        return Err(Stop::Refusal(LineFault::at(Refusal::ForeignByte, at)));
    }
    if let Some(at) = too_long_at(line) {
        return Err(Stop::Refusal(LineFault::at(Refusal::TooLong, at)));
    }
    let line = Line {
        heap,
        bytes: line,
        allowed,
    };
    let tokens = line.tokens()?;
    line.form(&tokens)
}

// Each fault of the text and of the brackets is answered exactly where its cause stands first.
pub fn faults_have_causes()
    ensures { FaultsHaveCauses }
{}
