// The forms of lines: from a shape to a form, by reading its numbers.
ghost use Rattle.std.specs.Prelude.{◌≡◌, length, vec_items};
ghost use Rattle.lines.specs.Said.{Says};
ghost use Rattle.lines.specs.Shape.{shape_of, shown};
ghost use Rattle.lines.specs.Form.{fitted, number_at, numbers_at, valued};

use crate::fault::{LineFault, Stop};
use crate::line::Line;
use crate::number::number_of;
use crate::reader::{Span, Token};
use crate::shape::ScaleName;
use refusals::Refusal;

// What a line says. Names are places in the line; its numbers are places too until they are read.
#[derive(Drop)]
pub enum Form<N> {
    Top {
        category: Span,
    },
    Chain {
        weight: N,
        category: Span,
        part: Span,
    },
    Binary {
        weight: N,
        category: Span,
        left: Span,
        right: Span,
    },
    Lexical {
        weight: N,
        category: Span,
        word: Span,
    },
    Scale(ScaleName),
    Ladder(Vec<N>),
    Say(Vec<Span>),
}

impl Line<'_> {
    // The shape of the line, or the fault of its form.
    pub fn fitted(&self, tokens: &[Token]) -> Result<Form<Span>, Stop<LineFault>>
        ensures { Says shown result (fitted (length self.now.bytes.now) (shape_of self.now.allowed self.now.bytes.now tokens.now)) }
    {
        let end = self.end();
        self.shape(tokens)
            .map_err(|stop| stop.map(|misfit| misfit.fault(end)))
    }

    fn number(&self, span: Span) -> Result<u16, LineFault>
        ensures { result ≡ number_at self.now.bytes.now span }
    {
        number_of(span.of(self.bytes)).ok_or(LineFault::at(
            Refusal::WrongNumber,
            usize::from(span.start),
        ))
    }

    fn numbers(&self, spans: &[Span]) -> Result<Vec<u16>, Stop<LineFault>>
        ensures { Says vec_items result (numbers_at self.now.bytes.now spans.now) }
    {
        let mut numbers = Vec::new(self.heap);
        for span in spans {
            numbers.push(self.number(*span)?)?;
        }
        Ok(numbers)
    }

    // The form that a shape is, once its numbers are read.
    pub fn valued(&self, shape: Form<Span>) -> Result<Form<u16>, Stop<LineFault>>
        ensures { Says shown result (valued self.now.bytes.now (shown shape)) }
    {
        Ok(match shape {
            Form::Top { category } => Form::Top { category },
            Form::Chain {
                weight,
                category,
                part,
            } => Form::Chain {
                weight: self.number(weight)?,
                category,
                part,
            },
            Form::Binary {
                weight,
                category,
                left,
                right,
            } => Form::Binary {
                weight: self.number(weight)?,
                category,
                left,
                right,
            },
            Form::Lexical {
                weight,
                category,
                word,
            } => Form::Lexical {
                weight: self.number(weight)?,
                category,
                word,
            },
            Form::Scale(name) => Form::Scale(name),
            Form::Ladder(ceilings) => Form::Ladder(self.numbers(&ceilings)?),
            Form::Say(words) => Form::Say(words),
        })
    }
}
