// Taking the form of a line into a draft.
ghost use Rattle.std.specs.Prelude.{◌≡◌};
ghost use Rattle.grammar.specs.Drafts.{seen};
ghost use Rattle.grammar.specs.Answers.{Alters};
ghost use Rattle.grammar.specs.Taking.{adding, start_of, taking};

use crate::draft::Draft;
use crate::flaw::{Flaw, Part};
use lines::{Form, LineFault, Stop};

// Where a part of the form starts in its line, counted from 0.
fn start_of(form: &Form<u16>, part: Part) -> u16
    ensures { result ≡ start_of form.now part }
{
    match (form, part) {
        (
            Form::Top { category }
            | Form::Chain { category, .. }
            | Form::Binary { category, .. }
            | Form::Lexical { category, .. },
            Part::Category,
        ) => category.start,
        (
            Form::Chain { part: first, .. }
            | Form::Binary { left: first, .. }
            | Form::Lexical { word: first, .. },
            Part::First,
        ) => first.start,
        (Form::Binary { right, .. }, Part::Second) => right.start,
        _ => 0,
    }
}

impl Draft {
    // Adds what the form says, by the names that stand in the line.
    fn add(&mut self, line: &[u8], form: &Form<u16>) -> Result<(), Stop<Flaw>>
        ensures { Alters (adding (seen self.old) line.now form.now) (seen self.old) result (seen self.new) }
    {
        match form {
            Form::Top { category } => self.add_top(category.of(line)),
            Form::Chain {
                weight,
                category,
                part,
            } => self.add_chain(*weight, category.of(line), part.of(line)),
            Form::Binary {
                weight,
                category,
                left,
                right,
            } => self.add_binary(*weight, category.of(line), left.of(line), right.of(line)),
            Form::Lexical {
                weight,
                category,
                word,
            } => self.add_lexical(*weight, category.of(line), word.of(line)),
            Form::Scale(_) | Form::Ladder(_) | Form::Say(_) => Ok(()),
        }
    }

    // Takes a line of the grammar; a form that is not about rules or the top adds nothing.
    pub fn take(&mut self, line: &[u8], form: &Form<u16>) -> Result<(), Stop<LineFault>>
        ensures { Alters (taking (seen self.old) line.now form.now) (seen self.old) result (seen self.new) }
    {
        self.add(line, form).map_err(|stop| {
            stop.map(|flaw| { LineFault::at(flaw.refusal, usize::from(start_of(form, flaw.part))) })
        })
    }
}
