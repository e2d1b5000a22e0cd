// What is wrong with a line that a draft refuses: the cause, and which part of the line is at fault.
use refusals::Refusal;

#[derive(Clone, Copy, PartialEq, Eq, Debug)]
pub enum Part {
    // the line as a whole
    Line,
    // the category that the line gives something
    Category,
    // the first thing given: a word or a category
    First,
    // the second category of a binary rule
    Second,
}

#[derive(Clone, Copy)]
pub struct Flaw {
    pub refusal: Refusal,
    pub part: Part,
}

// A refusal of the line as a whole.
impl From<Refusal> for Flaw {
    ghost use Rattle.std.specs.Prelude.{◌≡◌};
    ghost use Rattle.grammar.specs.declared.flaw.Part.TheVariants.{Line};

    ghost from_gives = { λ e r. r ≡ record { refusal = e; part = Line } };

    fn from(refusal: Refusal) -> Flaw {
        Flaw {
            refusal,
            part: Part::Line,
        }
    }
}
