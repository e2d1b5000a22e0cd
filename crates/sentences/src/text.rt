// The lines of a text, one after the other, each without its line end and with its number.
ghost use Rattle.std.specs.Prelude.{◌≡◌, ℕ, ◌+◌, ◌^◌, ◌<◌, length, drop};
ghost use Rattle.std.specs.Iterator.{YieldsFirstBy, item_count};
ghost use Rattle.sentences.specs.Lines.{numbered};

use lines::line_length;

// A line and its number, counted from 1.
#[derive(Clone, Copy)]
pub struct Line<'a> {
    pub number: usize,
    pub bytes: &'a [u8],
}

#[derive(Clone, Copy)]
pub struct Lines<'a> {
    // what comes after the lines that are passed, and how many these are
    rest: &'a [u8],
    passed: usize,
    ghost counted: { passed + length rest.now < 2 ^ 64 },
}

impl<'a> Lines<'a> {
    pub fn new(text: &'a [u8]) -> Lines<'a>
        ensures rest { result.rest.now ≡ text.now }
        ensures passed { result.passed ≡ 0 }
    {
        Lines {
            rest: text,
            passed: 0,
        }
    }
}

// What follows a line end, if one comes first.
fn past_end(after: &[u8]) -> &[u8]
    ensures { result.now ≡ drop 1 after.now }
{
    match after {
        [_end, rest @ ..] => rest,
        [] => after,
    }
}

impl<'a> Iterator for Lines<'a> {
    type Item = Line<'a>;

    ghost next_gives = { YieldsFirstBy (λ x. (x.number, x.bytes.now)) (λ s. numbered s.passed s.rest.now) };

    ghost remaining = { item_count (λ s. numbered s.passed s.rest.now) };

    #[tactic(auto, using(crate::proofs::Cutting::lines_first))]
    fn next(&mut self) -> Option<Line<'a>> {
        if self.rest.is_empty() {
            return None;
        }
        let (bytes, after) = self.rest.split_at(line_length(self.rest));
        self.passed += 1;
        self.rest = past_end(after);
        Some(Line {
            number: self.passed,
            bytes,
        })
    }
}
