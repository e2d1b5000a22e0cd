// Sentence files: a grammar in bracketed lines, then sentences, each answered by one line with its cheapest tree or its refusal.
#![tactic(auto)]

ghost use Rattle.std.specs.Prelude.{IfOk, OnOk};
ghost use Rattle.sentences.specs.Lines.{numbered};
ghost use Rattle.sentences.specs.Preamble.{told};
ghost use Rattle.sentences.specs.Answers.{ByTop, LinesTold, Answers};

mod desk;
mod preamble;
mod printing;
mod serving;
mod spelling;
#[cfg(test)]
mod tests;
mod text;

use lines::ScaleName;
use preamble::Preamble;
use scale::{Sum, Worst};
use serving::{answer_lines, serve};
use std::alloc::{AllocError, Global};
use text::Lines;

// Answers the lines from the first sentence on, by what was said before it.
fn answer_sentences(
    heap: Global,
    preamble: Preamble,
    sentences: Lines<'_>,
    out: &mut Vec<u8>,
) -> Result<(), AllocError>
    ensures { OnOk result (LinesTold (ByTop (told preamble).draft.top (told preamble)) (numbered sentences.entry.passed sentences.entry.rest.now) out.old.items out.new.items) }
{
    let Preamble {
        draft,
        scale,
        ladder,
    } = preamble;
    let ceilings = ladder.unwrap_or(Vec::new(heap));
    let mut grammar = match draft.close() {
        Ok(grammar) => grammar,
        Err((mut fault, _draft)) => {
            return answer_lines(heap, &mut fault.refusal, sentences, out);
        }
    };
    match scale.unwrap_or(ScaleName::Sum) {
        ScaleName::Sum => serve::<Sum>(heap, &mut grammar, &ceilings, sentences, out),
        ScaleName::Worst => serve::<Worst>(heap, &mut grammar, &ceilings, sentences, out),
    }
}

// What a sentence file is answered: a line for each sentence and for each line that is refused.
pub fn answers(heap: Global, text: &[u8]) -> Result<Vec<u8>, AllocError>
    ensures { IfOk result (λ out. Answers text.now out.items) }
{
    let mut out = Vec::new(heap);
    let mut preamble = Preamble::new(heap);
    let sentences = preamble.read(heap, Lines::new(text), &mut out)?;
    answer_sentences(heap, preamble, sentences, &mut out)?;
    Ok(out)
}
