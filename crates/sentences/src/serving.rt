// The lines from the first sentence on: each sentence is answered, and every other line that says something is refused.
ghost use Rattle.std.specs.Prelude.{◌≡◌, ℕ, ◌<◌, ◌≤◌, ◌++◌, List, Ok, map, OnOk, option_map, vec_items};
ghost use Rattle.refusals.specs.declared.Refusal.TheVariants.{NinthLease};
ghost use Rattle.lines.specs.declared.reader.Span.{Span as Words};
ghost use Rattle.lines.specs.Said.{Says};
ghost use Rattle.sentences.specs.Lines.{numbered};
ghost use Rattle.sentences.specs.Sentence.{language, SentenceTold};
ghost use Rattle.sentences.specs.Answers.{sentence, Refusing, LinesTold};

use crate::desk::{Desk, Held, Room, priced};
use crate::printing::{faulted, handed, refused};
use crate::spelling::Spelt;
use crate::text::{Line, Lines};
use grammar::Closed;
use lines::{Allowed, Form, LineFault, Span, Stop, read_line};
use refusals::Refusal;
use scale::Scale;
use session::Session;
use std::alloc::{AllocError, Global};
use std::fmt::Display;

// What answers the sentences of a file: a desk where they are parsed, or a refusal of them all.
pub trait Answering {
    // which text answers a sentence, by the line's number, the line and the places of the words in it
    ghost answers: { Self → ℕ → List ℕ → List Words → List ℕ → Type 0 };

    // the number of the session, or 0 where there is none
    ghost session: { Self → ℕ };

    // Answers one sentence.
    fn answer(
        &mut self,
        line: Line<'_>,
        words: &[Span],
        out: &mut Vec<u8>,
    ) -> Result<(), AllocError>
        ensures text { OnOk result ((text : List ℕ) × answers self.old line.entry.number line.entry.bytes.now words.now text × (out.new.items ≡ out.old.items ++ text)) }
        ensures same { (number : ℕ) (bytes : List ℕ) (places : List Words) (text : List ℕ) → answers self.new number bytes places text → answers self.old number bytes places text }
        ensures session { session self.new ≡ session self.old };
}

impl Answering for Refusal {
    ghost answers = { Refusing };

    ghost session = { λ _. 0 };

    fn answer(
        &mut self,
        line: Line<'_>,
        _words: &[Span],
        out: &mut Vec<u8>,
    ) -> Result<(), AllocError> {
        refused(out, *self, line.number)
    }
}

impl<S: Scale> Answering for Desk<'_, S>
where
    S::Cost: Display,
{
    ghost answers = { λ desk. SentenceTold S.Scale.scale S.Cost.Display.output (language desk.held.grammar.now) desk.ladder.items };

    ghost session = { λ desk. desk.held.session.number };

    fn answer(
        &mut self,
        line: Line<'_>,
        words: &[Span],
        out: &mut Vec<u8>,
    ) -> Result<(), AllocError> {
        match self.parse(line.bytes, words) {
            Ok(tree) => {
                let held = &self.held;
                let names = Spelt {
                    grammar: held.grammar,
                    words: held.session.words(),
                };
                handed(out, &names, &tree, self.room.nodes())
            }
            Err(refusal) => refused(out, refusal, line.number),
        }
    }
}

// The places of the words of a sentence; none where the line is blank, as every other head is at a wrong place.
fn spoken(heap: Global, line: &[u8]) -> Result<Option<Vec<Span>>, Stop<LineFault>>
    ensures { Says (option_map vec_items) result (sentence line.now) }
{
    let allowed = Allowed {
        grammar: false,
        scale: false,
        ladder: false,
    };
    match read_line(heap, line, allowed)? {
        Some(Form::Say(words)) => Ok(Some(words)),
        _ => Ok(None),
    }
}

// Answers the lines in turn.
pub fn answer_lines<A: Answering>(
    heap: Global,
    desk: &mut A,
    lines: Lines<'_>,
    out: &mut Vec<u8>,
) -> Result<(), AllocError>
    ensures told { OnOk result (LinesTold (A.answers desk.old) (numbered lines.entry.passed lines.entry.rest.now) out.old.items out.new.items) }
    ensures session { A.session desk.new ≡ A.session desk.old }
{
    for line in lines {
        match faulted(spoken(heap, line.bytes))? {
            Ok(Some(words)) => desk.answer(line, &words, out)?,
            Ok(None) => {}
            Err(fault) => refused(out, fault.refusal, line.number)?,
        }
    }
    Ok(())
}

// Opens a session over the grammar, answers the lines in it, and closes it.
pub fn serve<S: Scale>(
    heap: Global,
    grammar: &mut Closed,
    weights: &[u16],
    lines: Lines<'_>,
    out: &mut Vec<u8>,
) -> Result<(), AllocError>
where
    S::Cost: Display,
    ensures leased { OnOk result (grammar.old.out < 8 → LinesTold (SentenceTold S.Scale.scale S.Cost.Display.output (language grammar.old) (map S.Scale.scale.price weights.now)) (numbered lines.entry.passed lines.entry.rest.now) out.old.items out.new.items) }
    ensures ninth { OnOk result (8 ≤ grammar.old.out → LinesTold (Refusing NinthLease) (numbered lines.entry.passed lines.entry.rest.now) out.old.items out.new.items) }
{
    let ladder = priced::<S>(heap, weights)?;
    let room = Room::new(heap, S::start(), grammar.rules().categories)?;
    let (session, lease) = match Session::open(grammar) {
        Ok(pair) => pair,
        Err(mut refusal) => return answer_lines(heap, &mut refusal, lines, out),
    };
    let mut desk = Desk::<S> {
        held: Held { grammar, session },
        ladder,
        room,
    };
    let served = answer_lines(heap, &mut desk, lines, out);
    match desk.leave().close(lease, grammar) {
        Ok(()) => served,
        Err(_back) => unreachable(),
    }
}
