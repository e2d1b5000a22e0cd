// The lines before the first sentence: the grammar, the scale and the ladder.
ghost use Rattle.std.specs.Prelude.{◌≡◌, OnOk, IfOk};
ghost use Rattle.sentences.specs.Lines.{numbered};
ghost use Rattle.sentences.specs.Preamble.{told, untold, telling, Takes, opened};

use crate::printing::{faulted, refused};
use crate::text::Lines;
use grammar::Draft;
use lines::{Allowed, Form, LineFault, ScaleName, Stop, read_line};
use std::alloc::{AllocError, Global};
use std::ops::ControlFlow;

// The number that the program gives its one grammar, and the most categories that it takes.
const NUMBER: u16 = 1;

const CATEGORIES: usize = 32;

// What was said so far.
#[derive(Drop)]
pub struct Preamble {
    pub draft: Draft,
    pub scale: Option<ScaleName>,
    pub ladder: Option<Vec<u16>>,
}

impl Preamble {
    pub fn new(heap: Global) -> Preamble
        ensures { told result ≡ untold }
    {
        Preamble {
            draft: Draft::new(heap, NUMBER, CATEGORIES),
            scale: None,
            ladder: None,
        }
    }

    // Takes one line; a sentence breaks off.
    fn take(&mut self, heap: Global, line: &[u8]) -> Result<ControlFlow<()>, Stop<LineFault>>
        ensures { Takes (telling (told self.old) line.now) (told self.old) result (told self.new) }
    {
        let allowed = Allowed {
            grammar: true,
            scale: self.scale.is_none(),
            ladder: self.ladder.is_none(),
        };
        match read_line(heap, line, allowed)? {
            None => {}
            Some(Form::Say(_)) => return Ok(ControlFlow::Break(())),
            Some(Form::Scale(name)) => self.scale = Some(name),
            Some(Form::Ladder(ceilings)) => self.ladder = Some(ceilings),
            Some(form) => self.draft.take(line, &form)?,
        }
        Ok(ControlFlow::Continue(()))
    }

    // Takes the lines up to the first sentence that is free of faults of text and form; answers the lines from it on.
    pub fn read<'a>(
        &mut self,
        heap: Global,
        lines: Lines<'a>,
        out: &mut Vec<u8>,
    ) -> Result<Lines<'a>, AllocError>
        ensures { IfOk result (λ sentences. opened (numbered lines.entry.passed lines.entry.rest.now) (told self.old) out.old.items ≡ record { told = told self.new; written = out.new.items; sentences = numbered sentences.passed sentences.rest.now }) }
    {
        // the line that is read, and those after it
        let mut sentences = lines;
        for line in lines {
            match faulted(self.take(heap, line.bytes))? {
                Ok(ControlFlow::Break(())) => return Ok(sentences),
                Ok(ControlFlow::Continue(())) => {}
                Err(fault) => refused(out, fault.refusal, line.number)?,
            }
            sentences.next();
        }
        Ok(sentences)
    }
}
