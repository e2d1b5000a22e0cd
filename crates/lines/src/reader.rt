// The reader: cuts a line into brackets and parts, byte by byte.
ghost use Rattle.std.specs.Prelude.{◌≡◌, ℕ, ◌+◌, ◌^◌, ◌<◌, ◌≤◌, [], ◌∷◌, ◌++◌, length, IfOk, vec_len, OnOk};
ghost use Rattle.lines.specs.Tokens.{bytes_at, start_of, tokens_from};
ghost use Rattle.lines.specs.Moves.{sofar, ended, moved};

use crate::bytes::Class;
use crate::line::Line;
use std::alloc::AllocError;

// A place in a line: from `start` up to `end`, counted from 0. Names are places in the text; nothing is copied.
#[derive(Clone, Copy, PartialEq, Eq, Debug)]
pub struct Span {
    pub start: u16,
    pub end: u16,
}

impl Span {
    // The bytes at the span, as far as they stand in the line.
    pub fn of(self, line: &[u8]) -> &[u8]
        ensures { result.now ≡ bytes_at line.now self }
    {
        let end = usize::from(self.end).min(line.len());
        let start = usize::from(self.start).min(end);
        &line[start..end]
    }
}

#[derive(Clone, Copy)]
pub enum Token {
    Opening { at: u16 },
    Closing { at: u16 },
    Part(Span),
}

impl Token {
    // The place of its first byte.
    pub fn start(self) -> u16
        ensures { result ≡ start_of self }
    {
        match self {
            Token::Opening { at } | Token::Closing { at } => at,
            Token::Part(span) => span.start,
        }
    }
}

#[derive(Drop)]
pub struct Reader {
    at: u16,
    // where the part that is under way started, if one is
    part: Option<u16>,
    tokens: Vec<Token>,
}

impl Reader {
    fn take(&mut self, class: Class) -> Result<(), AllocError>
        requires { self.old.at < 1024 }
        ensures { OnOk result (sofar self.new ≡ moved (sofar self.old) class) }
    {
        let at = self.at;
        self.part = match (self.part, class) {
            (None, Class::Letter) => Some(at),
            (Some(start), Class::Letter) => Some(start),
            (None, Class::Open) => {
                self.tokens.push(Token::Opening { at })?;
                None
            }
            (Some(start), Class::Open) => {
                self.tokens.push(Token::Part(Span { start, end: at }))?;
                self.tokens.push(Token::Opening { at })?;
                None
            }
            (None, Class::Close) => {
                self.tokens.push(Token::Closing { at })?;
                None
            }
            (Some(start), Class::Close) => {
                self.tokens.push(Token::Part(Span { start, end: at }))?;
                self.tokens.push(Token::Closing { at })?;
                None
            }
            (None, Class::Blank | Class::LineEnd | Class::Foreign) => None,
            (Some(start), Class::Blank | Class::LineEnd | Class::Foreign) => {
                self.tokens.push(Token::Part(Span { start, end: at }))?;
                None
            }
        };
        self.at = at + 1;
        Ok(())
    }

    // The tokens, with the part that the line's end ends.
    fn finish(self) -> Result<Vec<Token>, AllocError>
        ensures { IfOk result (λ v. v.items ≡ (sofar self).tokens ++ ended self.part self.at) }
    {
        let Reader {
            at,
            part,
            mut tokens,
        } = self;
        if let Some(start) = part {
            tokens.push(Token::Part(Span { start, end: at }))?;
        }
        Ok(tokens)
    }
}

impl Line<'_> {
    // The brackets and parts of the line.
    pub fn tokens(&self) -> Result<Vec<Token>, AllocError>
        ensures { IfOk result (λ v. v.items ≡ tokens_from 0 self.now.bytes.now) }
    {
        let mut reader = Reader {
            at: 0,
            part: None,
            tokens: Vec::new(self.heap),
        };
        for b in self.bytes {
            reader.take(Class::from(*b))?;
        }
        reader.finish()
    }
}
