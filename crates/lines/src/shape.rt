// The shape of a line: its brackets, its head and its parts, with the parts that are numbers still unread.
ghost use Rattle.std.specs.Prelude.{◌≡◌, ℕ, ◌+◌, ◌^◌, ◌<◌, ◌≤◌, [], length, IfOk};
ghost use Rattle.lines.specs.declared.fault.Stop.TheVariants.{Refusal};
ghost use Rattle.lines.specs.Said.{Says};
ghost use Rattle.lines.specs.Run.{run};
ghost use Rattle.lines.specs.Form.{misfit_at};
ghost use Rattle.lines.specs.Shape.{deeper, unpaired_at, first, rest, as_opening, as_closing, as_end, as_part, as_more, taken, left, Gave, head_of, permits, head_part, top_of, rule_of, lex_of, scale_named, scale_of, parts_on, by_head, shape_of, shown};

use crate::fault::{LineFault, Stop};
use crate::form::Form;
use crate::line::Line;
use crate::reader::{Span, Token};
use refusals::Refusal;
use std::alloc::Global;
use std::slice::Iter;

#[derive(Clone, Copy, PartialEq, Eq, Debug)]
pub enum ScaleName {
    Sum,
    Worst,
}

// Which heads may stand at a place; `say` always may.
#[derive(Clone, Copy)]
pub struct Allowed {
    // top, rule and lex
    pub grammar: bool,
    pub scale: bool,
    pub ladder: bool,
}

#[derive(Clone, Copy)]
pub enum Head {
    Top,
    Rule,
    Lex,
    Scale,
    Ladder,
    Say,
}

impl Head {
    fn named(word: &[u8]) -> Option<Head>
        ensures { result ≡ head_of word.now }
    {
        match word {
            b"top" => Some(Head::Top),
            b"rule" => Some(Head::Rule),
            b"lex" => Some(Head::Lex),
            b"scale" => Some(Head::Scale),
            b"ladder" => Some(Head::Ladder),
            b"say" => Some(Head::Say),
            _ => None,
        }
    }
}

impl Allowed {
    fn permits(self, head: Head) -> bool
        ensures { result ≡ permits self head }
    {
        match head {
            Head::Top | Head::Rule | Head::Lex => self.grammar,
            Head::Scale => self.scale,
            Head::Ladder => self.ladder,
            Head::Say => true,
        }
    }
}

// What does not fit the form of a line: the token at a place, or one that is missing.
#[derive(Clone, Copy)]
pub enum Misfit {
    At(u16),
    Missing,
}

impl Misfit {
    // The fault of a line that ends at `end`; what is missing is missing there.
    pub fn fault(self, end: u16) -> LineFault
        ensures { result ≡ misfit_at end self }
    {
        let at = match self {
            Misfit::At(at) => at,
            Misfit::Missing => end,
        };
        LineFault::at(Refusal::WrongForm, usize::from(at))
    }
}

impl From<Misfit> for Stop<Misfit> {
    ghost from_gives = { λ e r. r ≡ Refusal e };

    fn from(e: Misfit) -> Stop<Misfit> {
        Stop::Refusal(e)
    }
}

// How many brackets are open after a token, or the place of a closing one with none open.
fn deeper(depth: usize, token: Token) -> Result<usize, u16>
    requires { depth + 1 < 2 ^ 64 }
    ensures value { result ≡ deeper depth token }
    ensures bound { IfOk result (λ d. d ≤ depth + 1) }
{
    match token {
        Token::Opening { .. } => Ok(depth + 1),
        Token::Closing { at } if depth == 0 => Err(at),
        Token::Closing { .. } => Ok(depth - 1),
        Token::Part(_) => Ok(depth),
    }
}

// How many brackets are open after all tokens.
fn depth(tokens: &[Token]) -> Result<usize, u16>
    ensures { result ≡ run deeper 0 tokens.now }
{
    let mut depth = 0;
    for token in tokens {
        depth = deeper(depth, *token)?;
    }
    Ok(depth)
}

// The place of the bracket that does not pair in a line that ends at `end`.
pub fn unpaired_at(tokens: &[Token], end: u16) -> Option<u16>
    ensures { result ≡ unpaired_at end tokens.now }
{
    match depth(tokens) {
        Ok(0) => None,
        Ok(_) => Some(end),
        Err(at) => Some(at),
    }
}

// The name of a scale, which stands at `span`.
fn scale_named(span: Span, word: &[u8]) -> Result<ScaleName, Misfit>
    ensures { result ≡ scale_named span word.now }
{
    match word {
        b"sum" => Ok(ScaleName::Sum),
        b"worst" => Ok(ScaleName::Worst),
        _ => Err(Misfit::At(span.start)),
    }
}

// The next token of a line, or its end, as what is wanted there. A part or an opening bracket is missing where a
// closing bracket or the end comes.
fn opening(next: Option<Token>) -> Result<(), Misfit>
    ensures { result ≡ as_opening next }
{
    match next {
        Some(Token::Opening { .. }) => Ok(()),
        Some(Token::Part(span)) => Err(Misfit::At(span.start)),
        Some(Token::Closing { .. }) | None => Err(Misfit::Missing),
    }
}

fn closing(next: Option<Token>) -> Result<(), Misfit>
    ensures { result ≡ as_closing next }
{
    match next {
        Some(Token::Closing { .. }) => Ok(()),
        Some(token) => Err(Misfit::At(token.start())),
        None => Err(Misfit::Missing),
    }
}

fn end(next: Option<Token>) -> Result<(), Misfit>
    ensures { result ≡ as_end next }
{
    match next {
        None => Ok(()),
        Some(token) => Err(Misfit::At(token.start())),
    }
}

fn part(next: Option<Token>) -> Result<Span, Misfit>
    ensures { result ≡ as_part next }
{
    match next {
        Some(Token::Part(span)) => Ok(span),
        Some(Token::Opening { at }) => Err(Misfit::At(at)),
        Some(Token::Closing { .. }) | None => Err(Misfit::Missing),
    }
}

// One more part, or the closing bracket.
fn more(next: Option<Token>) -> Result<Option<Span>, Misfit>
    ensures { result ≡ as_more next }
{
    match next {
        Some(Token::Closing { .. }) => Ok(None),
        _ => part(next).map(Some),
    }
}

// What is left of the tokens of a line.
#[derive(Drop)]
pub struct Cursor<'a> {
    rest: Iter<'a, Token>,
}

impl<'a> Cursor<'a> {
    // What `read` makes of the next token, or of the end of the line.
    fn take<T, F: FnOnce(Option<Token>) -> Result<T, Misfit>>(
        &mut self,
        read: F,
    ) -> Result<T, Misfit>
        requires { F.pre read (first (left self.old)) }
        ensures read { F.post read (first (left self.old)) result }
        ensures after { left self.new ≡ rest (left self.old) }
    {
        read(self.rest.next().copied())
    }

    fn head(&mut self, line: &Line<'_>) -> Result<Head, Misfit>
        ensures { Gave (λ x. x) result (left self.new) (head_part line.now.allowed line.now.bytes.now (left self.old)) }
    {
        let span = self.take(part)?;
        match Head::named(span.of(line.bytes)) {
            Some(head) if line.allowed.permits(head) => Ok(head),
            _ => Err(Misfit::At(span.start)),
        }
    }

    fn top(&mut self) -> Result<Form<Span>, Misfit>
        ensures { Gave shown result (left self.new) (top_of (left self.old)) }
    {
        let category = self.take(part)?;
        self.take(closing)?;
        Ok(Form::Top { category })
    }

    fn rule(&mut self) -> Result<Form<Span>, Misfit>
        ensures { Gave shown result (left self.new) (rule_of (left self.old)) }
    {
        let weight = self.take(part)?;
        self.take(opening)?;
        let category = self.take(part)?;
        let left = self.take(part)?;
        let shape = match self.take(more)? {
            None => Form::Chain {
                weight,
                category,
                part: left,
            },
            Some(right) => {
                self.take(closing)?;
                Form::Binary {
                    weight,
                    category,
                    left,
                    right,
                }
            }
        };
        self.take(closing)?;
        Ok(shape)
    }

    fn lexical(&mut self) -> Result<Form<Span>, Misfit>
        ensures { Gave shown result (left self.new) (lex_of (left self.old)) }
    {
        let weight = self.take(part)?;
        self.take(opening)?;
        let category = self.take(part)?;
        let word = self.take(part)?;
        self.take(closing)?;
        self.take(closing)?;
        Ok(Form::Lexical {
            weight,
            category,
            word,
        })
    }

    fn scale(&mut self, line: &Line<'_>) -> Result<Form<Span>, Misfit>
        ensures { Gave shown result (left self.new) (scale_of line.now.bytes.now (left self.old)) }
    {
        let span = self.take(part)?;
        let name = scale_named(span, span.of(line.bytes))?;
        self.take(closing)?;
        Ok(Form::Scale(name))
    }

    // The parts up to a closing bracket.
    fn parts(&mut self, heap: Global) -> Result<Vec<Span>, Stop<Misfit>>
        ensures { Says (λ v. (v.items, left self.new)) result (parts_on [] (left self.old)) }
    {
        let mut parts = Vec::new(heap);
        while let Some(part) = self.take(more)? {
            parts.push(part)?;
        }
        Ok(parts)
    }

    fn by_head(&mut self, line: &Line<'_>, head: Head) -> Result<Form<Span>, Stop<Misfit>>
        ensures { Says (λ s. (shown s, left self.new)) result (by_head line.now.bytes.now (left self.old) head) }
    {
        Ok(match head {
            Head::Top => self.top()?,
            Head::Rule => self.rule()?,
            Head::Lex => self.lexical()?,
            Head::Scale => self.scale(line)?,
            Head::Ladder => Form::Ladder(self.parts(line.heap)?),
            Head::Say => Form::Say(self.parts(line.heap)?),
        })
    }
}

impl Line<'_> {
    // The shape that the tokens of the line make.
    pub fn shape(&self, tokens: &[Token]) -> Result<Form<Span>, Stop<Misfit>>
        ensures { Says shown result (shape_of self.now.allowed self.now.bytes.now tokens.now) }
    {
        let mut cursor = Cursor {
            rest: tokens.iter(),
        };
        cursor.take(opening)?;
        let head = cursor.head(self)?;
        let shape = cursor.by_head(self, head)?;
        cursor.take(end)?;
        Ok(shape)
    }
}
