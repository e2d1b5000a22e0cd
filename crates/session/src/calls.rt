// Opening and closing a session, putting words and taking them back.
ghost use Rattle.std.specs.Prelude.{◌≡◌, cond, Ok, Err, nat_lt};
ghost use Rattle.refusals.specs.declared.Refusal.TheVariants.{OtherGrammar, UnknownWord};
ghost use Rattle.grammar.specs.Moving.{sealed, drawn};
ghost use Rattle.session.specs.State.{state, over};
ghost use Rattle.session.specs.Calls.{fits, putting, put as after_put, taking, taken};
ghost use Rattle.session.specs.Opening.{Opening, closing, closed};

use crate::state::Session;
use arrayvec::ArrayVec;
use grammar::{Closed, Lease};
use refusals::Refusal;

impl Session {
    // Refuses a grammar that is not the session's.
    pub(crate) fn fits(&self, grammar: &Closed) -> Result<(), Refusal>
        ensures { result ≡ cond (fits (over grammar.now) (state self.now)) (Ok tt) (Err OtherGrammar) }
    {
        if self.number == grammar.number() {
            Ok(())
        } else {
            Err(Refusal::OtherGrammar)
        }
    }

    // Refuses another grammar, and a word that the grammar lacks.
    pub(crate) fn knows(&self, grammar: &Closed, word: u16) -> Result<(), Refusal>
        ensures { result ≡ cond (fits (over grammar.now) (state self.now)) (cond (nat_lt word (over grammar.now).grammar.vocabulary) (Ok tt) (Err UnknownWord)) (Err OtherGrammar) }
    {
        self.fits(grammar)?;
        if usize::from(word) < grammar.rules().vocabulary {
            Ok(())
        } else {
            Err(Refusal::UnknownWord)
        }
    }

    // Opens a session with no words, and with it a lease on the grammar; a ninth lease out is refused.
    pub fn open(grammar: &mut Closed) -> Result<(Session, Lease), Refusal>
        ensures answer { Opening grammar.old result }
        ensures after { sealed grammar.new ≡ drawn grammar.old }
    {
        let lease = grammar.draw()?;
        Ok((
            Session {
                words: ArrayVec::new(),
                tally: 0,
                number: grammar.number(),
            },
            lease,
        ))
    }

    // Closes a session and gives its lease back, or hands both back as they were.
    pub fn close(self, lease: Lease, grammar: &mut Closed) -> Result<(), (Refusal, Session, Lease)>
        ensures answer { result ≡ closing grammar.old self lease }
        ensures after { sealed grammar.new ≡ closed grammar.old self lease }
    {
        match self.fits(grammar) {
            Ok(()) => grammar
                .take_in(lease)
                .map_err(|(refusal, lease)| (refusal, self, lease)),
            Err(refusal) => Err((refusal, self, lease)),
        }
    }

    // Adds one word at the end, and answers the new count.
    pub fn put(&mut self, grammar: &Closed, word: u16) -> Result<usize, Refusal>
        ensures answer { result ≡ putting (over grammar.now) (state self.old) word }
        ensures after { state self.new ≡ after_put (over grammar.now) (state self.old) word }
        ensures number { self.new.number ≡ self.old.number }
    {
        self.knows(grammar, word)?;
        if self.words.is_full() {
            return Err(Refusal::SessionFull);
        }
        self.words.push(word);
        Ok(self.words.len())
    }

    // Removes the last k words, and answers the new count.
    pub fn take_back(&mut self, grammar: &Closed, k: usize) -> Result<usize, Refusal>
        ensures answer { result ≡ taking (over grammar.now) (state self.old) k }
        ensures after { state self.new ≡ taken (over grammar.now) (state self.old) k }
        ensures number { self.new.number ≡ self.old.number }
    {
        self.fits(grammar)?;
        let left = self.words.len().checked_sub(k).ok_or(Refusal::NoPlace)?;
        self.words.truncate(left);
        Ok(left)
    }

    // How many trees the session has handed out.
    pub fn tally(&self) -> u32
        ensures { result ≡ (state self.now).tally }
    {
        self.tally
    }

    // The words held, by their numbers.
    pub fn words(&self) -> &[u16]
        ensures { result.now ≡ (state self.now).held }
    {
        &self.words
    }
}
