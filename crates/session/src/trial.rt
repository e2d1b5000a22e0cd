// A trial: one word replaced for a while. The guard borrows the session's plain record; at its end, on every way out, the earlier word stands again, unless it is kept.
ghost use Rattle.std.specs.Prelude.{◌≡◌};
ghost use Rattle.std.specs.Result.{result_err};
ghost use Rattle.session.specs.State.{state, over};
ghost use Rattle.session.specs.Calls.{refusing, tried, back};

use crate::state::Session;
use grammar::Closed;
use refusals::Refusal;

pub struct Trial<'a> {
    pub(crate) session: &'a mut Session,
    pub(crate) place: usize,
    // the word that stood there, or why the trial is refused
    pub(crate) earlier: Result<u16, Refusal>,
}

impl Drop for Trial<'_> {
    fn drop(self)
        ensures { state self.exit.0.now ≡ back self.entry.earlier (state self.entry.session.now) self.entry.place }
    {
        let Trial {
            session,
            place,
            earlier,
        } = self;
        if let Ok(earlier) = earlier
            && 1 <= place
            && place <= session.words.len()
        {
            session.words[place - 1] = earlier;
        }
    }
}

impl Session {
    // Why a trial of a word at a place, counted from 1, would be refused, if so; nothing is altered.
    pub fn trial_refusal(&self, grammar: &Closed, place: usize, word: u16) -> Option<Refusal>
        ensures { result ≡ refusing (over grammar.now) (state self.now) place word }
    {
        self.admits(grammar, place, word).err()
    }

    // Refuses a trial that may not begin.
    fn admits(&self, grammar: &Closed, place: usize, word: u16) -> Result<(), Refusal>
        ensures { result_err result ≡ refusing (over grammar.now) (state self.now) place word }
    {
        self.knows(grammar, word)?;
        if 1 <= place && place <= self.words.len() {
            Ok(())
        } else {
            Err(Refusal::NoPlace)
        }
    }

    // Writes the word at the place, and answers the one that stood there.
    fn replace(&mut self, grammar: &Closed, place: usize, word: u16) -> Result<u16, Refusal>
        ensures refused { result_err result ≡ refusing (over grammar.now) (state self.old) place word }
        ensures during { state self.new ≡ tried (over grammar.now) (state self.old) place word }
        ensures undone { back result (state self.new) place ≡ state self.old }
    {
        self.admits(grammar, place, word)?;
        let earlier = self.words[place - 1];
        self.words[place - 1] = word;
        Ok(earlier)
    }

    // Begins a trial. One that would be refused changes no word, and remembers why.
    pub fn trial<'a>(&'a mut self, grammar: &Closed, place: usize, word: u16) -> Trial<'a>
        ensures lends { result.session.ghost_name ≡ self.entry.ghost_name }
        ensures refused { result_err result.earlier ≡ refusing (over grammar.now) (state self.old) place word }
        ensures during { state result.session.now ≡ tried (over grammar.now) (state self.old) place word }
        ensures undone { back result.earlier (state result.session.now) result.place ≡ state self.old }
    {
        let earlier = self.replace(grammar, place, word);
        Trial {
            session: self,
            place,
            earlier,
        }
    }
}

impl Trial<'_> {
    // The new word stays.
    pub fn keep(self)
        ensures { state self.exit.0.now ≡ state self.entry.session.now }
    {
        let Trial {
            session: _,
            place: _,
            earlier: _,
        } = self;
    }

    // The earlier word stands again.
    pub fn abandon(self)
        ensures { state self.exit.0.now ≡ back self.entry.earlier (state self.entry.session.now) self.entry.place }
    {}
}
