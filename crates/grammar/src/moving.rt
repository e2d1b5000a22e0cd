// Closing a draft, reopening a closed grammar, leases, and what can be asked of a closed grammar.
ghost use Rattle.std.specs.Prelude.{◌≡◌, [], slice_index_or};
ghost use Rattle.grammar.specs.Listed.{listed, lookup};
ghost use Rattle.grammar.specs.Moving.{Closing, Reopening, sealed, drawing, drawn, taking_in, taken_in, Spelled};

use crate::closed::{Closed, Lease};
use crate::draft::Draft;
use derivation::Rules;
use refusals::{Fault, Refusal};

// The most leases out on one grammar.
const LEASES: u8 = 8;

impl Draft {
    // Closes the grammar, or hands the draft back as it was.
    pub fn close(self) -> Result<Closed, (Fault, Draft)>
        ensures { Closing self result }
    {
        let Some(top) = self.top else {
            return Err((
                Fault {
                    refusal: Refusal::WrongTop,
                    line: 0,
                    byte: 0,
                },
                self,
            ));
        };
        let Draft {
            number,
            limit,
            top: _,
            categories,
            words,
            lexical,
            chains,
            binaries,
        } = self;
        let rules = Rules {
            top,
            categories: categories.len(),
            vocabulary: words.len(),
            lexical,
            chains,
            binaries,
        };
        Ok(Closed {
            rules,
            categories,
            words,
            number,
            limit,
            out: 0,
        })
    }
}

impl Closed {
    // Makes a draft of the grammar again, or hands it back as it was.
    pub fn reopen(self) -> Result<Draft, (Refusal, Closed)>
        ensures { Reopening self result }
    {
        if self.out > 0 {
            return Err((Refusal::LeasesOut, self));
        }
        let Closed {
            rules,
            categories,
            words,
            number,
            limit,
            out: _,
        } = self;
        let Rules {
            top,
            categories: _,
            vocabulary: _,
            lexical,
            chains,
            binaries,
        } = rules;
        Ok(Draft {
            number,
            limit,
            top: Some(top),
            categories,
            words,
            lexical,
            chains,
            binaries,
        })
    }

    // Gives a lease; a ninth one out is refused.
    pub fn draw(&mut self) -> Result<Lease, Refusal>
        ensures answer { result ≡ drawing self.old }
        ensures after { sealed self.new ≡ drawn self.old }
    {
        if self.out >= LEASES {
            return Err(Refusal::NinthLease);
        }
        self.out += 1;
        Ok(Lease {
            number: self.number,
        })
    }

    // Takes a lease back, or hands it back as it was.
    pub fn take_in(&mut self, lease: Lease) -> Result<(), (Refusal, Lease)>
        ensures answer { result ≡ taking_in self.old lease }
        ensures after { sealed self.new ≡ taken_in self.old lease }
    {
        if lease.number != self.number || self.out == 0 {
            return Err((Refusal::OtherGrammar, lease));
        }
        let Lease { number: _ } = lease;
        self.out -= 1;
        Ok(())
    }

    // The grammar's number, which its leases have too.
    pub fn number(&self) -> u16
        ensures { result ≡ self.now.number }
    {
        self.number
    }

    pub fn rules(&self) -> &Rules
        ensures { result.now ≡ self.now.rules }
    {
        &self.rules
    }

    // The number of the word that is spelled so.
    pub fn word(&self, spelling: &[u8]) -> Option<u16>
        ensures value { result ≡ lookup (listed self.now.words) spelling.now }
        ensures spelled { Spelled (listed self.now.words) spelling.now result }
    {
        self.words.number(spelling).map(|number| number as u16)
    }

    // The spelling of a category; no bytes where there is none.
    pub fn category_name(&self, category: u8) -> &[u8]
        ensures { result.now ≡ slice_index_or (listed self.now.categories) category [] }
    {
        self.categories.spelling(usize::from(category))
    }

    // The spelling of a word; no bytes where there is none.
    pub fn word_name(&self, word: u16) -> &[u8]
        ensures { result.now ≡ slice_index_or (listed self.now.words) word [] }
    {
        self.words.spelling(usize::from(word))
    }
}
