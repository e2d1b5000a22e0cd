// Adding to a draft: names get their numbers, and then a rule or the top stands there.
ghost use Rattle.std.specs.Prelude.{◌≡◌, ◌<◌, length, nat_lt, is_ok, OnErr, if◌then◌else◌};
ghost use Rattle.std.specs.Fn.{FnOnceReturnsAtMut};
ghost use Rattle.grammar.specs.declared.draft.Draft.{Draft};
ghost use Rattle.grammar.specs.Listed.{listed};
ghost use Rattle.grammar.specs.Seen.{Fit, rules, empty};
ghost use Rattle.grammar.specs.Drafts.{seen};
ghost use Rattle.grammar.specs.Adding.{naming, heading, wording, put_top, adding_top, adding_lexical, adding_chain, adding_binary};
ghost use Rattle.grammar.specs.Answers.{Alters, Gives};
ghost use Rattle.grammar.specs.Trying.{cut_to, Later, Tries};

use crate::draft::Draft;
use crate::flaw::{Flaw, Part};
use crate::names::Names;
use crate::symbols::put;
use derivation::{BinaryRule, ChainRule, WordRule};
use lines::Stop;
use refusals::Refusal;
use std::alloc::Global;

// The most categories that any grammar may have, the most words, and the most rules.
const CATEGORIES: usize = 64;

const WORDS: usize = 512;

const RULES: usize = 1024;

impl Draft {
    // An empty draft. It takes at most `most` categories, and never more than 64.
    pub fn new(heap: Global, number: u16, most: usize) -> Draft
        ensures { seen result ≡ empty number most }
    {
        Draft {
            number,
            limit: most.min(CATEGORIES),
            top: None,
            categories: Names::new(heap),
            words: Names::new(heap),
            lexical: Vec::new(heap),
            chains: Vec::new(heap),
            binaries: Vec::new(heap),
        }
    }

    // Whether there is room for one more rule.
    fn has_room(&self) -> bool
        ensures { result ≡ nat_lt (rules (seen self.now)) 1024 }
    {
        self.lexical.len() + self.chains.len() + self.binaries.len() < RULES
    }

    // The number of the category that stands at a part of the line.
    fn category(&mut self, name: &[u8], part: Part) -> Result<u8, Stop<Flaw>>
        ensures { Gives (naming part (seen self.old) name.now) (seen self.old) result (seen self.new) }
    {
        let number = self.categories.enter(name, self.limit, part)?;
        Ok(number as u8)
    }

    // The number of the category that a rule is for, if there is room for one more rule.
    fn head(&mut self, name: &[u8]) -> Result<u8, Stop<Flaw>>
        ensures { Gives (heading (seen self.old) name.now) (seen self.old) result (seen self.new) }
    {
        if !self.has_room() {
            return Err(Stop::Refusal(Refusal::GrammarFull.into()));
        }
        self.category(name, Part::Category)
    }

    // The number of the word of a line.
    fn word(&mut self, name: &[u8]) -> Result<u16, Stop<Flaw>>
        ensures { Gives (wording (seen self.old) name.now) (seen self.old) result (seen self.new) }
    {
        let number = self.words.enter(name, WORDS, Part::First)?;
        Ok(number as u16)
    }

    fn put_top(&mut self, category: u8) -> Result<(), Stop<Flaw>>
        requires { category < length (listed self.old.categories) }
        ensures { Alters (put_top (seen self.old) category) (seen self.old) result (seen self.new) }
    {
        if self.top.is_some() {
            return Err(Stop::Refusal(Refusal::WrongTop.into()));
        }
        self.top = Some(category);
        Ok(())
    }

    // Keeps the first names only.
    fn cut(&mut self, categories: usize, words: usize)
        requires { Fit (cut_to categories words (seen self.old)) }
        ensures { seen self.new ≡ cut_to categories words (seen self.old) }
    {
        self.categories.cut(categories);
        self.words.cut(words);
    }

    // Takes the steps of a line; where they stop, the names that they added go again.
    fn attempt<F: FnOnce(&mut Draft) -> Result<(), Stop<Flaw>>>(
        &mut self,
        steps: F,
    ) -> Result<(), Stop<Flaw>>
        requires ready { F.IsAlwaysCallable steps }
        requires names_alone { (answer : _) (after : Draft) → FnOnceReturnsAtMut F.FnOnce steps self.old answer after → OnErr answer (Later (seen self.old) (seen after)) }
        ensures { (tried : Draft) × FnOnceReturnsAtMut F.FnOnce steps self.old result tried × (seen self.new ≡ (if is_ok result then seen tried else seen self.old)) }
    {
        let (categories, words) = (self.categories.len(), self.words.len());
        let tried = steps(self);
        if tried.is_err() {
            self.cut(categories, words);
        }
        tried
    }

    // Adds the line `(top A)`.
    pub fn add_top(&mut self, category: &[u8]) -> Result<(), Stop<Flaw>>
        ensures { Alters (adding_top (seen self.old) category.now) (seen self.old) result (seen self.new) }
    {
        self.attempt(|draft| {
            let category = draft.category(category, Part::Category)?;
            draft.put_top(category)
        })
    }

    // Adds the line `(lex W (A w))`.
    pub fn add_lexical(
        &mut self,
        weight: u16,
        category: &[u8],
        word: &[u8],
    ) -> Result<(), Stop<Flaw>>
        ensures { Alters (adding_lexical (seen self.old) weight category.now word.now) (seen self.old) result (seen self.new) }
    {
        self.attempt(|draft| {
            let category = draft.head(category)?;
            let word = draft.word(word)?;
            put(
                &mut draft.lexical,
                WordRule {
                    category,
                    word,
                    weight,
                },
            )
        })
    }

    // Adds the line `(rule W (A B))`.
    pub fn add_chain(&mut self, weight: u16, category: &[u8], part: &[u8]) -> Result<(), Stop<Flaw>>
        ensures { Alters (adding_chain (seen self.old) weight category.now part.now) (seen self.old) result (seen self.new) }
    {
        self.attempt(|draft| {
            let category = draft.head(category)?;
            let part = draft.category(part, Part::First)?;
            put(
                &mut draft.chains,
                ChainRule {
                    category,
                    part,
                    weight,
                },
            )
        })
    }

    // Adds the line `(rule W (A B C))`.
    pub fn add_binary(
        &mut self,
        weight: u16,
        category: &[u8],
        left: &[u8],
        right: &[u8],
    ) -> Result<(), Stop<Flaw>>
        ensures { Alters (adding_binary (seen self.old) weight category.now left.now right.now) (seen self.old) result (seen self.new) }
    {
        // What the steps do is said here, since the check reaches its limit of steps when it reads it off them.
        self.attempt(
            |draft: &mut Draft| -> Result<(), Stop<Flaw>>
                ensures { Tries (adding_binary (seen draft.old) weight category.entry.now left.entry.now right.entry.now) (seen draft.old) result (seen draft.new) }
            {
                let category = draft.head(category)?;
                let left = draft.category(left, Part::First)?;
                let right = draft.category(right, Part::Second)?;
                put(
                    &mut draft.binaries,
                    BinaryRule {
                        category,
                        left,
                        right,
                        weight,
                    },
                )
            },
        )
    }
}
