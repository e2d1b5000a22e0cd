// How the nodes of a tree are spelt: by the names of a grammar, and the words held.
ghost use Rattle.grammar.specs.Listed.{listed};
ghost use Rattle.sentences.specs.Written.{title, spelled};

use grammar::Closed;
use render::Spelling;

#[derive(Drop)]
pub struct Spelt<'a> {
    pub grammar: &'a Closed,
    pub words: &'a [u16],
}

impl Spelling for Spelt<'_> {
    ghost titles = { λ s. title (listed s.grammar.now.categories) };

    ghost spellings = { λ s. spelled (listed s.grammar.now.words) s.words.now };

    fn category(&self, category: u8) -> &[u8] {
        self.grammar.category_name(category)
    }

    fn word(&self, place: usize) -> &[u8] {
        match self.words.get(place.saturating_sub(1)) {
            Some(word) => self.grammar.word_name(*word),
            None => &[],
        }
    }
}
