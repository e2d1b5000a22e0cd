// The names of one kind, categories or words, each at the place of its number.
use crate::flaw::{Flaw, Part};
use lines::Stop;
use refusals::Refusal;
use std::alloc::{AllocError, Global};

#[derive(Drop)]
pub struct Names {
    spellings: Vec<Vec<u8>>,
}

impl Names {
    ghost use Rattle.std.specs.Prelude.{◌≡◌, [], ◌∷◌, ◌++◌, length, take, is_ok, if◌then◌else◌, slice_index_or};
    ghost use Rattle.grammar.specs.Listed.{listed, lookup};
    ghost use Rattle.grammar.specs.Adding.{at_part, entering};
    ghost use Rattle.grammar.specs.Answers.{Gives};

    pub fn new(heap: Global) -> Names
        ensures { listed result ≡ [] }
    {
        Names {
            spellings: Vec::new(heap),
        }
    }

    pub fn len(&self) -> usize
        ensures { result ≡ length (listed self.now) }
    {
        self.spellings.len()
    }

    // The spelling of the name with the number `k`; no bytes where there is none.
    pub fn spelling(&self, k: usize) -> &[u8]
        ensures { result.now ≡ slice_index_or (listed self.now) k [] }
    {
        self.spellings.get(k).map_or(&[], |name| name.as_slice())
    }

    // The number of the name; none where it is not held.
    pub fn number(&self, name: &[u8]) -> Option<usize>
        ensures { result ≡ lookup (listed self.now) name.now }
    {
        self.spellings
            .iter()
            .position(|held| held.as_slice() == name)
    }

    // Adds a name after the others.
    fn push(&mut self, name: &[u8]) -> Result<(), AllocError>
        ensures { listed self.new ≡ (if is_ok result then listed self.old ++ name.now ∷ [] else listed self.old) }
    {
        let name = Vec::from_slice(*self.spellings.allocator(), name)?;
        self.spellings.push(name)?;
        Ok(())
    }

    // Keeps the first `n` names.
    pub fn cut(&mut self, n: usize)
        ensures { listed self.new ≡ take n (listed self.old) }
    {
        self.spellings.truncate(n);
    }

    // The number of the name at a part of a line; it is added where it is new and fewer than `most` are held.
    pub fn enter(&mut self, name: &[u8], most: usize, part: Part) -> Result<usize, Stop<Flaw>>
        ensures { Gives (at_part part (entering most (listed self.old) name.now)) (listed self.old) result (listed self.new) }
    {
        if let Some(number) = self.number(name) {
            return Ok(number);
        }
        let held = self.len();
        if held >= most {
            return Err(Stop::Refusal(Flaw {
                refusal: Refusal::GrammarFull,
                part,
            }));
        }
        self.push(name)?;
        Ok(held)
    }
}
