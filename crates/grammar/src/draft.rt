// A grammar to which rules are added.
ghost use Rattle.grammar.specs.Listed.{listed};
ghost use Rattle.grammar.specs.Seen.{Fit};

use crate::names::Names;
use derivation::{BinaryRule, ChainRule, WordRule};

#[derive(Drop)]
pub struct Draft {
    // the number of the grammar, by which its leases are told from others'
    pub(crate) number: u16,
    // the most categories
    pub(crate) limit: usize,
    pub(crate) top: Option<u8>,
    pub(crate) categories: Names,
    pub(crate) words: Names,
    pub(crate) lexical: Vec<WordRule>,
    pub(crate) chains: Vec<ChainRule>,
    pub(crate) binaries: Vec<BinaryRule>,
    // the limits are kept, and every number names something
    ghost fit: { Fit (record { number = number; limit = limit; top = top; categories = listed categories; words = listed words; lexical = lexical.items; chains = chains.items; binaries = binaries.items }) },
}
