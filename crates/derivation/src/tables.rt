// The rules of a grammar that is fit for search: few enough, and every number in them names something.
ghost use Rattle.std.specs.Prelude.{◌+◌, ◌<◌, ◌≤◌, vec_len};
ghost use Rattle.derivation.specs.Named.{NamedWords, NamedChains, NamedBinaries};

use crate::rules::{BinaryRule, ChainRule, WordRule};

#[derive(Drop)]
pub struct Rules {
    pub top: u8,
    pub categories: usize,
    pub vocabulary: usize,
    pub lexical: Vec<WordRule>,
    pub chains: Vec<ChainRule>,
    pub binaries: Vec<BinaryRule>,
    ghost some: { top < categories },
    ghost few: { categories ≤ 64 },
    ghost known: { vocabulary ≤ 512 },
    ghost count: { vec_len lexical + vec_len chains + vec_len binaries ≤ 1024 },
    ghost words: { NamedWords lexical.items categories vocabulary },
    ghost parts: { NamedChains chains.items categories },
    ghost pairs: { NamedBinaries binaries.items categories },
}
