// A closed grammar, on which sessions are opened, and the leases that it gives.
ghost use Rattle.std.specs.Prelude.{◌≡◌, ◌≤◌, length};
ghost use Rattle.grammar.specs.Listed.{listed};

use crate::names::Names;
use derivation::Rules;

#[derive(Drop)]
pub struct Closed {
    pub(crate) rules: Rules,
    pub(crate) categories: Names,
    pub(crate) words: Names,
    pub(crate) number: u16,
    // the most categories that the grammar may have as a draft
    pub(crate) limit: usize,
    // how many leases are out
    pub(crate) out: u8,
    ghost most: { limit ≤ 64 },
    ghost few: { length (listed categories) ≤ limit },
    ghost named: { rules.categories ≡ length (listed categories) },
    ghost known: { rules.vocabulary ≡ length (listed words) },
    ghost leased: { out ≤ 8 },
}

// A lease on a closed grammar. It is not `Drop`: it is handed back, and never falls.
pub struct Lease {
    pub(crate) number: u16,
}
