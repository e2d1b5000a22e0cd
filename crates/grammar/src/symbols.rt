// Rules by their symbols: the weight does not tell two rules apart.
ghost use Rattle.std.specs.Prelude.{◌≡◌, Bool, false, [], ◌∷◌, ◌++◌, is_ok, if◌then◌else◌, ◌==◌};
ghost use Rattle.std.specs.List.{list_any};
ghost use Rattle.grammar.specs.Adding.{putting};
ghost use Rattle.grammar.specs.Answers.{Alters};

use crate::flaw::Flaw;
use derivation::{BinaryRule, ChainRule, WordRule};
use lines::Stop;
use refusals::Refusal;

pub trait Symbols: Copy {
    type Key: PartialEq + Copy;

    ghost key: { Self → Self.Key };

    ghost loops: { Self → Bool };

    // The rule without its weight.
    fn symbols(self) -> Self::Key
        ensures { result ≡ key self };

    // Whether a category is chained to itself.
    fn is_loop(self) -> bool
        ensures { result ≡ loops self };
}

impl Symbols for WordRule {
    type Key = (u8, u16);

    ghost key = { λ r. (r.category, r.word) };

    ghost loops = { λ _. false };

    fn symbols(self) -> Self::Key {
        (self.category, self.word)
    }

    fn is_loop(self) -> bool {
        false
    }
}

impl Symbols for ChainRule {
    type Key = (u8, u8);

    ghost key = { λ r. (r.category, r.part) };

    ghost loops = { λ r. r.category == r.part };

    fn symbols(self) -> Self::Key {
        (self.category, self.part)
    }

    fn is_loop(self) -> bool {
        self.category == self.part
    }
}

impl Symbols for BinaryRule {
    type Key = (u8, (u8, u8));

    ghost key = { λ r. (r.category, (r.left, r.right)) };

    ghost loops = { λ _. false };

    fn symbols(self) -> Self::Key {
        (self.category, (self.left, self.right))
    }

    fn is_loop(self) -> bool {
        false
    }
}

// Whether a rule with the symbols of `rule` is held.
fn holds<R: Symbols>(rules: &[R], rule: R) -> bool
    ensures { result ≡ list_any (λ o. R.Key.eq (R.key rule) (R.key o)) rules.now }
{
    let symbols = rule.symbols();
    rules.iter().any(|other| symbols == other.symbols())
}

// Adds a rule after those of its kind.
pub fn put<R: Symbols>(rules: &mut Vec<R>, rule: R) -> Result<(), Stop<Flaw>>
    ensures answer { Alters (putting (λ r o. R.Key.eq (R.key r) (R.key o)) R.loops rules.old.items rule) rules.old.items result rules.new.items }
    ensures items { rules.new.items ≡ (if is_ok result then rules.old.items ++ rule ∷ [] else rules.old.items) }
{
    if holds(rules, rule) {
        return Err(Stop::Refusal(Refusal::Duplicate.into()));
    }
    if rule.is_loop() {
        return Err(Stop::Refusal(Refusal::SelfChain.into()));
    }
    rules.push(rule)?;
    Ok(())
}
