// Bounds: below what the rest of a derivation costs, for each category and numbers of words around it.
#![tactic(auto)]

ghost use Rattle.std.specs.Prelude.{◌≡◌, ℕ, ◌+◌, ◌≤◌, Bool, true, false, None, Option};
ghost use Rattle.derivation.specs.Grammar.{Grammar};
ghost use Rattle.derivation.specs.Bounds.{Bounds};
ghost use Rattle.bound.specs.Gate.{admitted};

use scale::Scale;

pub mod floor;

pub use floor::Floor;

pub trait Bound<S: Scale> {
    // its entry for a category with so many words to the left and to the right
    ghost limit: { Self → ℕ → ℕ → ℕ → Option S.Cost };

    // its span
    ghost reach: { Self → ℕ };

    // the grammars that it is made for
    ghost made: { Self → Grammar → Type 0 };

    // The span; and with it the bound's law: for each grammar that it is made for, within the span no entry is above a surrounding.
    fn span(&self) -> usize
        ensures value { result ≡ reach self.now }
        ensures most { result ≤ 40 }
        ensures law { (g : Grammar) → made self.now g → Bounds S.Scale.scale g (reach self.now) (limit self.now) };

    // The entry: a cost or none, and none beyond the span.
    fn entry(&self, category: usize, left: usize, right: usize) -> Option<S::Cost>
        ensures value { result ≡ limit self.now category left right }
        ensures beyond { reach self.now ≤ left + right → result ≡ None };
}

// Whether a cost may stay: without a ceiling it may, without an entry it may not, else its join with the entry may not be above the ceiling.
pub fn passes<S: Scale, B: Bound<S>>(
    cost: S::Cost,
    bound: &B,
    category: usize,
    left: usize,
    right: usize,
    ceiling: Option<S::Cost>,
) -> bool
    ensures { result ≡ admitted S.scale ceiling (B.limit bound.now category left right) cost }
{
    let Some(top) = ceiling else {
        return true;
    };
    match bound.entry(category, left, right) {
        None => false,
        Some(low) => !S::above(S::join(cost, low), top),
    }
}
