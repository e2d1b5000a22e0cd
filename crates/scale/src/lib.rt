// Cost scales: what weights cost, how costs join and how they compare. The search is one text for every scale.
#![tactic(auto)]

ghost use Rattle.std.specs.Prelude.{◌≡◌, ℕ, Bool, true, false, ◌≢◌};
ghost use Rattle.derivation.specs.Scale.{Scale as Meaning, Lawful};

pub mod sum;
pub mod worst;

pub use sum::Sum;
pub use worst::Worst;

pub trait Scale {
    type Cost: Copy;

    const NEUTRAL: Self::Cost;

    ghost scale: { Meaning Self.Cost };

    // `NEUTRAL`, from which joins start, with what it means. A law that ties the constant itself would ask more of every scale.
    fn start() -> Self::Cost
        ensures { result ≡ scale.neutral };

    fn join(a: Self::Cost, b: Self::Cost) -> Self::Cost
        ensures { result ≡ scale.join a b };

    fn above(a: Self::Cost, b: Self::Cost) -> bool
        ensures { result ≡ scale.above a b };

    fn price(weight: u16) -> Self::Cost
        ensures { result ≡ scale.price weight };

    ghost lawful: { Lawful scale };
}

// Whether two costs are one: neither is above the other.
pub fn same<S: Scale>(a: S::Cost, b: S::Cost) -> bool
    ensures yes { result ≡ true → a ≡ b }
    ensures no { result ≡ false → a ≢ b }
{
    !S::above(a, b) && !S::above(b, a)
}
