// Rows of costs: one place for each category, with a cost or none, to which costs are offered. The cheapest that may enter stays.
ghost use Rattle.std.specs.Prelude.{◌≡◌, ℕ, ◌<◌, Option, length};
ghost use Rattle.std.proofs.Common.{refl, ◌∙◌};
ghost use Rattle.settle.specs.Column.{cheaper, AllOpen, Offered};
ghost use Rattle.settle.specs.Offers.{cell};
ghost use Rattle.settle.specs.Rows.{RowLaws};

use scale::Scale;

pub trait Row<S: Scale> {
    // the cost of each category, or none
    ghost costs: { Self → ℕ → Option S.Cost };

    // how many categories it has
    ghost size: { Self → ℕ };

    // which costs may enter, for which category
    ghost enters: { Self → ℕ → S.Cost → Type 0 };

    // what offers leave as it was, beside the costs
    ghost beside: { Self → Self → Type 0 };

    fn categories(&self) -> usize
        ensures { result ≡ size self.now };

    fn known(&self, category: usize) -> Option<S::Cost>
        requires { category < size self.now }
        ensures { result ≡ costs self.now category };

    // Offers a cost to a category: it enters if it may and is below what is there.
    fn offer(&mut self, category: usize, cost: S::Cost)
        requires { category < size self.old }
        ensures beside { beside self.old self.new }
        ensures offered { Offered S.Scale.scale (enters self.old) (costs self.old) (costs self.new) category cost };

    ghost laws: { RowLaws size enters beside };
}

// Whether a cost is below what is there.
pub fn wanted<S: Scale>(old: Option<S::Cost>, cost: S::Cost) -> bool
    ensures { result ≡ cheaper S.scale old cost }
{
    match old {
        None => true,
        Some(known) => S::above(known, cost),
    }
}

// A slice of costs, which every cost may enter.
#[derive(Drop)]
pub struct CostRow<'a, C>(pub &'a mut [Option<C>]);

impl<'a, S: Scale> Row<S> for CostRow<'a, S::Cost> {
    ghost costs = { λ row. cell row.0.now };

    ghost size = { λ row. length row.0.now };

    ghost enters = { λ _. AllOpen };

    ghost beside = { λ before after. (after.0.ghost_name ≡ before.0.ghost_name) × (length after.0.now ≡ length before.0.now) };

    ghost laws = { record { same = λ x. (refl, refl); then = λ x y z one two. (two.0 ∙ one.0, two.1 ∙ one.1); sized = λ x y kept. kept.1; opens = λ x y kept A c h. h; opened = λ x y kept A c h. h } };

    fn categories(&self) -> usize {
        self.0.len()
    }

    fn known(&self, category: usize) -> Option<S::Cost> {
        self.0[category]
    }

    fn offer(&mut self, category: usize, cost: S::Cost) {
        if wanted::<S>(self.0[category], cost) {
            self.0[category] = Some(cost);
        }
    }
}
