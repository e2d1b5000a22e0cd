// The floor bound: made for every grammar, the neutral cost wherever fewer than 40 words stand around.
ghost use Rattle.bound.specs.Floor.{floor_entry};

use crate::Bound;
use scale::Scale;

const SPAN: usize = 40;

#[derive(Clone, Copy)]
pub struct Floor;

impl<S: Scale> Bound<S> for Floor {
    ghost limit = { λ _ _ left right. floor_entry S.Scale.scale left right };

    ghost reach = { λ _. 40 };

    ghost made = { λ _ _. Unit {0} };

    fn span(&self) -> usize {
        SPAN
    }

    fn entry(&self, category: usize, left: usize, right: usize) -> Option<S::Cost> {
        if left < SPAN && right < SPAN - left {
            Some(S::start())
        } else {
            None
        }
    }
}
