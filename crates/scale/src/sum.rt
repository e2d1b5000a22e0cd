// Costs that add up and stay at the largest number of 32 bits.
ghost use Rattle.std.specs.Prelude.{◌≡◌, ◌+◌, min};
ghost use Rattle.scale.specs.Scales.{sums};
ghost use Rattle.scale.specs.Lawful.{sums_lawful};

use crate::Scale;

#[derive(Clone, Copy)]
pub struct Sum;

impl Scale for Sum {
    type Cost = u32;

    const NEUTRAL: u32 = 0;

    ghost scale = { sums };

    ghost lawful = { sums_lawful };

    fn start() -> u32 {
        Self::NEUTRAL
    }

    // On numbers of 32 bits the join is the plain sum, cut at the largest.
    fn join(a: u32, b: u32) -> u32
        ensures joins { result ≡ sums.join a b }
        ensures plain { result ≡ min (a + b) 4294967295 }
    {
        a.saturating_add(b)
    }

    fn above(a: u32, b: u32) -> bool {
        a > b
    }

    fn price(weight: u16) -> u32 {
        u32::from(weight)
    }
}
