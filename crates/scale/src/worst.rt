// The single worst rule: a join is the larger of two costs of 16 bits.
ghost use Rattle.scale.specs.Scales.{worsts};
ghost use Rattle.scale.specs.Lawful.{worsts_lawful};

use crate::Scale;

#[derive(Clone, Copy)]
pub struct Worst;

impl Scale for Worst {
    type Cost = u16;

    const NEUTRAL: u16 = 0;

    ghost scale = { worsts };

    ghost lawful = { worsts_lawful };

    fn start() -> u16 {
        Self::NEUTRAL
    }

    fn join(a: u16, b: u16) -> u16 {
        a.max(b)
    }

    fn above(a: u16, b: u16) -> bool {
        a > b
    }

    fn price(weight: u16) -> u16 {
        weight
    }
}
