// A gap in a sentence: how many words stand to its left and to its right, together fewer than the span.
ghost use Rattle.std.specs.Prelude.{◌≡◌, ◌+◌, ◌<◌, ◌≤◌};
ghost use Rattle.summary.specs.Memory.{place};
ghost use Rattle.summary.specs.Filling.{across, shorter};

use crate::step::Side;

#[derive(Clone, Copy)]
pub struct Pair {
    pub span: usize,
    pub left: usize,
    pub right: usize,
    pub ghost few: { span ≤ 40 },
    pub ghost short: { left + right < span },
}

// The row of a pair.
pub(crate) fn row_of(span: usize, left: usize, right: usize) -> usize
    requires few { span ≤ 40 }
    requires short { left + right ≤ 40 }
    ensures { result ≡ place span left right }
{
    let n = left + right;
    span + n * (n + 1) / 2 + left
}

impl Pair {
    pub(crate) fn row(self) -> usize
        ensures { result ≡ place self.span self.left self.right }
    {
        row_of(self.span, self.left, self.right)
    }

    // The row of the pair without m words across from the gap.
    pub(crate) fn row_without(self, side: Side, m: usize) -> usize
        requires { m ≤ across side self.left self.right }
        ensures { result ≡ shorter side self.span self.left self.right m }
    {
        match side {
            Side::Left => row_of(self.span, self.left, self.right - m),
            Side::Right => row_of(self.span, self.left - m, self.right),
        }
    }
}
