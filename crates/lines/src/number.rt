// A number written in decimal, from 0 to 65,535, with no leading zero.
ghost use Rattle.std.specs.Prelude.{◌≡◌, ℕ, ◌+◌, ◌-◌, ◌*◌, ◌<◌, ◌≤◌, length};
ghost use Rattle.lines.specs.Decimal.{number_of, padded, pushed, ReadsDecimal};

// Nothing, or a first 0 with more after it.
fn is_padded(part: &[u8]) -> bool
    ensures { result ≡ padded part.now }
{
    match part {
        [] => true,
        [_] => false,
        [first, ..] => *first == b'0',
    }
}

// `n` with one more digit behind it, where that is a digit and the number still fits.
fn pushed(n: u16, b: u8) -> Option<u16>
    ensures { result ≡ pushed n b }
{
    match b {
        b'0'..=b'9' => n.checked_mul(10)?.checked_add(u16::from(b - b'0')),
        _ => None,
    }
}

pub fn number_of(part: &[u8]) -> Option<u16>
    ensures { result ≡ number_of part.now }
{
    if is_padded(part) {
        return None;
    }
    part.iter().try_fold(0, |n, b| pushed(n, *b))
}

// A part is read as a number just where it is that number written in decimal.
pub fn reads_decimal()
    ensures { ReadsDecimal }
{}
