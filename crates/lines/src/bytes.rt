// The text layer: the classes of bytes, where a line ends, and what no line may hold.
ghost use Rattle.std.specs.Prelude.{◌≡◌, ◌+◌, ◌<◌, ◌≤◌, min, cond, length, option_map, IfSome, MatchOption};
ghost use Rattle.std.specs.List.{prefix_len};
ghost use Rattle.lines.specs.Bytes.{class_of, ends_no, in_line, is_own, is_letter, letter, foreign_at, long_part, too_long_at};

// The most bytes of a part, and of a line.
const PART: usize = 16;

const LINE: usize = 1024;

#[derive(Clone, Copy)]
pub enum Class {
    Open,
    Close,
    Blank,
    LineEnd,
    Letter,
    Foreign,
}

impl From<u8> for Class {
    ghost from_gives = { λ b c. c ≡ class_of b };

    fn from(b: u8) -> Class {
        match b as char {
            '(' => Class::Open,
            ')' => Class::Close,
            ' ' => Class::Blank,
            '\n' => Class::LineEnd,
            '!'..='~' => Class::Letter,
            _ => Class::Foreign,
        }
    }
}

impl Class {
    fn is_in_line(self) -> bool
        ensures { result ≡ ends_no self }
    {
        !matches!(self, Class::LineEnd)
    }

    fn is_own(self) -> bool
        ensures { result ≡ is_own self }
    {
        !matches!(self, Class::LineEnd | Class::Foreign)
    }

    fn is_letter(self) -> bool
        ensures { result ≡ is_letter self }
    {
        matches!(self, Class::Letter)
    }
}

// How many bytes of `rest` come before its first line end.
pub fn line_length(rest: &[u8]) -> usize
    ensures value { result ≡ prefix_len in_line rest.now }
    ensures within { result ≤ length rest.now }
{
    rest.iter()
        .take_while(|b| Class::from(**b).is_in_line())
        .count()
}

// The place of the first byte that no line may hold; a line end that is handed in is such a byte.
pub fn foreign_at(line: &[u8]) -> Option<usize>
    ensures value { result ≡ foreign_at line.now }
    ensures within { IfSome result (λ at. at < length line.now) }
{
    line.iter().position(|b| !Class::from(*b).is_own())
}

// How many letters in a row end with `b`, after `run` of them; past the most of a part they count as one more.
fn counted(run: usize, b: u8) -> usize
    ensures { result ≡ cond (letter b) (min run 16 + 1) 0 }
{
    if Class::from(b).is_letter() {
        run.min(PART) + 1
    } else {
        0
    }
}

// The place of the first byte that is the 17th letter in a row; each byte is looked at once.
fn seventeenth(line: &[u8]) -> Option<usize>
    ensures value { result ≡ option_map (λ start. start + 16) (long_part 0 line.now) }
    ensures within { IfSome result (λ last. last < length line.now) }
{
    line.iter()
        .scan(0, |run, b| {
            *run = counted(*run, *b);
            Some(*run)
        })
        .position(|run| run > PART)
}

// Where the first part of more than 16 bytes starts.
fn long_part(line: &[u8]) -> Option<usize>
    ensures value { result ≡ long_part 0 line.now }
    ensures within { IfSome result (λ at. at < length line.now) }
{
    let last = seventeenth(line)?;
    Some(last - PART)
}

// The place of what is too long: a part of more than 16 bytes, or the 1,025th byte.
pub fn too_long_at(line: &[u8]) -> Option<usize>
    ensures value { result ≡ too_long_at line.now }
    ensures within { MatchOption result (length line.now ≤ 1024) (λ at. at < length line.now) }
{
    let part = long_part(line);
    if line.len() <= LINE {
        return part;
    }
    Some(part.unwrap_or(LINE).min(LINE))
}
