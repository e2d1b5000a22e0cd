// The nodes of a tree.
ghost use Rattle.std.specs.Prelude.{◌≡◌};
ghost use Rattle.tree.specs.Kinds.{kind_number};

// The kind of the rule that makes a constituent.
#[derive(Clone, Copy)]
pub enum Kind {
    Word = 0,
    Chain = 1,
    Binary = 2,
}

// A constituent, and the rule that makes it, by its number among the rules of its kind.
#[derive(Clone, Copy)]
pub struct Node {
    pub category: u8,
    pub begin: u8,
    pub end: u8,
    pub kind: Kind,
    pub rule: u16,
}

impl Kind {
    // The kind as hosts know it.
    pub fn number(self) -> u8
        ensures { result ≡ kind_number self }
    {
        self as u8
    }
}
