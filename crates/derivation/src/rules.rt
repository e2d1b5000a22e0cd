// The three kinds of weighted rules. Categories and words go by their numbers.

// A category over one word.
#[derive(Clone, Copy)]
pub struct WordRule {
    pub category: u8,
    pub word: u16,
    pub weight: u16,
}

// A category over one category.
#[derive(Clone, Copy)]
pub struct ChainRule {
    pub category: u8,
    pub part: u8,
    pub weight: u16,
}

// A category over two, side by side.
#[derive(Clone, Copy)]
pub struct BinaryRule {
    pub category: u8,
    pub left: u8,
    pub right: u8,
    pub weight: u16,
}
