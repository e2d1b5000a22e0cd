// The plain record of a session: the words held, the tally of trees handed out, and the number of its grammar.
use arrayvec::ArrayVec;
use chart::MOST_WORDS;

#[derive(Drop)]
pub struct Session {
    pub(crate) words: ArrayVec<u16, MOST_WORDS>,
    pub(crate) tally: u32,
    pub(crate) number: u16,
}
