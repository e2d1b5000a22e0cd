// The refusals of the engine: every cause for which a call says no, with its number.
// The order of the variants is the order in which causes are looked for: the first that fits decides.
#![tactic(auto)]

ghost use Rattle.std.specs.Prelude.{◌≡◌};
ghost use Rattle.refusals.specs.Numbers.{number, layer};

#[derive(Clone, Copy, PartialEq, Eq, Debug)]
pub enum Refusal {
    // a byte that is no line end, no blank and not from 33 to 126
    ForeignByte = 1,
    // a part over 16 bytes, or a line over 1,024
    TooLong = 2,
    // brackets that do not pair on the line
    Unpaired = 3,
    // an unknown head, or wrong parts for it or its place
    WrongForm = 4,
    // a number that is not decimal 0 to 65,535, or has a leading zero
    WrongNumber = 5,
    // a 65th category, 513th word or 1,025th rule
    GrammarFull = 6,
    // a rule with the same kind and symbols is held
    Duplicate = 7,
    // a category chained to itself
    SelfChain = 8,
    // the top given twice, or missing at closing
    WrongTop = 9,
    // reopening with leases out
    LeasesOut = 10,
    // a ninth lease out on one grammar
    NinthLease = 11,
    // a session or a lease of another grammar number, or no lease out
    OtherGrammar = 12,
    // a word number or a spelling that is not in the grammar
    UnknownWord = 13,
    // a 41st word
    SessionFull = 14,
    // more taken back than held, or a trial's place outside 1 to n
    NoPlace = 15,
    // a tree asked for with no words
    NoWords = 16,
    // a ladder of over 16 ceilings, or one that does not strictly rise
    WrongLadder = 17,
    // chart, bound, cost memory or node memory too small
    TooSmall = 18,
    // no derivation of the words
    NoDerivation = 19,
}

// The layer of the text that a fault is of.
#[derive(Clone, Copy, PartialEq, Eq, Debug)]
pub enum Layer {
    Text,
    Form,
    Grammar,
    // a refusal of a call, not of a line
    Call,
}

impl Refusal {
    pub fn number(self) -> u8
        ensures { result ≡ number self }
    {
        self as u8
    }

    pub fn layer(self) -> Layer
        ensures { result ≡ layer self }
    {
        match self {
            Refusal::ForeignByte | Refusal::TooLong => Layer::Text,
            Refusal::Unpaired | Refusal::WrongForm | Refusal::WrongNumber => Layer::Form,
            Refusal::GrammarFull | Refusal::Duplicate | Refusal::SelfChain | Refusal::WrongTop =>
                Layer::Grammar,
            _ => Layer::Call,
        }
    }
}

// What is wrong with a line: the cause, and where, line and byte counted from 1; both are 0 at closing.
#[derive(Clone, Copy, PartialEq, Eq, Debug)]
pub struct Fault {
    pub refusal: Refusal,
    pub line: usize,
    pub byte: usize,
}
