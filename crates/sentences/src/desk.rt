// The desk at which the sentences of a file are parsed: a session over its grammar, and the memory that requests work in.
ghost use Rattle.std.specs.Prelude.{◌≡◌, ℕ, ◌*◌, ◌≤◌, List, map, length, vec_len, IfOk, MatchResult};
ghost use Rattle.grammar.specs.Listed.{listed, lookup};
ghost use Rattle.session.specs.State.{state, over};
ghost use Rattle.session.specs.Runs.{Call, Leads};
ghost use Rattle.sentences.specs.Sentence.{language, one_more, heard, hindrance};
ghost use Rattle.sentences.specs.Serving.{Asked, Found};

use bound::Floor;
use chart::{ByteChart, MOST_CATEGORIES};
use grammar::Closed;
use lines::Span;
use refusals::Refusal;
use scale::Scale;
use search::Tree;
use session::Session;
use std::alloc::{AllocError, Global};
use tree::{Kind, Node};

// The most words of a sentence, how many cells they have, and how many nodes for each category.
const WORDS: usize = 20;

const CELLS: usize = WORDS * (WORDS + 1) / 2;

const NODES: usize = 2 * WORDS - 1;

// A session over its grammar.
#[derive(Drop)]
pub struct Held<'a> {
    pub grammar: &'a Closed,
    pub session: Session,
    ghost fits: { session.number ≡ grammar.now.number },
}

// Room for chart, costs and nodes.
#[derive(Drop)]
pub struct Room<Cost> {
    bytes: Vec<u8>,
    costs: Vec<Cost>,
    nodes: Vec<Node>,
}

#[derive(Drop)]
pub struct Desk<'a, S: Scale> {
    pub held: Held<'a>,
    pub ladder: Vec<S::Cost>,
    pub room: Room<S::Cost>,
    // there is room for each sentence
    ghost bytes: { vec_len room.bytes ≡ 13440 },
    ghost costs: { vec_len room.costs ≡ 210 * held.grammar.now.rules.categories },
    ghost nodes: { vec_len room.nodes ≡ 39 * held.grammar.now.rules.categories },
}

impl<Cost: Copy> Room<Cost> {
    // Room for each sentence over so many categories.
    pub fn new(heap: Global, start: Cost, categories: usize) -> Result<Room<Cost>, AllocError>
        requires { categories ≤ 64 }
        ensures bytes { IfOk result (λ room. vec_len room.bytes ≡ 13440) }
        ensures costs { IfOk result (λ room. vec_len room.costs ≡ 210 * categories) }
        ensures nodes { IfOk result (λ room. vec_len room.nodes ≡ 39 * categories) }
    {
        let blank = Node {
            category: 0,
            begin: 0,
            end: 0,
            kind: Kind::Word,
            rule: 0,
        };
        Ok(Room {
            bytes: vec![in heap; 0; CELLS * MOST_CATEGORIES]?,
            costs: vec![in heap; start; CELLS * categories]?,
            nodes: vec![in heap; blank; NODES * categories]?,
        })
    }

    pub fn nodes(&self) -> &[Node]
        ensures { result.now ≡ self.now.nodes.items }
    {
        &self.nodes
    }
}

// The costs of the ladder's weights.
pub fn priced<S: Scale>(heap: Global, weights: &[u16]) -> Result<Vec<S::Cost>, AllocError>
    ensures { IfOk result (λ ladder. ladder.items ≡ map S.scale.price weights.now) }
{
    weights.iter().map(|weight| S::price(*weight)).collect(heap)
}

impl Held<'_> {
    // Puts the word that is spelt so; the program holds fewer words than a session does.
    fn put(&mut self, spelling: &[u8]) -> Result<usize, Refusal>
        ensures grammar { self.new.grammar ≡ self.old.grammar }
        ensures put { let due = one_more (state self.old.session).held (lookup (listed self.old.grammar.now.words) spelling.now) in MatchResult result (λ _. due ≡ Ok (state self.new.session).held) (λ refusal. due ≡ Err refusal) }
    {
        let Some(word) = self.grammar.word(spelling) else {
            return Err(Refusal::UnknownWord);
        };
        if self.session.words().len() >= WORDS {
            return Err(Refusal::SessionFull);
        }
        self.session.put(self.grammar, word)
    }

    // Holds the words of a sentence and no others, up to the first that is refused.
    fn hold(&mut self, line: &[u8], words: &[Span]) -> Result<(), Refusal>
        ensures grammar { self.new.grammar ≡ self.old.grammar }
        ensures held { let due = heard (listed self.old.grammar.now.words) line.now words.now in MatchResult result (λ _. due ≡ Ok (state self.new.session).held) (λ refusal. due ≡ Err refusal) }
    {
        let held = self.session.words().len();
        let _ = self.session.take_back(self.grammar, held)?;
        for span in words {
            let _ = self.put(span.of(line))?;
        }
        Ok(())
    }

    // The cheapest tree of the words held, by a chart over bytes.
    fn ask<S: Scale>(
        &mut self,
        ladder: &[S::Cost],
        bytes: &mut [u8],
        costs: &mut [S::Cost],
        nodes: &mut [Node],
    ) -> Result<Tree<S::Cost>, Refusal>
        requires few { length (state self.old.session).held ≤ 20 }
        requires room { 13440 ≤ length bytes.old }
        requires costs { 210 * self.old.grammar.now.rules.categories ≤ length costs.old }
        requires nodes { 39 * self.old.grammar.now.rules.categories ≤ length nodes.old }
        ensures grammar { self.new.grammar ≡ self.old.grammar }
        ensures asked { (calls : List Call) → Leads (over self.old.grammar.now) calls (state self.old.session) → Asked S.scale (language self.old.grammar.now) ladder.now (state self.new.session).held nodes.new (hindrance S.scale ladder.now (state self.old.session).held) (state self.old.session).held result }
    {
        let mut chart = ByteChart::new(bytes);
        self.session
            .tree::<S, ByteChart<'_>, Floor>(self.grammar, &Floor, ladder, &mut chart, costs, nodes)
    }
}

impl<S: Scale> Desk<'_, S> {
    // The session, when all is answered.
    pub fn leave(self) -> Session
        ensures { result ≡ self.entry.held.session }
    {
        self.held.session
    }

    // The cheapest tree of a sentence.
    pub fn parse(&mut self, line: &[u8], words: &[Span]) -> Result<Tree<S::Cost>, Refusal>
        ensures grammar { self.new.held.grammar ≡ self.old.held.grammar }
        ensures ladder { self.new.ladder.items ≡ self.old.ladder.items }
        ensures found { Found S.scale (language self.old.held.grammar.now) self.old.ladder.items (state self.new.held.session).held self.new.room.nodes.items (heard (listed self.old.held.grammar.now.words) line.now words.now) result }
    {
        self.held.hold(line, words)?;
        // read, so that it is known to fit 32 bits
        let _tally = self.held.session.tally();
        self.held.ask::<S>(
            &self.ladder,
            &mut self.room.bytes,
            &mut self.room.costs,
            &mut self.room.nodes,
        )
    }
}
