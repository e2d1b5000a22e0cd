// A cheapest tree, written as a row of nodes.
ghost use Rattle.std.specs.Prelude.{◌≡◌, ℕ, ◌+◌, ◌-◌, ◌*◌, ◌<◌, ◌≤◌, true, length, IsSomeAnd};
ghost use Rattle.derivation.specs.Grammar.{grammar};
ghost use Rattle.table.specs.Tables.{entries, holds};
ghost use Rattle.tree.specs.Extracted.{Finished, Extracted};
ghost use Rattle.tree.specs.Preorder.{node as as_node};
ghost use Rattle.tree.specs.Ways.{rank};
ghost use Rattle.tree.specs.Ranks.{Ranked, AllGrounded};
ghost use Rattle.tree.specs.Wrote.{Wrote, WroteRanked};

use crate::node::{Kind, Node};
use crate::ranks::Ranks;
use crate::reader::{Reader, Span};
use crate::ways::Step;
use chart::Chart;
use derivation::{BinaryRule, Rules};
use scale::Scale;
use table::Table;

fn node(category: u8, span: Span, kind: Kind, rule: usize) -> Node
    requires { rule < 1024 }
    ensures { result ≡ as_node category span.begin span.end kind rule }
{
    Node {
        category,
        begin: span.begin as u8,
        end: span.end as u8,
        kind,
        rule: rule as u16,
    }
}

impl<S: Scale, C: Chart> Reader<'_, S, C> {
    // Writes a tree of the category into the first of the nodes; answers how many it has.
    #[cycle(write)]
    fn write(&self, category: u8, span: Span, nodes: &mut [Node]) -> usize
        requires grounded { AllGrounded S.scale (grammar self.now.rules.now) self.now.text.now (entries self.now.table.now) }
        requires held { (x : S.Cost) × (entries self.now.table.now category span.begin span.end ≡ Some x) }
        requires room { 2 * ((span.end - span.begin) * self.now.rules.now.categories) + self.now.rules.now.categories ≤ length nodes.old }
        ensures wrote { Wrote S.scale (grammar self.now.rules.now) self.now.text.now (entries self.now.table.now) category span.begin span.end result nodes.old nodes.new }
        ensures few { result ≤ 2 * ((span.end - span.begin) * self.now.rules.now.categories) + self.now.rules.now.categories }
    {
        let ranks = self.rank_cell(category, span);
        self.write_ranked(&ranks, category, span, nodes)
    }

    // The same by the ranks of the span.
    #[cycle(write)]
    fn write_ranked(&self, ranks: &Ranks, category: u8, span: Span, nodes: &mut [Node]) -> usize
        requires grounded { AllGrounded S.scale (grammar self.now.rules.now) self.now.text.now (entries self.now.table.now) }
        requires ranked { Ranked S.scale (grammar self.now.rules.now) self.now.text.now (entries self.now.table.now) ranks.now self.now.rules.now.categories span.begin span.end }
        requires room { IsSomeAnd (rank ranks.now category) (λ r. 2 * ((span.end - span.begin) * self.now.rules.now.categories) + r ≤ length nodes.old) }
        ensures { WroteRanked S.scale (grammar self.now.rules.now) self.now.text.now (entries self.now.table.now) ranks.now category span.begin span.end result nodes.old nodes.new }
    {
        let Some(rank) = ranks[usize::from(category)] else {
            unreachable!()
        };
        let Some(step) = self.way(ranks, rank, category, span) else {
            unreachable!()
        };
        match step {
            Step::Word { rule } => {
                nodes[0] = node(category, span, Kind::Word, rule);
                1
            }
            Step::Chain { rule } => {
                nodes[0] = node(category, span, Kind::Chain, rule);
                let part = self.rules.chains[rule].part;
                1 + self.write_ranked(ranks, part, span, &mut nodes[1..])
            }
            Step::Binary { rule, split } => {
                nodes[0] = node(category, span, Kind::Binary, rule);
                let BinaryRule { left, right, .. } = self.rules.binaries[rule];
                let lefts = self.write(left, span.left(split), &mut nodes[1..]);
                let rights = self.write(right, span.right(split), &mut nodes[1 + lefts..]);
                1 + lefts + rights
            }
        }
    }
}

// A cheapest tree of all the words, out of a finished round; answers how many nodes it has.
pub fn extract<S: Scale, C: Chart>(
    rules: &Rules,
    text: &[u16],
    table: &Table<'_, S, C>,
    nodes: &mut [Node],
) -> usize
    requires kinds { table.now.kinds ≡ rules.now.categories }
    requires whole { length text.now ≡ (C.seen table.now.chart.now).words }
    requires finished { Finished S.scale (grammar rules.now) text.now (entries table.now) }
    requires held { holds table.now 1 (length text.now) rules.now.top ≡ true }
    requires room { (2 * length text.now - 1) * rules.now.categories ≤ length nodes.old }
    ensures { Extracted S.scale (grammar rules.now) text.now (entries table.now) result nodes.old nodes.new }
{
    let reader = Reader { rules, text, table };
    let span = Span {
        begin: 1,
        end: text.len(),
    };
    reader.write(rules.top, span, nodes)
}
