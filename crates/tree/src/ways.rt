// The first way to make a constituent at exactly its cost.
ghost use Rattle.std.specs.Prelude.{IfSome, ◌≡◌, ◌<◌, ◌≤◌, Decides};
ghost use Rattle.derivation.specs.Grammar.{grammar};
ghost use Rattle.chart.specs.Meaning.{Lowest};
ghost use Rattle.table.specs.Tables.{entries, holds};
ghost use Rattle.tree.specs.Ways.{OfPart, OfParts, ByWord, ByChain, Finds, FindsFirst, FirstPair, Way, FirstWay};

use crate::ranks::Ranks;
use crate::reader::{Reader, Span};
use chart::Chart;
use derivation::{BinaryRule, ChainRule};
use scale::{Scale, same};

// A rule by its number among those of its kind, with the split of a binary rule.
#[derive(Clone, Copy)]
pub enum Step {
    Word { rule: usize },
    Chain { rule: usize },
    Binary { rule: usize, split: usize },
}

impl<S: Scale, C: Chart> Reader<'_, S, C> {
    // The cost of a constituent, if it was kept.
    fn cost(&self, category: u8, span: Span) -> Option<S::Cost>
        ensures { result ≡ entries self.now.table.now category span.begin span.end }
    {
        self.table
            .known(span.begin, span.end, usize::from(category))
    }

    // The lowest split of which both parts were kept.
    fn lowest_split(&self, rule: BinaryRule, span: Span) -> Option<usize>
        ensures { Lowest (holds self.now.table.now) rule.left rule.right span.begin span.end result }
    {
        self.table.split(
            usize::from(rule.left),
            usize::from(rule.right),
            span.begin,
            span.end,
        )
    }

    // The first word rule that gives the cost.
    fn first_word(&self, word: u16, category: u8, cost: S::Cost) -> Option<usize>
        ensures { FindsFirst (ByWord S.scale self.now.rules.now.lexical.items word category cost) result }
    {
        self.rules.lexical.iter().position(|rule| {
            rule.category == category && rule.word == word && same::<S>(S::price(rule.weight), cost)
        })
    }

    // Whether the rule gives the cost with the words split there.
    fn splits_at(&self, rule: BinaryRule, span: Span, cost: S::Cost, split: usize) -> bool
        requires first { span.begin ≤ split }
        requires last { split < span.end }
        ensures { Decides result (OfParts S.scale (entries self.now.table.now) span.begin span.end cost rule split) }
    {
        if let Some(left) = self.cost(rule.left, span.left(split))
            && let Some(right) = self.cost(rule.right, span.right(split))
        {
            same::<S>(S::join(S::price(rule.weight), S::join(left, right)), cost)
        } else {
            false
        }
    }

    // The first pair of a rule and a split that gives the cost. The splits begin at the lowest of which the chart has both parts.
    fn first_pair(&self, category: u8, span: Span, cost: S::Cost) -> Option<(usize, usize)>
        ensures { FirstPair S.scale (entries self.now.table.now) self.now.rules.now.binaries.items span.begin span.end category cost result }
    {
        'search: {
            for (k, rule) in self.rules.binaries.iter().enumerate() {
                if rule.category == category
                    && let Some(low) = self.lowest_split(*rule, span)
                {
                    for split in low..span.end {
                        if self.splits_at(*rule, span, cost, split) {
                            break 'search Some((k, split));
                        }
                    }
                }
            }
            None
        }
    }

    // Whether the rule gives the cost above a category of a rank below `below`.
    fn steps_to(&self, rule: ChainRule, ranks: &Ranks, below: u8, span: Span, cost: S::Cost) -> bool
        requires { rule.part < 64 }
        ensures { Decides result (OfPart S.scale (entries self.now.table.now) ranks.now below span.begin span.end cost rule) }
    {
        if let Some(rank) = ranks[usize::from(rule.part)]
            && rank < below
            && let Some(part) = self.cost(rule.part, span)
        {
            same::<S>(S::join(S::price(rule.weight), part), cost)
        } else {
            false
        }
    }

    // The first chain rule that gives the cost above a category of a rank below `below`.
    fn first_chain(
        &self,
        ranks: &Ranks,
        below: u8,
        category: u8,
        span: Span,
        cost: S::Cost,
    ) -> Option<usize>
        ensures { FindsFirst (ByChain S.scale (entries self.now.table.now) self.now.rules.now.chains.items ranks.now below span.begin span.end category cost) result }
    {
        self.rules.chains.iter().position(|rule| {
            rule.category == category && self.steps_to(*rule, ranks, below, span, cost)
        })
    }

    // The way to a constituent that the chart holds: by its word or by a split if there is one, else by a chain rule to a lower rank.
    pub fn way(&self, ranks: &Ranks, below: u8, category: u8, span: Span) -> Option<Step>
        ensures found { Finds (Way S.scale (grammar self.now.rules.now) self.now.text.now (entries self.now.table.now) ranks.now below span.begin span.end category) result }
        ensures first { IfSome result (FirstWay S.scale (grammar self.now.rules.now) self.now.text.now (entries self.now.table.now) ranks.now below span.begin span.end category) }
    {
        let cost = self.cost(category, span)?;
        if span.begin == span.end {
            if let Some(rule) = self.first_word(self.text[span.begin - 1], category, cost) {
                return Some(Step::Word { rule });
            }
        } else if let Some((rule, split)) = self.first_pair(category, span, cost) {
            return Some(Step::Binary { rule, split });
        }
        let rule = self.first_chain(ranks, below, category, span, cost)?;
        Some(Step::Chain { rule })
    }
}
