// Tree requests: checked first, then searched, with the promise of the cheapest tree.
ghost use Rattle.std.specs.Prelude.{◌≡◌, List, length};
ghost use Rattle.std.specs.Result.{result_err};
ghost use Rattle.session.specs.State.{state, over};
ghost use Rattle.session.specs.Request.{rises, declined, Asked};
ghost use Rattle.session.specs.Runs.{Call, held, Leads};
ghost use Rattle.session.specs.Cheapest.{Cheapest};

use crate::sizes::Sizes;
use crate::state::Session;
use bound::Bound;
use chart::Chart;
use grammar::Closed;
use refusals::Refusal;
use scale::Scale;
use search::Tree;
use search::best::best;
use tree::Node;

// The most ceilings of a ladder.
const CEILINGS: usize = 16;

// Whether each ceiling is above the one before it.
fn rising<S: Scale>(ladder: &[S::Cost]) -> bool
    ensures { result ≡ rises S.scale ladder.now }
{
    ladder.is_sorted_by(|low, high| S::above(*high, *low))
}

impl Session {
    // Refuses a request before any search, for the first cause that there is.
    fn allows<S: Scale>(
        &self,
        grammar: &Closed,
        ladder: &[S::Cost],
        sizes: Sizes,
    ) -> Result<(), Refusal>
        ensures { result_err result ≡ declined S.scale (over grammar.now) (state self.now) ladder.now sizes }
    {
        self.fits(grammar)?;
        if self.words.is_empty() {
            return Err(Refusal::NoWords);
        }
        if ladder.len() > CEILINGS || !rising::<S>(ladder) {
            return Err(Refusal::WrongLadder);
        }
        if !sizes.suffice(self.words.len(), grammar.rules().categories) {
            return Err(Refusal::TooSmall);
        }
        Ok(())
    }

    // A cheapest tree of the words held, written into the node memory; chart and costs then show the last round run.
    pub fn tree<S: Scale, C: Chart, B: Bound<S>>(
        &mut self,
        grammar: &Closed,
        bound: &B,
        ladder: &[S::Cost],
        chart: &mut C,
        costs: &mut [S::Cost],
        nodes: &mut [Node],
    ) -> Result<Tree<S::Cost>, Refusal>
        ensures asked { Asked S.scale (over grammar.now) (B.limit bound.now) ladder.now (record { session = state self.old; chart = C.seen chart.old; costs = costs.old; nodes = nodes.old }) (record { session = state self.new; chart = C.seen chart.new; costs = costs.new; nodes = nodes.new }) (declined S.scale (over grammar.now) (state self.old) ladder.now (record { room = (C.seen chart.old).room; span = B.reach bound.now; costs = length costs.old; nodes = length nodes.old })) result }
        ensures number { self.new.number ≡ self.old.number }
        ensures cheapest { (calls : List Call) → Leads (over grammar.now) calls (state self.old) → B.made bound.now (over grammar.now).grammar → Cheapest S.scale (over grammar.now).grammar (B.limit bound.now) ladder.now (held (over grammar.now) calls) (record { room = (C.seen chart.old).room; span = B.reach bound.now; costs = length costs.old; nodes = length nodes.old }) nodes.new result }
    {
        let sizes = Sizes {
            room: chart.capacity(),
            span: bound.span(),
            costs: costs.len(),
            nodes: nodes.len(),
        };
        self.allows::<S>(grammar, ladder, sizes)?;
        let tree = best::<S, C, B>(
            grammar.rules(),
            &self.words,
            bound,
            ladder,
            chart,
            costs,
            nodes,
        )
        .ok_or(Refusal::NoDerivation)?;
        self.tally = self.tally.saturating_add(1);
        Ok(tree)
    }
}
