// One round of the search: every cell of the chart is filled, and what the pruning gate does not let pass stays out.
#![tactic(auto)]

ghost use Rattle.std.specs.Prelude.{◌≡◌, ◌*◌, ◌≤◌, length, None};
ghost use Rattle.derivation.specs.Grammar.{grammar};
ghost use Rattle.derivation.specs.Kept.{KeptNumber};
ghost use Rattle.bound.specs.Floor.{floor_entry};
ghost use Rattle.chart.specs.Triangle.{tri};
ghost use Rattle.table.specs.Memory.{view};
ghost use Rattle.round.specs.Filling.{Sofar, Spread, Fitted};
ghost use Rattle.round.specs.Counting.{tally, ending, number};
ghost use Rattle.round.specs.Recogniser.{RecogniserChart};
ghost use Rattle.round.specs.Round.{Round};

use bound::{Bound, Floor};
use cell::{Task, fill};
use chart::{Chart, cells_of};
use derivation::Rules;
use scale::Scale;
use table::clear;

// How many categories are held over b to e.
fn count<C: Chart>(chart: &C, kinds: usize, b: usize, e: usize) -> usize
    ensures { result ≡ tally (C.seen chart.now).holds b e kinds }
{
    (0..kinds).filter(|a| chart.has(b, e, *a)).count()
}

// Fills the cells that end at e, shorter stretches first, and counts what they hold.
fn fill_ending<S: Scale, C: Chart, B: Bound<S>>(
    task: &Task<'_, S::Cost, B>,
    chart: &mut C,
    costs: &mut [S::Cost],
    e: usize,
) -> usize
    requires fitted { Fitted (length task.now.text.now) task.now.rules.now.categories (C.seen chart.old) (length costs.old) }
    requires last { e ≤ length task.now.text.now }
    requires sofar { Sofar S.scale (grammar task.now.rules.now) (B.limit task.now.bound.now) task.now.ceiling task.now.text.now (view S.scale.neutral task.now.rules.now.categories (C.seen chart.old) costs.old) e 0 }
    ensures spread { Spread S.scale.neutral task.now.rules.now.categories e (C.seen chart.old) costs.old (C.seen chart.new) costs.new }
    ensures sofar { Sofar S.scale (grammar task.now.rules.now) (B.limit task.now.bound.now) task.now.ceiling task.now.text.now (view S.scale.neutral task.now.rules.now.categories (C.seen chart.new) costs.new) e e }
    ensures number { result ≡ ending (C.seen chart.new).holds task.now.rules.now.categories e e }
{
    let mut held = 0;
    for b in (1..=e).rev() {
        fill::<S, C, B>(task, chart, costs, b, e);
        held += count(chart, task.rules.categories, b, e);
    }
    held
}

// One round over the words of a text: answers the number of constituents that are kept.
pub fn round<S: Scale, C: Chart, B: Bound<S>>(
    task: &Task<'_, S::Cost, B>,
    chart: &mut C,
    costs: &mut [S::Cost],
) -> usize
    requires roomy { length task.now.text.now ≤ (C.seen chart.old).room }
    requires long { tri (length task.now.text.now) * task.now.rules.now.categories ≤ length costs.old }
    ensures room { (C.seen chart.new).room ≡ (C.seen chart.old).room }
    ensures round { Round S.scale (grammar task.now.rules.now) (B.limit task.now.bound.now) task.now.ceiling task.now.text.now costs.old (C.seen chart.new) costs.new }
    ensures count { result ≡ number (C.seen chart.new).holds task.now.rules.now.categories (length task.now.text.now) }
    ensures number { KeptNumber S.scale (grammar task.now.rules.now) (B.limit task.now.bound.now) task.now.ceiling task.now.text.now result }
{
    let n = task.text.len();
    let kinds = task.rules.categories;
    chart.start(n, kinds);
    clear::<S>(costs, cells_of(n) * kinds);
    let mut held = 0;
    for e in 1..=n {
        held += fill_ending::<S, C, B>(task, chart, costs, e);
    }
    held
}

// Runs the recogniser, which is one round without a ceiling: answers the number of its constituents.
pub fn recognise<S: Scale, C: Chart>(
    rules: &Rules,
    text: &[u16],
    chart: &mut C,
    costs: &mut [S::Cost],
) -> usize
    requires roomy { length text.now ≤ (C.seen chart.old).room }
    requires long { tri (length text.now) * rules.now.categories ≤ length costs.old }
    ensures room { (C.seen chart.new).room ≡ (C.seen chart.old).room }
    ensures recogniser { RecogniserChart S.scale (grammar rules.now) text.now (C.seen chart.new) costs.new }
    ensures round { Round S.scale (grammar rules.now) (λ _ left right. floor_entry S.scale left right) None text.now costs.old (C.seen chart.new) costs.new }
    ensures number { KeptNumber S.scale (grammar rules.now) (λ _ left right. floor_entry S.scale left right) None text.now result }
{
    let task = Task {
        rules,
        text,
        bound: &Floor,
        ceiling: None,
    };
    round::<S, C, Floor>(&task, chart, costs)
}
