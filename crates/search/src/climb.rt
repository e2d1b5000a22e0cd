// Round after round under rising ceilings, and a last one without.
ghost use Rattle.std.specs.Prelude.{◌≡◌, ℕ, ◌*◌, ◌≤◌, length};
ghost use Rattle.derivation.specs.Grammar.{grammar};
ghost use Rattle.derivation.specs.Ladder.{ceiling_at};
ghost use Rattle.chart.specs.Triangle.{tri};
ghost use Rattle.search.specs.Climb.{Tried, Climb};

use bound::Bound;
use cell::Task;
use chart::Chart;
use derivation::Rules;
use round::round;
use scale::Scale;

// The last round run: how many came before it, and how many constituents it kept.
#[derive(Clone, Copy)]
pub struct Last {
    pub rung: usize,
    pub kept: usize,
}

// One round, and whether it keeps the top over all words: the number of constituents kept, if so.
fn attempt<S: Scale, C: Chart, B: Bound<S>>(
    task: &Task<'_, S::Cost, B>,
    chart: &mut C,
    costs: &mut [S::Cost],
) -> Option<usize>
    requires roomy { length task.now.text.now ≤ (C.seen chart.old).room }
    requires long { tri (length task.now.text.now) * task.now.rules.now.categories ≤ length costs.old }
    ensures room { (C.seen chart.new).room ≡ (C.seen chart.old).room }
    ensures tried { Tried S.scale (grammar task.now.rules.now) (B.limit task.now.bound.now) task.now.ceiling task.now.text.now costs.old (C.seen chart.new) costs.new result }
{
    let kept = round::<S, C, B>(task, chart, costs);
    let top = usize::from(task.rules.top);
    chart.has(1, task.text.len(), top).then_some(kept)
}

// The rounds of a ladder, up to the first that keeps the top over all words; none if no round does.
pub fn climb<S: Scale, C: Chart, B: Bound<S>>(
    rules: &Rules,
    text: &[u16],
    bound: &B,
    ladder: &[S::Cost],
    chart: &mut C,
    costs: &mut [S::Cost],
) -> Option<Last>
    requires roomy { length text.now ≤ (C.seen chart.old).room }
    requires long { tri (length text.now) * rules.now.categories ≤ length costs.old }
    ensures room { (C.seen chart.new).room ≡ (C.seen chart.old).room }
    ensures climb { Climb S.scale (grammar rules.now) (B.limit bound.now) ladder.now text.now costs.old (C.seen chart.new) costs.new result }
{
    let last = Task {
        rules,
        text,
        bound,
        ceiling: None,
    };
    for (rung, ceiling) in ladder.iter().enumerate() {
        let task = Task {
            ceiling: Some(*ceiling),
            ..last
        };
        if let Some(kept) = attempt::<S, C, B>(&task, chart, costs) {
            return Some(Last { rung, kept });
        }
    }
    let rung = ladder.len();
    attempt::<S, C, B>(&last, chart, costs).map(|kept| Last { rung, kept })
}
