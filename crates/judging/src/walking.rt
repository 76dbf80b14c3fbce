ghost use Rattle.std.specs.Prelude.{◌≡◌, ℕ, ◌<◌, ◌≤◌, length};
ghost use Rattle.route.specs.Tells.{Tells};
ghost use Rattle.route.specs.Growth.{Begun, May};
ghost use Rattle.route.specs.Paths.{Starts, Follows, heading};
ghost use Rattle.judging.specs.Judged.{StartAt, Walked};

use entry::component;
use plan::interface::Plan;
use plan::parts::Direction;
use route::steps::{onward, signal};
use sets::set::ComponentSet;

// Whether the entry `e` comes next after `last`, travelling `way`.
fn follows<P: Plan>(plan: &P, way: Direction, last: u16, e: u16) -> bool
    ensures { Tells result (Follows (P.layout plan.now) way last e) }
{
    let Some(range) = onward(plan, way, last) else {
        return false;
    };
    range.low <= e && e <= range.high
}

// The direction of the signal that the entry starts from; none where no path starts so.
fn start<P: Plan>(plan: &P, e: u16) -> Option<Direction>
    ensures { StartAt (P.layout plan.now) e result }
{
    // by the number: what leaves 3, divided by 4, has no position either, and is no start
    if e % 4 != 0 {
        return None;
    }
    signal(plan, component(e))
}

// How many entries from the front on make a path.
pub(crate) fn walked<P: Plan>(plan: &P, row: &[u16]) -> usize
    ensures { Walked (P.layout plan.now) row.now result }
{
    let Some((first, rest)) = row.split_first() else {
        return 0;
    };
    let Some(way) = start(plan, *first) else {
        return 0;
    };
    let mut seen = ComponentSet::new();
    seen.insert(component(*first));
    let mut last = *first;
    for (i, e) in rest.iter().enumerate() {
        if !follows(plan, way, last, *e) || seen.contains(component(*e)) {
            return i + 1;
        }
        seen.insert(component(*e));
        last = *e;
    }
    row.len()
}
