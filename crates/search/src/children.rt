ghost use Rattle.std.specs.Prelude.{ℕ, ◌≤◌, IfSome};
ghost use Rattle.route.specs.Growth.{Begun, Next};
ghost use Rattle.route.specs.Paths.{Starts, Follows};
ghost use Rattle.search.specs.Found.{Least, Descended};

use crate::position::Position;
use entry::component;
use plan::interface::Plan;
use plan::parts::Direction;
use route::steps::{onward, signal};

// The first entry of a signal from `from` on.
fn next_start<P: Plan>(plan: &P, from: u16) -> Option<u16>
    ensures { Least (Starts (P.layout plan.now)) from result }
{
    let mut components = from.div_ceil(4)..plan.count();
    let Some(component) = components.find(|c| signal(plan, *c).is_some()) else {
        return None;
    };
    Some(4 * component)
}

// The first entry from `from` on that follows `last`.
fn next_after<P: Plan>(plan: &P, way: Direction, last: u16, from: u16) -> Option<u16>
    ensures { Least (Follows (P.layout plan.now) way last) from result }
{
    let range = onward(plan, way, last)?;
    if from < range.low {
        return Some(range.low);
    }
    if from <= range.high { Some(from) } else { None }
}

// The first entry from `from` on that comes next after the entries, leaving aside whether its component is new.
fn next_entry<P: Plan>(plan: &P, at: &[u16], from: u16) -> Option<u16>
    ensures least { Begun (P.layout plan.now) at.now → Least (Next (P.layout plan.now) at.now) from result }
    ensures onward { IfSome result (λ e. from ≤ e) }
{
    let (Some(first), Some(last)) = (at.first(), at.last()) else {
        return next_start(plan, from);
    };
    let way = signal(plan, component(*first))?;
    next_after(plan, way, *last, from)
}

// Goes down to the least entry from `from` on that may stand after the path, and answers it; none where there is none.
pub fn descend<P: Plan>(plan: &P, at: &mut Position, from: u16) -> Option<u16>
    ensures { Descended (P.layout plan.now) from at.old at.new result }
{
    let Some(e) = next_entry(plan, at.entries(), from) else {
        return None;
    };
    at.push(e).then_some(e)
}
