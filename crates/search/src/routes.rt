ghost use Rattle.route.specs.Growth.{Begun};
ghost use Rattle.std.specs.Prelude.{◌≤◌};
ghost use Rattle.search.specs.Found.{Found};
ghost use Rattle.search.specs.Reach.{BarrenBelow};
ghost use Rattle.search.specs.View.{path_of};

use crate::children::descend;
use crate::flood::leads_on;
use crate::position::Position;
use plan::interface::Plan;
use route::ends::is_route;

// After so many steps back the search asks, of each path that it comes to, whether it leads on to a route at all. Fewer
// steps back are the common case, and cheaper than the question.
const PATIENCE: u16 = 64;

// Past every entry that may stand after a path. A number like the others that the search goes on from: an Option would
// be a second way to say that none is left.
const NO_ENTRY: u16 = 2_048;

// The entry from which on a route may go on below the path.
fn first_below<P: Plan>(plan: &P, at: &Position, steps_back: u16) -> u16
    ensures few { result ≤ 2048 }
    ensures barren { BarrenBelow (P.layout plan.now) (path_of at.now) result }
{
    if steps_back < PATIENCE || leads_on(plan, at) {
        0
    } else {
        NO_ENTRY
    }
}

// Moves on to the first route after the path, in lexicographic order. Where there is none the path is empty. The
// route is the position's path, a kilobyte that is moved on in place, so the answer is a bool and no Option with a copy.
pub fn next_route<P: Plan>(plan: &P, at: &mut Position) -> bool
    ensures { Begun (P.layout plan.now) (path_of at.old) → Found (P.layout plan.now) (path_of at.old) (path_of at.new) result }
{
    let mut from: u16 = 0;
    let mut steps_back: u16 = 0;
    loop {
        match descend(plan, at, from) {
            Some(_) if is_route(plan, at.entries()) => return true,
            Some(_) => from = first_below(plan, at, steps_back),
            None => {
                let Some(e) = at.retreat() else {
                    return false;
                };
                from = e + 1;
                steps_back = steps_back.saturating_add(1);
            }
        }
    }
}
