ghost use Rattle.route.specs.Tells.{Tells};
ghost use Rattle.route.specs.Growth.{Begun};
ghost use Rattle.route.specs.Paths.{Ends};

use crate::steps::signal;
use entry::component;
use plan::interface::Plan;

// Whether the path ends as a route does.
pub fn is_route<P: Plan>(plan: &P, at: &[u16]) -> bool
    ensures { Begun (P.layout plan.now) at.now → Tells result (Ends (P.layout plan.now) at.now) }
{
    let [first, .., last] = at else {
        return false;
    };
    // most paths end at no signal, so the end is asked first
    let Some(end) = signal(plan, component(*last)) else {
        return false;
    };
    signal(plan, component(*first)) == Some(end)
}
