ghost use Rattle.std.specs.Prelude.{◌≡◌, ℕ, ◌<◌, false, ◌≢◌};
ghost use Rattle.plan.specs.declared.parts.Kind.TheVariants.{Signal as SignalOf};
ghost use Rattle.sets.specs.Members.{has};
ghost use Rattle.search.specs.Reach.{Marked, GoneOn, Settled, Barren};
ghost use Rattle.search.specs.View.{path_of};

use super::Flood;
use crate::position::Position;
use entry::component;
use plan::interface::Plan;
use plan::parts::Direction;
use route::steps::{onward, signal};
use sets::set::ComponentSet;

// Whether the component is a signal of the direction.
fn guards<P: Plan>(plan: &P, way: Direction, component: u16) -> bool
    ensures { result ≡ false → component < (P.layout plan.now).count → (P.layout plan.now).kind component ≢ SignalOf way }
{
    signal(plan, component) == Some(way)
}

impl Flood {
    // Marks the component that comes next after the entry.
    fn mark<P: Plan>(&mut self, plan: &P, way: Direction, from: u16)
        ensures { Marked (P.layout plan.now) way from self.old self.new }
    {
        let Some(range) = onward(plan, way, from) else {
            return;
        };
        let component = component(range.low);
        if self.seen.contains(component) {
            return;
        }
        self.seen.insert(component);
        self.waiting.insert(component);
    }

    // Goes on from a component by every way out of it: as its entries, normal and reverse, have it by their numbers.
    fn go_on<P: Plan>(&mut self, plan: &P, way: Direction, component: u16)
        ensures { GoneOn (P.layout plan.now) way component self.old self.new }
    {
        if component >= 512 {
            return;
        }
        self.waiting.remove(component);
        self.mark(plan, way, 4 * component + 1);
        self.mark(plan, way, 4 * component + 2);
    }

    // Whether a signal of the direction is reached; where none is, the flood has gone on from all that it has seen. A
    // question, so a bool; what the flood holds afterwards serves the proof alone.
    fn reaches_signal<P: Plan>(&mut self, plan: &P, way: Direction) -> bool
        ensures { result ≡ false → Settled (P.layout plan.now) way self.old self.new × ((c : ℕ) → has self.new.waiting c ≡ 0) }
    {
        while let Some(component) = self.waiting.first() {
            if guards(plan, way, component) {
                return true;
            }
            self.go_on(plan, way, component);
        }
        false
    }
}

// Whether the path may still become a route: false only where no route goes on below it.
pub(crate) fn leads_on<P: Plan>(plan: &P, at: &Position) -> bool
    ensures { result ≡ false → Barren (P.layout plan.now) (path_of at.now) }
{
    let path = at.entries();
    let (Some(first), Some(last)) = (path.first(), path.last()) else {
        return true;
    };
    let Some(way) = signal(plan, component(*first)) else {
        return true;
    };
    let mut flood = Flood {
        seen: at.components(),
        waiting: ComponentSet::new(),
    };
    flood.mark(plan, way, *last);
    flood.reaches_signal(plan, way)
}
