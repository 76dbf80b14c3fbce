ghost use Rattle.std.specs.Prelude.{ℕ, ◌≤◌};
ghost use Rattle.sets.specs.Members.{has};

use sets::set::ComponentSet;

mod calls;

pub(crate) use calls::leads_on;

// What a train may still reach: the components that were seen, and of those the ones from which the flood has yet to
// go on.
#[derive(Clone, Copy)]
pub(crate) struct Flood {
    seen: ComponentSet,
    waiting: ComponentSet,
    ghost within: { (c : ℕ) → has waiting c ≤ has seen c },
}
