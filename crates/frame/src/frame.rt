use crate::open_route::OpenRoute;
use crate::sections::Sections;
use arrayvec::ArrayVec;
use sets::set::ComponentSet;

mod asking;
mod making;
mod marking;
mod opening;
mod releasing;
mod throwing;

// How many routes stand open at most.
const MOST_OPEN: usize = 8;

// Switches lie normal but for those of a set; the open routes stand in the order of their opening. A frame knows no plan:
// each call is lent the plan that it is about. Each says anew that a refusal changes nothing: that is about the frame before
// and after a call, which no field or invariant can hold.
#[derive(Drop)]
pub struct Frame {
    reversed: ComponentSet,
    occupied: Sections,
    routes: ArrayVec<OpenRoute, MOST_OPEN>,
    given: u16,
}
