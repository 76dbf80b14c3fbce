ghost use Rattle.std.specs.Prelude.{◌≡◌, ℕ, ◌+◌, ◌*◌, ◌%◌, ◌<◌, ◌≤◌, IfSome};
ghost use Rattle.route.specs.Paths.{leaves_by, exit_of, MayLie, Follows};
ghost use Rattle.route.specs.Steps.{Exactly, Told, SignalAt};

use entry::{component, lie};
use plan::interface::Plan;
use plan::parts::{Direction, Kind, Port, Position, Side};

// The numbers from `low` to `high`. Not std's `RangeInclusive`, which is no Copy and counts as it goes.
#[derive(Clone, Copy, PartialEq, Eq, Debug)]
pub struct Range {
    pub low: u16,
    pub high: u16,
}

// The direction of a signal of the plan; none where the component is no such signal.
pub fn signal<P: Plan>(plan: &P, component: u16) -> Option<Direction>
    ensures { SignalAt (P.layout plan.now) component result }
{
    match plan.kind(component) {
        Ok(Kind::Signal(direction)) => Some(direction),
        _ => None,
    }
}

// The port by which a component of the kind is left that lies as the entry says.
fn leaves(kind: Kind, way: Direction, entry: u16) -> Side
    ensures { result ≡ leaves_by kind way (entry % 4) }
{
    let reverse = lie(entry) == Some(Position::Reverse);
    match (kind, way) {
        (Kind::Switch(direction), _) if direction == way && reverse => Side::Branch,
        (_, Direction::East) => Side::East,
        (_, Direction::West) => Side::West,
    }
}

// How a component may lie that is entered by such a port.
fn lies(kind: Kind, side: Side) -> Range
    ensures exact { Exactly (MayLie kind side) result }
    ensures small { result.high ≤ 2 }
{
    match (kind, side) {
        (Kind::Switch(_), Side::Branch) => Range { low: 2, high: 2 },
        (Kind::Switch(Direction::East), Side::West) => Range { low: 1, high: 2 },
        (Kind::Switch(Direction::West), Side::East) => Range { low: 1, high: 2 },
        (Kind::Switch(_), _) => Range { low: 1, high: 1 },
        (_, _) => Range { low: 0, high: 0 },
    }
}

// The far port of the port by which the entry `last` is left, travelling `way`.
fn beyond<P: Plan>(plan: &P, way: Direction, last: u16) -> Option<Port>
    ensures { result ≡ (P.layout plan.now).far (exit_of (P.layout plan.now) way last) }
{
    let component = component(last);
    let Ok(kind) = plan.kind(component) else {
        return None;
    };
    plan.far(leaves(kind, way, last).of(component))
        .unwrap_or(None)
}

// The entries that may follow the entry `last`, travelling `way`. A blank port stops the path. The entries are made by their
// number, since a call that makes one of any component could not be total. Plan and direction stay two parameters, here and
// above: contracts speak of the layout and of the direction, and a struct of both would only be taken apart.
pub fn onward<P: Plan>(plan: &P, way: Direction, last: u16) -> Option<Range>
    ensures exact { Told (Follows (P.layout plan.now) way last) result }
    ensures small { IfSome result (λ x. x.high < 2048) }
{
    let Some(port) = beyond(plan, way, last) else {
        return None;
    };
    let Ok(kind) = plan.kind(port.component) else {
        return None;
    };
    let lies = lies(kind, port.side);
    let base = 4 * port.component;
    Some(Range {
        low: base + lies.low,
        high: base + lies.high,
    })
}
