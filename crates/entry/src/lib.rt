// What an entry of a row says of a plan: a component, and how it lies where it is a switch.
#![tactic(auto)]

ghost use Rattle.std.specs.Prelude.{◌≡◌};
ghost use Rattle.entry.specs.Lies.{component_of, lie_of};

use plan::parts::Position;

pub fn component(e: u16) -> u16
    ensures { result ≡ component_of e }
{
    e / 4
}

// How the switch lies; none where the entry says no position.
pub fn lie(e: u16) -> Option<Position>
    ensures { result ≡ lie_of e }
{
    match e % 4 {
        1 => Some(Position::Normal),
        2 => Some(Position::Reverse),
        _ => None,
    }
}
