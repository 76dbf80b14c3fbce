// Which ports a component has, and which way they face.

ghost use Rattle.std.specs.Prelude.{◌≡◌};
ghost use Rattle.plan.specs.Layout.{is_switch, has_side, side_faces, port, ports_opposed};

use crate::parts::{Direction, Kind, Port, Side};

impl Kind {
    pub fn is_switch(self) -> bool
        ensures { result ≡ is_switch self }
    {
        match self {
            Kind::Switch(_) => true,
            Kind::Signal(_) | Kind::Straight => false,
        }
    }

    pub fn has_side(self, side: Side) -> bool
        ensures { result ≡ has_side self side }
    {
        match side {
            Side::West | Side::East => true,
            Side::Branch => self.is_switch(),
        }
    }

    // The direction that the port at the side faces. No component but a switch has a branch; what is told of one is
    // the direction that is written beside the component, east where there is none.
    pub fn faces(self, side: Side) -> Direction
        ensures { result ≡ side_faces self side }
    {
        match (side, self) {
            (Side::West, _) => Direction::West,
            (Side::East, _) => Direction::East,
            (Side::Branch, Kind::Signal(direction) | Kind::Switch(direction)) => direction,
            (Side::Branch, Kind::Straight) => Direction::East,
        }
    }
}

impl Port {
    // Whether the port and another, of components of such kinds, face opposite ways and belong to different components.
    pub fn is_opposed(self, kind: Kind, other: Port, other_kind: Kind) -> bool
        ensures { result ≡ ports_opposed kind self other_kind other }
    {
        kind.faces(self.side) != other_kind.faces(other.side) && self.component != other.component
    }
}

impl Side {
    // The port at this side of the component.
    pub fn of(self, component: u16) -> Port
        ensures { result ≡ port component self }
    {
        Port {
            component,
            side: self,
        }
    }
}
