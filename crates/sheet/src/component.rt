ghost use Rattle.std.specs.Prelude.{◌≡◌};
ghost use Rattle.sheet.specs.Look.{belongs};
ghost use Rattle.sheet.specs.Records.{blank_component, named_at, naming};

use plan::parts::{Kind, Port, Side};

// A component as its record holds it. `section` says something of a switch only, and `branch` too.
#[derive(Clone, Copy, PartialEq, Eq, Debug)]
pub struct Component {
    pub kind: Kind,
    pub section: u16,
    pub west: Option<Port>,
    pub east: Option<Port>,
    pub branch: Option<Port>,
}

impl Component {
    // A component whose ports are blank.
    pub fn blank(kind: Kind, section: u16) -> Component
        ensures { result ≡ blank_component kind section }
    {
        Component {
            kind,
            section,
            west: None,
            east: None,
            branch: None,
        }
    }

    // Whether it is a switch of the point section.
    pub(crate) fn belongs(self, section: u16) -> bool
        ensures { result ≡ belongs self.kind self.section section }
    {
        self.kind.is_switch() && self.section == section
    }

    pub(crate) fn named(self, side: Side) -> Option<Port>
        ensures { result ≡ named_at self side }
    {
        match side {
            Side::West => self.west,
            Side::East => self.east,
            Side::Branch => self.branch,
        }
    }

    // The record with one side naming another port, or none.
    pub(crate) fn naming(self, side: Side, far: Option<Port>) -> Component
        ensures { result ≡ naming self side far }
    {
        match side {
            Side::West => Component { west: far, ..self },
            Side::East => Component { east: far, ..self },
            Side::Branch => Component {
                branch: far,
                ..self
            },
        }
    }
}
