// What the records of components say. The sheet and the closed sheet both ask here.

ghost use Rattle.std.specs.Prelude.{◌≡◌, ◌&&◌, is_some, length, slice_get};
ghost use Rattle.plan.specs.Layout.{is_port, opposed, leads_to, told_kind, told_section, told_far, port as port_at};
ghost use Rattle.sheet.specs.Connections.{may_connect, drawn};
ghost use Rattle.sheet.specs.Look.{is_whole, SwitchTold};
ghost use Rattle.sheet.specs.Records.{named as named_in, components_of};

use crate::component::Component;
use fault::kinds::PlanFault;
use plan::parts::{Kind, Port, Side};

// The components of a sheet, by number.
#[derive(Clone, Copy)]
pub(crate) struct Drawn<'a> {
    pub(crate) records: &'a [Component],
}

impl Drawn<'_> {
    fn record(&self, component: u16) -> Option<Component>
        ensures { result ≡ slice_get self.now.records.now component }
    {
        self.records.get(usize::from(component)).copied()
    }

    // The kind of a component, a straight where there is none.
    fn kind_of(&self, component: u16) -> Kind
        ensures { result ≡ (drawn self.now.records.now).kind component }
    {
        self.record(component)
            .map_or(Kind::Straight, |record| record.kind)
    }

    fn is_port(&self, port: Port) -> bool
        ensures { result ≡ is_port (drawn self.now.records.now) port }
    {
        self.record(port.component)
            .is_some_and(|record| record.kind.has_side(port.side))
    }

    pub(crate) fn is_opposed(&self, port: Port, other: Port) -> bool
        ensures { result ≡ opposed (drawn self.now.records.now) port other }
    {
        port.is_opposed(
            self.kind_of(port.component),
            other,
            self.kind_of(other.component),
        )
    }

    #[tactic(auto, unfolding(crate::specs::Connections::may_connect))]
    fn may_connect(&self, port: Port, other: Port) -> bool
        ensures { let rs = self.now.records.now in result ≡ may_connect (components_of rs (length rs)) port other }
    {
        self.is_port(port) && self.is_port(other) && self.is_opposed(port, other)
    }

    // What a port names, which need not name it in turn.
    #[tactic(auto, using(crate::proofs::Puts::names_none, crate::proofs::Puts::names_some))]
    fn named(&self, port: Port) -> Option<Port>
        ensures { result ≡ named_in self.now.records.now port }
    {
        self.record(port.component)?.named(port.side)
    }

    // Whether a port may be connected to another that names it.
    fn is_met(&self, port: Port, other: Port) -> bool
        ensures { let rs = self.now.records.now in
            result ≡ (may_connect (components_of rs (length rs)) port other && leads_to (named_in rs other) port) }
    {
        self.may_connect(port, other) && self.named(other) == Some(port)
    }

    // The far port of a port, none where it is blank or no port.
    #[tactic(auto, unfolding(crate::specs::Connections::far_in))]
    fn far_of(&self, port: Port) -> Option<Port>
        ensures { result ≡ (drawn self.now.records.now).far port }
    {
        let far = self.named(port)?;
        self.is_met(port, far).then_some(far)
    }

    pub(crate) fn kind(&self, component: u16) -> Result<Kind, PlanFault>
        ensures { result ≡ told_kind (drawn self.now.records.now) component }
    {
        self.record(component)
            .map(|record| record.kind)
            .ok_or(PlanFault::NoSuchPart(0))
    }

    // The point section of a switch.
    pub(crate) fn section(&self, component: u16) -> Result<u16, PlanFault>
        ensures { result ≡ told_section (drawn self.now.records.now) component }
    {
        self.record(component)
            .filter(|record| record.kind.is_switch())
            .map(|record| record.section)
            .ok_or(PlanFault::NoSuchPart(0))
    }

    // The port that a port is connected to, or none where it is blank.
    pub(crate) fn far(&self, port: Port) -> Result<Option<Port>, PlanFault>
        ensures { result ≡ told_far (drawn self.now.records.now) port }
    {
        if !self.is_port(port) {
            return Err(PlanFault::NoSuchPart(0));
        }
        Ok(self.far_of(port))
    }

    fn is_connected(&self, component: u16, side: Side) -> bool
        ensures { result ≡ is_some ((drawn self.now.records.now).far (port_at component side)) }
    {
        self.far_of(side.of(component)).is_some()
    }

    // Whether a component that is a switch has no blank port.
    pub(crate) fn is_whole(&self, component: u16) -> bool
        ensures { result ≡ is_whole (drawn self.now.records.now) component }
    {
        !self.kind_of(component).is_switch()
            || (self.is_connected(component, Side::West)
                && self.is_connected(component, Side::East)
                && self.is_connected(component, Side::Branch))
    }

    // Whether a point section has a switch.
    pub(crate) fn has_switch(&self, section: u16) -> bool
        ensures { SwitchTold (drawn self.now.records.now) section result }
    {
        self.records.iter().any(|record| record.belongs(section))
    }
}
