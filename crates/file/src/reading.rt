ghost use Rattle.std.specs.Prelude.{◌≡◌};
ghost use Rattle.plan.specs.Layout.{has_side};
ghost use Rattle.file.specs.Contents.{switches_at, straights_at, sections_at, end_of, components, place, kind_of, section_of, port_of, field_at, stored, port_in};

use crate::codes::{direction_at, port_of, side_number};
use crate::contents::Contents;
use numbers::{byte_at, number_at};
use plan::parts::{Kind, Port, Side};

// Reads the four counts, each where those before it put it.
pub fn contents<'a>(bytes: &'a [u8]) -> Contents<'a>
    ensures { result.bytes.now ≡ bytes.now }
{
    let signals = number_at(bytes, 0);
    let at = 2 + 5 * usize::from(signals);
    let switches = number_at(bytes, at);
    let at = at + 2 + 9 * usize::from(switches);
    let straights = number_at(bytes, at);
    let at = at + 2 + 4 * usize::from(straights);
    let sections = number_at(bytes, at);
    Contents {
        bytes,
        signals,
        switches,
        straights,
        sections,
    }
}

impl Contents<'_> {
    pub fn components(&self) -> usize
        ensures { result ≡ components self.now.bytes.now }
    {
        usize::from(self.signals) + usize::from(self.switches) + usize::from(self.straights)
    }

    pub(crate) fn switches_at(&self) -> usize
        ensures { result ≡ switches_at self.now.bytes.now }
    {
        2 + 5 * usize::from(self.signals)
    }

    pub(crate) fn straights_at(&self) -> usize
        ensures { result ≡ straights_at self.now.bytes.now }
    {
        self.switches_at() + 2 + 9 * usize::from(self.switches)
    }

    pub(crate) fn sections_at(&self) -> usize
        ensures { result ≡ sections_at self.now.bytes.now }
    {
        6 + 5 * usize::from(self.signals)
            + 9 * usize::from(self.switches)
            + 4 * usize::from(self.straights)
    }

    pub(crate) fn end(&self) -> usize
        ensures { result ≡ end_of self.now.bytes.now }
    {
        let components = 5 * usize::from(self.signals)
            + 9 * usize::from(self.switches)
            + 4 * usize::from(self.straights);
        8 + components + 2 * usize::from(self.sections)
    }

    // Where the record of a component stands.
    pub fn place(&self, component: u16) -> usize
        ensures { result ≡ place self.now.bytes.now component }
    {
        let component = usize::from(component);
        let signals = usize::from(self.signals);
        if component < signals {
            return 2 + 5 * component;
        }
        let switches = usize::from(self.switches);
        if component < signals + switches {
            self.switches_at() + 2 + 9 * (component - signals)
        } else {
            self.straights_at() + 2 + 4 * (component - (signals + switches))
        }
    }

    pub fn kind(&self, component: u16) -> Kind
        ensures { result ≡ kind_of self.now.bytes.now component }
    {
        let place = self.place(component);
        if component < self.signals {
            Kind::Signal(direction_at(byte_at(self.bytes, place + 4)))
        } else if usize::from(component) < usize::from(self.signals) + usize::from(self.switches) {
            Kind::Switch(direction_at(byte_at(self.bytes, place + 6)))
        } else {
            Kind::Straight
        }
    }

    pub fn section(&self, component: u16) -> u16
        ensures { result ≡ section_of self.now.bytes.now component }
    {
        number_at(self.bytes, self.place(component) + 7)
    }

    // Where a port's record names its far port.
    pub(crate) fn field(&self, port: Port) -> usize
        ensures { result ≡ field_at self.now.bytes.now port }
    {
        self.place(port.component) + 2 * side_number(port.side)
    }

    pub(crate) fn stored(&self, port: Port) -> u16
        ensures { result ≡ stored self.now.bytes.now port }
    {
        number_at(self.bytes, self.field(port))
    }

    pub fn is_port(&self, port: Port) -> bool
        ensures { result ≡ port_in self.now.bytes.now port }
    {
        usize::from(port.component) < self.components() && self.has_side(port)
    }

    // Whether the port's component has such a side. Only a branch asks for the kind, which is read from the bytes.
    fn has_side(&self, port: Port) -> bool
        ensures { result ≡ has_side (kind_of self.now.bytes.now port.component) port.side }
    {
        match port.side {
            Side::West | Side::East => true,
            Side::Branch => self.kind(port.component).is_switch(),
        }
    }

    // The port that a port's record names, if its code can be a port's.
    pub fn named(&self, port: Port) -> Option<Port>
        ensures { result ≡ port_of (stored self.now.bytes.now port) }
    {
        port_of(self.stored(port))
    }
}
