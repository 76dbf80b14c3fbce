ghost use Rattle.std.specs.Prelude.{◌≡◌};
ghost use Rattle.plan.specs.Layout.{faces, side_faces, opposed};
ghost use Rattle.file.specs.Checks.{first_failing};
ghost use Rattle.file.specs.Contents.{layout_of};
ghost use Rattle.file.specs.Members.{belongs, members};
ghost use Rattle.file.specs.Readings.{named_checks, blank_check, field_checks, port_checks, switch_checks, component_checks, component_fields, section_fields, section_check, second_reading};

use crate::codes::BLANK;
use crate::contents::{Contents, FirstRead};
use fault::kinds::PlanFault;
use numbers::number_at;
use plan::parts::{Kind, Port, Side};

// A kind with which the port faces as it does. Only which way a branch faces is said by its kind, so only that is read.
fn facing(file: &Contents, port: Port) -> Kind
    ensures { side_faces result port.side ≡ faces (layout_of file.now.bytes.now) port }
{
    match port.side {
        Side::West | Side::East => Kind::Straight,
        Side::Branch => file.kind(port.component),
    }
}

fn is_opposed(file: &Contents, port: Port, other: Port) -> bool
    ensures { result ≡ opposed (layout_of file.now.bytes.now) port other }
{
    port.is_opposed(facing(file, port), other, facing(file, other))
}

// The field of a port, where it names another.
fn read_named(file: &Contents, port: Port, named: Port) -> Result<(), PlanFault>
    ensures { result ≡ first_failing (named_checks file.now.bytes.now port named) }
{
    let place = file.field(port);
    if !file.is_port(named) {
        return Err(PlanFault::NoSuchPart(place));
    }
    if !is_opposed(file, port, named) {
        return Err(PlanFault::NotOpposed(place));
    }
    if file.named(named) == Some(port) {
        Ok(())
    } else {
        Err(PlanFault::NotNamedBack(place))
    }
}

fn read_blank(file: &Contents, port: Port) -> Result<(), PlanFault>
    ensures { result ≡ first_failing (blank_check file.now.bytes.now port) }
{
    if file.kind(port.component).is_switch() && file.stored(port) == BLANK {
        return Err(PlanFault::BlankPort(file.field(port)));
    }
    Ok(())
}

fn read_field(file: &Contents, port: Port) -> Result<(), PlanFault>
    ensures { result ≡ first_failing (field_checks file.now.bytes.now port) }
{
    match file.named(port) {
        Some(named) => read_named(file, port, named),
        None if file.stored(port) == BLANK => Ok(()),
        None => Err(PlanFault::NoSuchPart(file.field(port))),
    }
}

fn read_port(file: &Contents, port: Port) -> Result<(), PlanFault>
    ensures { result ≡ first_failing (port_checks file.now.bytes.now port) }
{
    read_blank(file, port)?;
    read_field(file, port)
}

// The third port of a switch, and its point section.
fn read_switch(file: &Contents, component: u16) -> Result<(), PlanFault>
    ensures { result ≡ first_failing (switch_checks file.now.bytes.now component) }
{
    read_port(file, Side::Branch.of(component))?;
    if file.section(component) < file.sections {
        Ok(())
    } else {
        Err(PlanFault::NoSuchPart(file.place(component) + 7))
    }
}

fn read_component(file: &Contents, component: u16) -> Result<(), PlanFault>
    ensures { result ≡ first_failing (component_checks file.now.bytes.now component) }
{
    read_port(file, Side::West.of(component))?;
    read_port(file, Side::East.of(component))?;
    if file.kind(component).is_switch() {
        read_switch(file, component)
    } else {
        Ok(())
    }
}

fn belongs(file: &Contents, section: u16, component: u16) -> bool
    ensures { result ≡ belongs (layout_of file.now.bytes.now) section component }
{
    file.kind(component).is_switch() && file.section(component) == section
}

impl FirstRead<'_> {
    fn read_components(&self) -> Result<(), PlanFault>
        ensures { result ≡ first_failing (component_fields self.now.file.bytes.now) }
    {
        for component in 0..self.file.components() as u16 {
            read_component(&self.file, component)?;
        }
        Ok(())
    }

    // How many switches belong to a point section. A loop: of `filter` and `count` the proof did not close.
    fn members(&self, section: u16) -> u16
        ensures { result ≡ members (layout_of self.now.file.bytes.now) section }
    {
        let mut count = 0;
        for component in 0..self.file.components() as u16 {
            if belongs(&self.file, section, component) {
                count += 1;
            }
        }
        count
    }

    fn read_section(&self, section: u16) -> Result<(), PlanFault>
        ensures { result ≡ first_failing (section_check self.now.file.bytes.now section) }
    {
        let place = self.file.sections_at() + 2 + 2 * usize::from(section);
        let count = number_at(self.file.bytes, place);
        if count != 0 && count == self.members(section) {
            Ok(())
        } else {
            Err(PlanFault::WrongSwitchCount(place))
        }
    }

    fn read_sections(&self) -> Result<(), PlanFault>
        ensures { result ≡ first_failing (section_fields self.now.file.bytes.now) }
    {
        for section in 0..self.file.sections {
            self.read_section(section)?;
        }
        Ok(())
    }

    // Field by field, in the order of the file.
    pub(crate) fn second_reading(&self) -> Result<(), PlanFault>
        ensures { result ≡ first_failing (second_reading self.now.file.bytes.now) }
    {
        self.read_components()?;
        self.read_sections()
    }
}
