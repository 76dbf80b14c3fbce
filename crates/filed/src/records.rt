ghost use Rattle.std.specs.Prelude.{◌+◌, ◌≤◌, length};
ghost use Rattle.filed.specs.Records.{Part, Held};

use crate::filed::FiledPlan;
use fault::kinds::PlanFault;
use plan::parts::Kind;

// A component's record: the part of the file that holds it, and its place there. A case for each kind, since callers match
// on it, though all have the same two fields.
#[derive(Clone, Copy)]
pub enum Record<'a> {
    Signal { place: usize, bytes: &'a [u8] },
    Switch { place: usize, bytes: &'a [u8] },
    Straight { place: usize, bytes: &'a [u8] },
}

fn cut<'a>(bytes: &'a [u8], place: usize, size: usize) -> &'a [u8]
    requires { place + size ≤ length bytes.now }
    ensures { Part bytes.now place size result.now }
{
    &bytes[place..place + size]
}

impl<'a> FiledPlan<'a> {
    pub fn record(&self, component: u16) -> Result<Record<'a>, PlanFault>
        ensures { Held self.now.contents.bytes.now component result }
    {
        if usize::from(component) >= self.contents.components() {
            return Err(PlanFault::NoSuchPart(0));
        }
        let file = self.contents.bytes;
        let place = self.contents.place(component);
        match self.contents.kind(component) {
            Kind::Signal(_) => {
                let bytes = cut(file, place, 5);
                Ok(Record::Signal { place, bytes })
            }
            Kind::Switch(_) => {
                let bytes = cut(file, place, 9);
                Ok(Record::Switch { place, bytes })
            }
            Kind::Straight => {
                let bytes = cut(file, place, 4);
                Ok(Record::Straight { place, bytes })
            }
        }
    }
}
