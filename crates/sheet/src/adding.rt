ghost use Rattle.std.specs.Prelude.{◌≡◌, ◌+◌, true, MatchResult};
ghost use Rattle.plan.specs.declared.parts.Kind.TheVariants.{Signal, Switch, Straight};
ghost use Rattle.plan.specs.Letters.{direction_at};
ghost use Rattle.sheet.specs.Adding.{empty_layout};
ghost use Rattle.sheet.specs.Records.{blank_component, section_stands};
ghost use Rattle.sheet.specs.Sheets.{plan_of, has_room, told_room, told_straight, told_signal, told_switch, told_section, SameSpace, ComponentAdded, SectionAdded};

use crate::component::Component;
use crate::sheet::Sheet;
use fault::kinds::PlanFault;
use plan::parts::{Direction, Kind};

// At most so many components, and so many point sections.
const MOST: u16 = 512;

impl<'a> Sheet<'a> {
    // A sheet without components or point sections. It writes nothing yet.
    pub fn new(space: &'a mut [Component]) -> Sheet<'a>
        ensures layout { plan_of result ≡ empty_layout }
        ensures count { result.count ≡ 0 }
        ensures sections { result.sections ≡ 0 }
        ensures records { result.records.now ≡ space.old }
        ensures held { result.records.ghost_name ≡ space.entry.ghost_name }
    {
        Sheet {
            records: space,
            count: 0,
            sections: 0,
        }
    }

    fn room(&self) -> Result<(), PlanFault>
        ensures { result ≡ told_room self.now }
    {
        if self.count < MOST && usize::from(self.count) < self.records.len() {
            Ok(())
        } else {
            Err(PlanFault::SheetFull)
        }
    }

    // Adds a component with blank ports and answers its number.
    fn add(&mut self, kind: Kind, section: u16) -> u16
        requires room { has_room self.old ≡ true }
        requires stands { section_stands (blank_component kind section) self.old.sections ≡ true }
        ensures number { result ≡ self.old.count }
        ensures after { ComponentAdded self.old self.new kind section }
        ensures space { SameSpace self.old self.new }
    {
        let number = self.count;
        self.records[usize::from(number)] = Component::blank(kind, section);
        self.count = number + 1;
        number
    }

    pub fn add_signal(&mut self, letter: u8) -> Result<u16, PlanFault>
        ensures told { result ≡ told_signal self.old letter }
        ensures after { MatchResult result (λ _. ComponentAdded self.old self.new (Signal (direction_at letter)) 0) (λ _. self.new ≡ self.old) }
        ensures space { SameSpace self.old self.new }
    {
        self.room()?;
        let direction = Direction::try_from(letter)?;
        Ok(self.add(Kind::Signal(direction), 0))
    }

    pub fn add_switch(&mut self, letter: u8, section: u16) -> Result<u16, PlanFault>
        ensures told { result ≡ told_switch self.old letter section }
        ensures after { MatchResult result (λ _. ComponentAdded self.old self.new (Switch (direction_at letter)) section) (λ _. self.new ≡ self.old) }
        ensures space { SameSpace self.old self.new }
    {
        self.room()?;
        let direction = Direction::try_from(letter)?;
        if section >= self.sections {
            return Err(PlanFault::NoSuchPart(0));
        }
        Ok(self.add(Kind::Switch(direction), section))
    }

    pub fn add_straight(&mut self) -> Result<u16, PlanFault>
        ensures told { result ≡ told_straight self.old }
        ensures after { MatchResult result (λ _. ComponentAdded self.old self.new Straight 0) (λ _. self.new ≡ self.old) }
        ensures space { SameSpace self.old self.new }
    {
        self.room()?;
        Ok(self.add(Kind::Straight, 0))
    }

    // Adds a point section and answers its number.
    pub fn add_section(&mut self) -> Result<u16, PlanFault>
        ensures told { result ≡ told_section self.old }
        ensures after { MatchResult result (λ _. SectionAdded self.old self.new) (λ _. self.new ≡ self.old) }
        ensures space { SameSpace self.old self.new }
    {
        if self.sections >= MOST {
            return Err(PlanFault::SheetFull);
        }
        let number = self.sections;
        self.sections = number + 1;
        Ok(number)
    }
}
