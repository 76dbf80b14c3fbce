ghost use Rattle.std.specs.Prelude.{◌≡◌, ℕ, true, false, ◌&&◌, if◌then◌else◌, ◌==◌, nat_eq, nat_lt};
ghost use Rattle.frame.specs.View.{occupied_in};

use sets::set::ComponentSet;

// The number of point section 0 among all sections; the smaller numbers are components, of straight sections.
pub(crate) const FIRST_POINT: u16 = 512;

// The sections that are occupied.
#[derive(Clone, Copy)]
pub(crate) struct Sections {
    straights: ComponentSet,
    points: ComponentSet,
}

impl Sections {
    pub(crate) fn new() -> Sections
        ensures { (n : ℕ) → occupied_in result n ≡ false }
    {
        Sections {
            straights: ComponentSet::new(),
            points: ComponentSet::new(),
        }
    }

    pub(crate) fn contains(&self, section: u16) -> bool
        ensures { result ≡ occupied_in self.now section }
    {
        if section < FIRST_POINT {
            self.straights.contains(section)
        } else {
            self.points.contains(section - FIRST_POINT)
        }
    }

    // Takes in a section; a number from 1,024 on is none.
    pub(crate) fn insert(&mut self, section: u16)
        ensures { (n : ℕ) → occupied_in self.new n ≡ (if nat_lt section 1024 && n == section then true else occupied_in self.old n) }
    {
        if section < FIRST_POINT {
            self.straights.insert(section);
        } else {
            self.points.insert(section - FIRST_POINT);
        }
    }

    pub(crate) fn remove(&mut self, section: u16)
        ensures { (n : ℕ) → occupied_in self.new n ≡ (if nat_eq n section then false else occupied_in self.old n) }
    {
        if section < FIRST_POINT {
            self.straights.remove(section);
        } else {
            self.points.remove(section - FIRST_POINT);
        }
    }
}
