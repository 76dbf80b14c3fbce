ghost use Rattle.std.specs.Prelude.{◌≡◌};
ghost use Rattle.frame.specs.Book.{fresh};
ghost use Rattle.frame.specs.View.{view};

use super::Frame;
use crate::sections::Sections;
use arrayvec::ArrayVec;
use sets::set::ComponentSet;

impl Frame {
    // All switches normal, all sections clear, and no route open.
    pub fn new() -> Frame
        ensures { view result ≡ fresh }
    {
        Frame {
            reversed: ComponentSet::new(),
            occupied: Sections::new(),
            routes: ArrayVec::new(),
            given: 0,
        }
    }
}
