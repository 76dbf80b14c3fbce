ghost use Rattle.std.specs.Prelude.{◌≡◌, ℕ, ◌<◌, ◌≤◌, true, false, [], ◌∷◌, ◌++◌, length, MatchOption, slice_index};
ghost use Rattle.sets.specs.Members.{has};
ghost use Rattle.route.specs.Components.{times};
ghost use Rattle.search.specs.View.{path_of, Pushed, Retreated};

use super::Position;
use entry::{component, lie};
use plan::parts;
use row::entries::Entries;
use sets::set::ComponentSet;

impl Position {
    // Before the first path.
    pub fn new() -> Position
        ensures { path_of result ≡ [] }
    {
        Position {
            path: Entries::new(),
            on: ComponentSet::new(),
        }
    }

    pub fn entries(&self) -> &[u16]
        ensures value { result.now ≡ path_of self.now }
        ensures short { length result.now ≤ 512 }
        ensures small { (k : ℕ) → k < length result.now → slice_index result.now k < 2048 }
    {
        self.path.as_slice()
    }

    // The components on the path.
    pub fn components(&self) -> ComponentSet
        ensures { (c : ℕ) → has result c ≡ times c (path_of self.now) }
    {
        self.on
    }

    // Goes on to the entry, unless its component is on the path already or there is no place for it. A bool, as the
    // `insert` of a `HashSet` answers.
    pub fn push(&mut self, e: u16) -> bool
        ensures { Pushed self.old e self.new result }
    {
        let component = component(e);
        if e >= 2048 || self.path.len() >= 512 || self.on.contains(component) {
            return false;
        }
        let _ = self.path.push(e);
        self.on.insert(component);
        true
    }

    // Goes back by one entry.
    pub fn pop(&mut self) -> Option<u16>
        ensures { MatchOption result ((path_of self.old ≡ []) × (path_of self.new ≡ [])) (λ e. path_of self.old ≡ path_of self.new ++ e ∷ []) }
    {
        let Some(e) = self.path.pop() else {
            return None;
        };
        self.on.remove(component(e));
        Some(e)
    }

    // Goes back past every entry that no other can stand in the place of, and by one entry more: a switch that lies
    // normal may lie reverse as well, and after the first entry another may start.
    pub fn retreat(&mut self) -> Option<u16>
        ensures { Retreated (path_of self.old) (path_of self.new) result }
    {
        while let Some(e) = self.pop() {
            if lie(e) == Some(parts::Position::Normal) || self.path.len() == 0 {
                return Some(e);
            }
        }
        None
    }
}
