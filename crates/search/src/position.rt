ghost use Rattle.std.specs.Prelude.{◌≡◌, ℕ};
ghost use Rattle.row.specs.View.{entries};
ghost use Rattle.sets.specs.Members.{has};
ghost use Rattle.route.specs.Components.{times};

use row::entries::Entries;
use sets::set::ComponentSet;

mod calls;

// Where a search stands: a path, and the set of the components on it. Since a set holds a component once at most,
// so does the path.
#[derive(Clone, Copy)]
pub struct Position {
    path: Entries,
    on: ComponentSet,
    ghost tied: { (c : ℕ) → has on c ≡ times c (entries path) },
}
