ghost use Rattle.std.specs.Prelude.{◌≡◌, ℕ};
ghost use Rattle.sets.specs.Members.{has};
ghost use Rattle.row.specs.View.{entries};
ghost use Rattle.route.specs.Components.{on};
ghost use Rattle.judging.specs.Shared.{told_shared};

use entry::component;
use fault::kinds::BoxFault;
use row::entries::Entries;
use row::reading::read_row;
use sets::set::ComponentSet;

// The set of the components of the entries.
pub fn components(list: &Entries) -> ComponentSet
    ensures { (c : ℕ) → has result c ≡ on c (entries list.now) }
{
    let mut set = ComponentSet::new();
    let all = list.as_slice();
    for e in all {
        set.insert(component(*e));
    }
    set
}

// How many components both rows have, each counted once.
pub fn shared(a: &[u8], b: &[u8]) -> Result<u16, BoxFault>
    ensures { result ≡ told_shared a.now b.now }
{
    let first = components(&read_row(a)?);
    let second = components(&read_row(b)?);
    Ok(first.common(&second))
}
