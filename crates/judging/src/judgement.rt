ghost use Rattle.std.specs.Prelude.{◌≡◌, true, Ok};
ghost use Rattle.row.specs.Row.{is_row, entries_of};
ghost use Rattle.route.specs.Paths.{Route};
ghost use Rattle.judging.specs.Judged.{Judged};

use crate::walking::walked;
use fault::kinds::BoxFault;
use plan::interface::Plan;
use route::ends::is_route;
use row::reading::read_row;

// Accepts the row exactly where it is a route of the plan. A row that is none is refused with the place of the first
// entry that no path has there, or with the number of its entries where only its end is wrong.
pub fn judge<P: Plan>(plan: &P, row: &[u8]) -> Result<(), BoxFault>
    ensures judged { Judged (P.layout plan.now) row.now result }
    ensures routes { is_row row.now ≡ true → Route (P.layout plan.now) (entries_of row.now) → result ≡ Ok tt }
{
    let entries = read_row(row)?;
    let path = entries.as_slice();
    let place = walked(plan, path);
    if place < path.len() || !is_route(plan, path) {
        return Err(BoxFault::NoRoute(place));
    }
    Ok(())
}
