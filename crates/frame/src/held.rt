ghost use Rattle.route.specs.Tells.{Tells};
ghost use Rattle.frame.specs.Calls.{OnRow, Held, Conflicts};
ghost use Rattle.frame.specs.View.{open_rows};

use crate::open_route::OpenRoute;

// Whether the component is on the row.
fn is_on(row: &[u16], component: u16) -> bool
    ensures { Tells result (OnRow row.now component) }
{
    row.iter().any(|e| entry::component(*e) == component)
}

// Whether the component is on one of the open routes.
pub(crate) fn is_held(routes: &[OpenRoute], component: u16) -> bool
    ensures { Tells result (Held (open_rows routes.now) component) }
{
    routes.iter().any(|route| is_on(route.entries(), component))
}

// Whether the row has a component in common with one of the open routes.
pub(crate) fn conflicts(routes: &[OpenRoute], row: &[u16]) -> bool
    ensures { Tells result (Conflicts (open_rows routes.now) row.now) }
{
    row.iter().any(|e| is_held(routes, entry::component(*e)))
}
