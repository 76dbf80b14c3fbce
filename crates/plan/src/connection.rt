ghost use Rattle.std.specs.Prelude.{◌≡◌};
ghost use Rattle.plan.specs.Layout.{told_connected};
ghost use Rattle.plan.specs.Blanks.{BlanksMatchNothing};

use crate::interface::Plan;
use crate::parts::Port;
use fault::kinds::PlanFault;

// Whether the two ports are connected. A blank is no port, so a blank port is connected to none, not even to
// another blank one.
pub fn connected<P: Plan>(plan: &P, a: Port, b: Port) -> Result<bool, PlanFault>
    ensures told { result ≡ told_connected (P.layout plan.now) a b }
    ensures blanks { BlanksMatchNothing }
{
    let far = plan.far(a)?;
    let _ = plan.far(b)?;
    Ok(far == Some(b))
}
