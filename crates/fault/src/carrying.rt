ghost use Rattle.std.specs.Prelude.{◌≡◌};
ghost use Rattle.fault.specs.declared.kinds.PlanFault.TheVariants.{File as InFile};
ghost use Rattle.fault.specs.declared.kinds.BoxFault.TheVariants.{Plan as InPlan};

use crate::kinds::{BoxFault, FileFault, PlanFault};

impl From<FileFault> for PlanFault {
    ghost from_gives = { λ e r. r ≡ InFile e };

    fn from(e: FileFault) -> PlanFault {
        PlanFault::File(e)
    }
}

impl From<PlanFault> for BoxFault {
    ghost from_gives = { λ e r. r ≡ InPlan e };

    fn from(e: PlanFault) -> BoxFault {
        BoxFault::Plan(e)
    }
}
