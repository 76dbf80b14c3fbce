ghost use Rattle.std.specs.Prelude.{◌≡◌};
ghost use Rattle.fault.specs.Table.{file_told, plan_told, box_told};

use crate::kinds::{BoxFault, FileFault, Layer, PlanFault, Told};

impl From<FileFault> for Told {
    ghost from_gives = { λ e r. r ≡ file_told e };

    fn from(fault: FileFault) -> Told {
        let (number, place) = match fault {
            FileFault::CutOff(place) => (1, place),
            FileFault::LeftOver(place) => (2, place),
            FileFault::TooMany(place) => (3, place),
            FileFault::WrongLetter(place) => (4, place),
        };
        Told {
            layer: Layer::File,
            number,
            place,
        }
    }
}

impl From<PlanFault> for Told {
    ghost from_gives = { λ e r. r ≡ plan_told e };

    fn from(fault: PlanFault) -> Told {
        let (number, place) = match fault {
            PlanFault::File(fault) => return Told::from(fault),
            PlanFault::SheetFull => (3, 0),
            PlanFault::WrongLetter => (4, 0),
            PlanFault::NoSuchPart(place) => (5, place),
            PlanFault::NotOpposed(place) => (6, place),
            PlanFault::NotNamedBack(place) => (7, place),
            PlanFault::AlreadyConnected => (8, 0),
            PlanFault::BlankPort(place) => (9, place),
            PlanFault::WrongSwitchCount(place) => (10, place),
        };
        Told {
            layer: Layer::Plan,
            number,
            place,
        }
    }
}

impl From<BoxFault> for Told {
    ghost from_gives = { λ e r. r ≡ box_told e };

    fn from(fault: BoxFault) -> Told {
        let (number, place) = match fault {
            BoxFault::Plan(fault) => return Told::from(fault),
            BoxFault::NoSuchSection => (5, 0),
            BoxFault::ShortSpace => (11, 0),
            BoxFault::Drained => (12, 0),
            BoxFault::RowsSpent => (13, 0),
            BoxFault::NotARow => (14, 0),
            BoxFault::NoRoute(place) => (15, place),
            BoxFault::Conflict => (16, 0),
            BoxFault::OtherPosition => (17, 0),
            BoxFault::Occupied => (18, 0),
            BoxFault::FrameFull => (19, 0),
            BoxFault::SlipsSpent => (20, 0),
            BoxFault::UnknownSlip => (21, 0),
        };
        Told {
            layer: Layer::Box,
            number,
            place,
        }
    }
}
