// The layer that found a fault.
#[derive(Clone, Copy, PartialEq, Eq, Debug)]
pub enum Layer {
    File,
    Plan,
    Box,
}

// What a fault tells: its layer, its number in the table of refusals, and a place, 0 where none is named. The number is
// what lines and C callers are given; code matches on the faults themselves.
#[derive(Clone, Copy, PartialEq, Eq, Debug)]
pub struct Told {
    pub layer: Layer,
    pub number: u8,
    pub place: usize,
}

// The first reading of a file. Each case holds the offset of the count, record, letter or rest.
#[derive(Clone, Copy, PartialEq, Eq, Debug)]
pub enum FileFault {
    CutOff(usize),
    LeftOver(usize),
    TooMany(usize),
    WrongLetter(usize),
}

// The second reading of a file, the sheet, the tellings of a plan and its records.
// A case that can meet a field of a file or a look over a sheet holds the place.
#[derive(Clone, Copy, PartialEq, Eq, Debug)]
pub enum PlanFault {
    File(FileFault),
    SheetFull,
    WrongLetter,
    NoSuchPart(usize),
    NotOpposed(usize),
    NotNamedBack(usize),
    AlreadyConnected,
    BlankPort(usize),
    WrongSwitchCount(usize),
}

// Rows, the register, the frame and the printed lines.
#[derive(Clone, Copy, PartialEq, Eq, Debug)]
pub enum BoxFault {
    Plan(PlanFault),
    NoSuchSection,
    ShortSpace,
    Drained,
    RowsSpent,
    NotARow,
    NoRoute(usize),
    Conflict,
    OtherPosition,
    Occupied,
    FrameFull,
    SlipsSpent,
    UnknownSlip,
}
