use fault::kinds::BoxFault;
use plan::parts::Position;

// What a box is asked. A turn brings the space that it writes to; a slip is named by its place in the pool of slips at
// hand.
#[derive(Drop)]
pub enum Order {
    Turn(Vec<u8>),
    Restart,
    Throw(u16, Position),
    Occupy(u16),
    Clear(u16),
    Open(Vec<u8>),
    Release(usize),
}

// What the box answered. A turn hands its space back, an opening tells the serial of the slip that went to the pool, and a
// release that of the slip that it brought. Where the pool has no such slip, no call is made.
#[derive(Drop)]
pub enum Answer {
    Turned(Vec<u8>, Result<usize, BoxFault>),
    Restarted,
    Thrown(Result<(), BoxFault>),
    Occupied(Result<(), BoxFault>),
    Cleared(Result<(), BoxFault>),
    Opened(Result<u16, BoxFault>),
    Released(u16, Result<(), BoxFault>),
    NoSlip,
}
