ghost use Rattle.std.specs.Prelude.{◌<◌, vec_len, vec_capacity};
ghost use Rattle.day.specs.declared.orders.Order.TheVariants.{Open, Release};
ghost use Rattle.day.specs.Step.{Performs};

use crate::orders::{Answer, Order};
use frame::slip::Slip;
use plan::interface::Plan;
use signal_box::signal_box::SignalBox;

// Performs one order. Orders are written down before the day, so they are data and no closures. That the pool has room for
// one slip more is a condition of three calls here and no invariant of a pool, which is the caller's Vec; the box is the
// day's own, so the two are no struct.
pub(crate) fn perform<P: Plan>(
    station: &mut SignalBox<P>,
    pool: &mut Vec<Slip>,
    order: Order,
) -> Answer
    requires { vec_len pool.old < vec_capacity pool.old }
    ensures { Performs P.layout station.old pool.old order result station.new pool.new }
{
    match order {
        Order::Turn(mut space) => {
            let answer = station.turn(&mut space);
            Answer::Turned(space, answer)
        }
        Order::Restart => {
            station.restart();
            Answer::Restarted
        }
        Order::Throw(switch, to) => Answer::Thrown(station.throw(switch, to)),
        Order::Occupy(section) => Answer::Occupied(station.occupy(section)),
        Order::Clear(section) => Answer::Cleared(station.clear(section)),
        Order::Open(row) => open(station, pool, row),
        Order::Release(place) => release(station, pool, place),
    }
}

// Opens a row; the slip goes to the pool.
fn open<P: Plan>(station: &mut SignalBox<P>, pool: &mut Vec<Slip>, row: Vec<u8>) -> Answer
    requires { vec_len pool.old < vec_capacity pool.old }
    ensures { Performs P.layout station.old pool.old (Open row) result station.new pool.new }
{
    match station.open(&row) {
        Ok(slip) => {
            let serial = slip.serial();
            pool.push_reserved(slip);
            Answer::Opened(Ok(serial))
        }
        Err(fault) => Answer::Opened(Err(fault)),
    }
}

// Releases a slip of the pool; one that is handed back goes to the end of the pool.
fn release<P: Plan>(station: &mut SignalBox<P>, pool: &mut Vec<Slip>, place: usize) -> Answer
    requires { vec_len pool.old < vec_capacity pool.old }
    ensures { Performs P.layout station.old pool.old (Release place) result station.new pool.new }
{
    if place >= pool.len() {
        return Answer::NoSlip;
    }
    let slip = pool.remove(place);
    let serial = slip.serial();
    match station.release(slip) {
        Ok(()) => Answer::Released(serial, Ok(())),
        Err((fault, slip)) => {
            pool.push_reserved(slip);
            Answer::Released(serial, Err(fault))
        }
    }
}
