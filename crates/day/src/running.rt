ghost use Rattle.std.specs.Prelude.{◌≡◌, IfOk, OnErr};
ghost use Rattle.frame.specs.View.{view};
ghost use Rattle.signal_box.specs.Journal.{Journal};
ghost use Rattle.signal_box.specs.Kept.{Kept};
ghost use Rattle.day.specs.Balance.{Balanced};
ghost use Rattle.day.specs.Day.{WholeDay};
ghost use Rattle.day.specs.Pool.{serials};
ghost use Rattle.day.specs.Chain.{Served};

use crate::orders::{Answer, Order};
use crate::performing::perform;
use frame::frame::Frame;
use frame::slip::Slip;
use plan::interface::Plan;
use signal_box::signal_box::SignalBox;
use std::alloc::{AllocError, Global};

// What is left of a day: the frame as it stands, and the answers in the order of the orders.
#[derive(Drop)]
pub struct DayEnd {
    pub frame: Frame,
    pub answers: Vec<Answer>,
}

// A whole day: performs the orders one after another on a new box over the plan. The pool may hold any slips, also of other
// boxes; slips that are given go there. It fails for want of memory only, before the first order.
pub fn run_day<P: Plan + Drop>(
    heap: Global,
    plan: P,
    orders: Vec<Order>,
    pool: &mut Vec<Slip>,
) -> Result<DayEnd, AllocError>
    ensures day { IfOk result (λ d. WholeDay P (P.layout plan) (serials pool.old.items) orders.items d.answers.items (serials pool.new.items) (view d.frame)) }
    ensures refused { OnErr result (pool.new.items ≡ pool.old.items) }
    ensures balance { IfOk result (λ d. Balanced (serials pool.old.items) (serials pool.new.items) (view d.frame)) }
{
    let mut station = SignalBox::new(plan);
    let answers = serve(heap, &mut station, orders, pool)?;
    Ok(DayEnd {
        frame: station.into_frame(),
        answers,
    })
}

// Performs the orders one after another. A `for` and no chain: what a chain's closure changed is not known afterwards.
fn serve<P: Plan>(
    heap: Global,
    station: &mut SignalBox<P>,
    orders: Vec<Order>,
    pool: &mut Vec<Slip>,
) -> Result<Vec<Answer>, AllocError>
    ensures served { (j : Journal) → Kept (P.layout station.old.register.plan) j station.old → IfOk result (λ v. Served (P.layout station.old.register.plan) j (serials pool.old.items) orders.items v.items (serials pool.new.items) station.new) }
    ensures refused { OnErr result (pool.new.items ≡ pool.old.items) }
{
    let mut answers = Vec::with_capacity(heap, orders.len())?;
    pool.reserve(orders.len())?;
    for order in orders {
        answers.push_reserved(perform(station, pool, order));
    }
    Ok(answers)
}
