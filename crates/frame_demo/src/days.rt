ghost use Rattle.std.specs.Prelude.{◌≡◌, ℕ, ◌+◌, ◌<◌, List, [], ◌∷◌, ◌++◌, vec_len};
ghost use Rattle.frame.specs.Book.{Book};
ghost use Rattle.frame.specs.View.{view};
ghost use Rattle.day.specs.Balance.{copies, open_serials, Balanced};
ghost use Rattle.day.specs.Pool.{serials};
ghost use Rattle.frame_demo.specs.Matched.{Matched};

use crate::plans::{BY_THE_BRANCH, STRAIGHT_ON, TRACKS, track, tracks};
use day::orders::{Answer, Order};
use day::running::{DayEnd, run_day};
use filed::filed::FiledPlan;
use frame::frame::Frame;
use frame::slip::Slip;
use plan::parts::Position;
use stations::ONE_SWITCH;
use std::alloc::{AllocError, Global};

// Days at two stations with one pool of slips. However far that comes before printing or memory fails, the slips of the pool
// are then those of the open routes, so each closes its route and none is left.
pub(crate) fn print_days(rt: &HostRuntime, pool: &mut Vec<Slip>) -> anyhow::Result<()>
    requires { vec_len pool.old ≡ 0 }
    ensures { vec_len pool.new ≡ 0 }
{
    let mut first = Frame::new();
    let mut second = Frame::new();
    let printed = print_both(rt, &mut first, &mut second, pool);
    settle(&mut first, &mut second, pool);
    printed
}

// A day at each station. The first leaves a route open, so its slip is a foreign one on the second; what the second leaves
// in the pool is released at the first. The frames and the pool are no struct that keeps `Matched`, which does not hold while
// a slip is out of the pool.
fn print_both(
    rt: &HostRuntime,
    first: &mut Frame,
    second: &mut Frame,
    pool: &mut Vec<Slip>,
) -> anyhow::Result<()>
    requires no_slip { vec_len pool.old ≡ 0 }
    requires first { (view first.old).opened ≡ [] }
    requires second { (view second.old).opened ≡ [] }
    ensures { Matched (serials pool.new.items) (view first.new) (view second.new) }
{
    let heap = rt.alloc();
    let orders = one_switch_orders(heap)?;
    print_day(rt, "one switch", &ONE_SWITCH, orders, first, pool)?;
    let file = tracks(heap)?;
    let orders = nine_track_orders(heap)?;
    print_day(rt, "nine tracks", file.as_slice(), orders, second, pool)?;
    let open = second.open_routes().len();
    println!(rt; "{open} routes open")?;
    print_release(rt, first, pool)
}

// Runs a day on a new box over the file's plan, and prints each order with its answer. The frame is then that of the box.
fn print_day(
    rt: &HostRuntime,
    station: &str,
    file: &[u8],
    orders: Vec<Order>,
    frame: &mut Frame,
    pool: &mut Vec<Slip>,
) -> anyhow::Result<()>
    requires { (view frame.old).opened ≡ [] }
    ensures { Balanced (serials pool.old.items) (serials pool.new.items) (view frame.new) }
{
    let heap = rt.alloc();
    println!(rt; "{station}")?;
    let words = all_words(heap, orders.as_slice())?;
    let DayEnd {
        frame: left,
        answers,
    } = run_day(heap, FiledPlan::take(file), orders, pool)?;
    *frame = left;
    print_answers(rt, words.as_slice(), answers.as_slice())
}

// The orders in words; they go into the day.
fn all_words(heap: Global, orders: &[Order]) -> Result<Vec<String>, AllocError> {
    orders
        .iter()
        .map(|order| order.to_string(heap))
        .collect::<Result<_, _>>(heap)?
}

fn print_answers(rt: &HostRuntime, words: &[String], answers: &[Answer]) -> anyhow::Result<()> {
    for (order, answer) in words.iter().zip(answers) {
        println!(rt; "  {order}: {answer}")?;
    }
    Ok(())
}

// Releases the last slip of the pool at the frame; where it is refused, it stays in the pool.
fn print_release(rt: &HostRuntime, frame: &mut Frame, pool: &mut Vec<Slip>) -> anyhow::Result<()>
    ensures { (b : Book) → Matched (serials pool.old.items) (view frame.old) b → Matched (serials pool.new.items) (view frame.new) b }
{
    let Some(slip) = pool.pop() else {
        return Ok(());
    };
    match frame.release(slip) {
        Ok(()) => println!(rt; "the last slip closed a route of the first station")?,
        Err((_, slip)) => {
            pool.push_reserved(slip);
            println!(rt; "the last slip was refused")?;
        }
    }
    Ok(())
}

// Releases every slip of the pool.
fn settle(first: &mut Frame, second: &mut Frame, pool: &mut Vec<Slip>)
    requires { Matched (serials pool.old.items) (view first.old) (view second.old) }
    ensures { vec_len pool.new ≡ 0 }
{
    while let Some(slip) = pool.pop() {
        close(first, second, slip);
    }
}

// Closes the route of the slip on the frame where it is open.
fn close(first: &mut Frame, second: &mut Frame, slip: Slip)
    requires { 0 < copies slip.serial (open_serials (view first.old)) + copies slip.serial (open_serials (view second.old)) }
    ensures { (p : List ℕ) → Matched (p ++ slip.serial ∷ []) (view first.old) (view second.old) → Matched p (view first.new) (view second.new) }
{
    match second.release(slip) {
        Ok(()) => {}
        Err((_, slip)) => match first.release(slip) {
            Ok(()) => {}
            Err((_, _slip)) => unreachable!(),
        },
    }
}

fn one_switch_orders(heap: Global) -> Result<Vec<Order>, AllocError> {
    let mut orders = vec![in heap;
        turn(heap, 7)?,
        turn(heap, 9)?,
        open(heap, &BY_THE_BRANCH)?,
        Order::Throw(3, Position::Reverse),
        open(heap, &BY_THE_BRANCH)?,
        open(heap, &STRAIGHT_ON)?,
        Order::Throw(3, Position::Normal),
        Order::Release(0),
        Order::Release(0),
    ]?;
    orders.extend(occupied_orders(heap)?)?;
    Ok(orders)
}

// What an occupied point section refuses, numbers that name no section or switch, and the end of the register.
fn occupied_orders(heap: Global) -> Result<Vec<Order>, AllocError> {
    Ok(vec![in heap;
        Order::Occupy(512),
        Order::Throw(3, Position::Normal),
        open(heap, &BY_THE_BRANCH)?,
        Order::Clear(512),
        Order::Occupy(513),
        Order::Clear(0),
        Order::Throw(2, Position::Normal),
        open(heap, &BY_THE_BRANCH)?,
        open(heap, &[3, 0, 0, 0, 13, 0, 8, 0])?,
        open(heap, &[3, 0, 0, 0, 13, 0, 4])?,
        turn(heap, 8)?,
        turn(heap, 8)?,
        Order::Restart,
        turn(heap, 8)?,
    ]?)
}

// A foreign slip closes the route of its serial, and the route's own slip is refused then; and a ninth route.
fn nine_track_orders(heap: Global) -> Result<Vec<Order>, AllocError> {
    let mut orders = vec![in heap;
        Order::Open(track(heap, 0)?),
        Order::Open(track(heap, 1)?),
        Order::Release(0),
        Order::Release(1),
        Order::Release(0),
    ]?;
    for k in 0..TRACKS {
        orders.push(Order::Open(track(heap, k)?))?;
    }
    for _ in 1..TRACKS {
        orders.push(Order::Release(1))?;
    }
    Ok(orders)
}

// A turn with a space of so many bytes.
fn turn(heap: Global, length: usize) -> Result<Order, AllocError> {
    Ok(Order::Turn(vec![in heap; 7; length]?))
}

fn open(heap: Global, row: &[u8]) -> Result<Order, AllocError> {
    Ok(Order::Open(row.to_vec(heap)?))
}
