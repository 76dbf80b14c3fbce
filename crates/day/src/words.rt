ghost use Rattle.day.specs.Words.{order_words, answer_words};

use crate::orders::{Answer, Order};
use fault::kinds::Told;
use plan::parts::Position;
use std::fmt;

impl fmt::Display for Order {
    ghost output = { order_words };

    fn fmt<W: fmt::Write>(&self, f: &mut fmt::Formatter<W>) -> fmt::Result {
        match self {
            Order::Turn(space) => {
                let length = space.len();
                write!(f, "turn, {length} bytes")
            }
            Order::Restart => write!(f, "restart"),
            Order::Throw(switch, Position::Normal) => write!(f, "throw {switch} normal"),
            Order::Throw(switch, Position::Reverse) => write!(f, "throw {switch} reverse"),
            Order::Occupy(section) => write!(f, "occupy {section}"),
            Order::Clear(section) => write!(f, "clear {section}"),
            Order::Open(row) => write!(f, "open {row:?}"),
            Order::Release(place) => write!(f, "release the slip at {place}"),
        }
    }
}

impl fmt::Display for Answer {
    ghost output = { answer_words };

    fn fmt<W: fmt::Write>(&self, f: &mut fmt::Formatter<W>) -> fmt::Result {
        match self {
            Answer::Turned(space, Ok(length)) => write!(f, "{length} bytes: {space:?}"),
            Answer::Opened(Ok(serial)) => write!(f, "slip {serial}"),
            Answer::Released(serial, Ok(())) => write!(f, "slip {serial} closed its route"),
            Answer::Released(serial, Err(fault)) => {
                let told = Told::from(*fault);
                write!(f, "slip {serial} refused {told}")
            }
            Answer::NoSlip => write!(f, "no such slip"),
            Answer::Restarted
            | Answer::Thrown(Ok(()))
            | Answer::Occupied(Ok(()))
            | Answer::Cleared(Ok(())) => write!(f, "done"),
            Answer::Turned(_, Err(fault))
            | Answer::Thrown(Err(fault))
            | Answer::Occupied(Err(fault))
            | Answer::Cleared(Err(fault))
            | Answer::Opened(Err(fault)) => {
                let told = Told::from(*fault);
                write!(f, "refused {told}")
            }
        }
    }
}
