#[derive(Clone, Copy, PartialEq, Eq, Debug)]
pub enum Direction {
    East,
    West,
}

// A byte that is no direction's letter.
#[derive(Clone, Copy, PartialEq, Eq, Debug)]
pub struct WrongLetter;

// A signal guards trains that travel its direction; a switch's branch faces its direction.
#[derive(Clone, Copy, PartialEq, Eq, Debug)]
pub enum Kind {
    Signal(Direction),
    Switch(Direction),
    Straight,
}

// The ports of a component: the one that faces west, the one that faces east, and a switch's branch.
#[derive(Clone, Copy, PartialEq, Eq, Debug)]
pub enum Side {
    West,
    East,
    Branch,
}

#[derive(Clone, Copy, PartialEq, Eq, Debug)]
pub struct Port {
    pub component: u16,
    pub side: Side,
}

// How a switch lies: normal leads straight on, reverse by the branch.
#[derive(Clone, Copy, PartialEq, Eq, Debug)]
pub enum Position {
    Normal,
    Reverse,
}
