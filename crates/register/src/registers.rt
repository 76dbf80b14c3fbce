ghost use Rattle.std.specs.Prelude.{◌≡◌, ℕ, List, [], OnErr};
ghost use Rattle.route.specs.Order.{StrictAndTotal};
ghost use Rattle.register.specs.Handed.{Handed, Stands, Turned};
ghost use Rattle.search.specs.View.{path_of};

use fault::kinds::BoxFault;
use plan::interface::Plan;
use row::writing::write_row;
use search::position::Position;
use search::routes::next_route;

// How many rows a register hands out before it is restarted.
pub const MOST_ROWS: u16 = 65_535;

// The register looks ahead: it holds the next route to hand out, so a refused turn has nothing to undo. An empty position
// is none: the search leaves it so, and an Option around it would have two ways to say it.
#[derive(Drop)]
pub struct Register<P> {
    plan: P,
    next: Position,
    handed: u16,
}

// The first route of the plan, or the empty position where there is none.
fn first_route<P: Plan>(plan: &P) -> Position
    ensures { Stands (P.layout plan.now) [] (path_of result) }
{
    let mut next = Position::new();
    let _ = next_route(plan, &mut next);
    next
}

impl<P: Plan> Register<P> {
    // Stands before the first route. The order in which the routes come is strict and total.
    pub fn new(plan: P) -> Register<P>
        ensures plan { result.plan ≡ plan }
        ensures history { Handed (P.layout plan) [] result }
        ensures order { StrictAndTotal }
    {
        let next = first_route(&plan);
        Register {
            plan,
            next,
            handed: 0,
        }
    }

    pub fn plan(&self) -> &P
        ensures { result.now ≡ self.now.plan }
    {
        &self.plan
    }

    // Writes the next route's row at the front of the space and answers its length in bytes.
    pub fn turn(&mut self, space: &mut [u8]) -> Result<usize, BoxFault>
        ensures plan { self.new.plan ≡ self.old.plan }
        ensures refused { OnErr result ((self.new ≡ self.old) × (space.new ≡ space.old)) }
        ensures history { (rows : List (List ℕ)) → Handed (P.layout self.old.plan) rows self.old → Turned (P.layout self.old.plan) rows space.old space.new self.new result }
    {
        if self.next.entries().is_empty() {
            return Err(BoxFault::Drained);
        }
        if self.handed == MOST_ROWS {
            return Err(BoxFault::RowsSpent);
        }
        let length = write_row(self.next.entries(), space)?;
        let _ = next_route(&self.plan, &mut self.next);
        self.handed += 1;
        Ok(length)
    }

    // Stands before the first route again.
    pub fn restart(&mut self)
        ensures plan { self.new.plan ≡ self.old.plan }
        ensures history { Handed (P.layout self.old.plan) [] self.new }
    {
        self.next = first_route(&self.plan);
        self.handed = 0;
    }
}
