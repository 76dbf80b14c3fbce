ghost use Rattle.std.specs.Prelude.{◌≡◌, ◌+◌, ◌/◌, ◌%◌, ◌<◌, IfOk, OnOk, OnErr};
ghost use Rattle.arrayvec.specs.ArrayVec.{array_vec_len};
ghost use Rattle.row.specs.Row.{entries_of};
ghost use Rattle.row.specs.View.{entries};
ghost use Rattle.route.specs.Tells.{Tells};
ghost use Rattle.frame.specs.Book.{opened_with};
ghost use Rattle.frame.specs.Calls.{Against, LiesOtherwise, OnOccupied, RunsOccupied, Standing, Opening};
ghost use Rattle.frame.specs.Tests.{refusal};
ghost use Rattle.frame.specs.View.{view};

use super::Frame;
use crate::held::conflicts;
use crate::open_route::OpenRoute;
use crate::slip::Slip;
use crate::watching::section_of;
use fault::kinds::BoxFault;
use judging::judgement::judge;
use plan::interface::Plan;
use row::entries::Entries;
use row::reading::read_row;

// How many slips a frame gives.
const MOST_SLIPS: u16 = 65_535;

impl Frame {
    // Opens a row where nothing speaks against it, and gives the slip that closes it. No switch moves.
    pub fn open<P: Plan>(&mut self, plan: &P, row: &[u8]) -> Result<Slip, BoxFault>
        ensures told { Opening (P.layout plan.now) (view self.old) row.now (refusal result) }
        ensures serial { IfOk result (λ s. s.serial ≡ (view self.old).given + 1) }
        ensures refused { OnErr result (self.new ≡ self.old) }
        ensures after { IfOk result (λ s. view self.new ≡ opened_with (view self.old) s.serial (entries_of row.now)) }
    {
        let entries = self.admit(plan, row)?;
        let serial = self.given + 1;
        self.routes.push(OpenRoute {
            serial,
            row: entries,
        });
        self.given = serial;
        Ok(Slip { serial })
    }

    // The entries of a row that may be opened.
    fn admit<P: Plan>(&self, plan: &P, row: &[u8]) -> Result<Entries, BoxFault>
        ensures told { Opening (P.layout plan.now) (view self.now) row.now (refusal result) }
        ensures entries { IfOk result (λ x. entries x ≡ entries_of row.now) }
        ensures room { OnOk result (array_vec_len self.now.routes < 8) }
    {
        judge(plan, row)?;
        let entries = read_row(row)?;
        self.unhindered(plan, entries.as_slice())?;
        Ok(entries)
    }

    // Refuses a route that something on the frame hinders from being opened.
    fn unhindered<P: Plan>(&self, plan: &P, route: &[u16]) -> Result<(), BoxFault>
        ensures told { Standing (P.layout plan.now) (view self.now) route.now (refusal result) }
        ensures room { OnOk result (array_vec_len self.now.routes < 8) }
    {
        if conflicts(self.open_routes(), route) {
            return Err(BoxFault::Conflict);
        }
        if self.lies_otherwise(route) {
            return Err(BoxFault::OtherPosition);
        }
        if self.runs_occupied(plan, route) {
            return Err(BoxFault::Occupied);
        }
        if self.routes.is_full() {
            return Err(BoxFault::FrameFull);
        }
        if self.given == MOST_SLIPS {
            return Err(BoxFault::SlipsSpent);
        }
        Ok(())
    }

    // Whether a switch lies otherwise than an entry of the row has it.
    fn lies_otherwise(&self, row: &[u16]) -> bool
        ensures { Tells result (LiesOtherwise (view self.now) row.now) }
    {
        row.iter().any(|e| self.is_against(*e))
    }

    fn is_against(&self, e: u16) -> bool
        ensures { Tells result (Against ((view self.now).position (e / 4)) (e % 4)) }
    {
        entry::lie(e).is_some_and(|wanted| wanted != self.lie(entry::component(e)))
    }

    // Whether the row runs over an occupied section.
    fn runs_occupied<P: Plan>(&self, plan: &P, row: &[u16]) -> bool
        ensures { Tells result (RunsOccupied (P.layout plan.now) (view self.now) row.now) }
    {
        row.iter()
            .any(|e| self.is_on_occupied(plan, entry::component(*e)))
    }

    fn is_on_occupied<P: Plan>(&self, plan: &P, component: u16) -> bool
        ensures { Tells result (OnOccupied (P.layout plan.now) (view self.now) component) }
    {
        section_of(plan, component).is_some_and(|section| self.occupied.contains(section))
    }
}
