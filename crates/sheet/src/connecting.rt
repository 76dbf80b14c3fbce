ghost use Rattle.std.specs.Prelude.{◌≡◌, ◌<◌, MatchResult};
ghost use Rattle.sheet.specs.Connections.{told_connect, told_disconnect};
ghost use Rattle.sheet.specs.Records.{put_in};
ghost use Rattle.sheet.specs.Sheets.{plan_of, SameSpace, Connected, Disconnected};

use crate::sheet::Sheet;
use fault::kinds::PlanFault;
use plan::parts::Port;

impl Sheet<'_> {
    // Makes a port name another, or none.
    fn put(&mut self, port: Port, far: Option<Port>)
        requires { port.component < self.old.count }
        ensures records { self.new.records.now ≡ put_in self.old.records.now port far }
        ensures count { self.new.count ≡ self.old.count }
        ensures sections { self.new.sections ≡ self.old.sections }
        ensures space { SameSpace self.old self.new }
    {
        let component = usize::from(port.component);
        self.records[component] = self.records[component].naming(port.side, far);
    }

    pub fn connect(&mut self, a: Port, b: Port) -> Result<(), PlanFault>
        ensures told { result ≡ told_connect (plan_of self.old) a b }
        ensures after { MatchResult result (λ _. Connected self.old self.new a b) (λ _. self.new ≡ self.old) }
        ensures space { SameSpace self.old self.new }
    {
        let far_a = self.far(a)?;
        let far_b = self.far(b)?;
        if !self.drawn().is_opposed(a, b) {
            return Err(PlanFault::NotOpposed(0));
        }
        if far_a.is_some() || far_b.is_some() {
            return Err(PlanFault::AlreadyConnected);
        }
        self.put(a, Some(b));
        self.put(b, Some(a));
        Ok(())
    }

    pub fn disconnect(&mut self, port: Port) -> Result<(), PlanFault>
        ensures told { result ≡ told_disconnect (plan_of self.old) port }
        ensures after { MatchResult result (λ _. Disconnected self.old self.new port) (λ _. self.new ≡ self.old) }
        ensures space { SameSpace self.old self.new }
    {
        let Some(far) = self.far(port)? else {
            return Err(PlanFault::BlankPort(0));
        };
        self.put(port, None);
        self.put(far, None);
        Ok(())
    }
}
