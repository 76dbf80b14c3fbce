// How many examples of the documents came out as they should.
use anyhow::anyhow;

#[derive(Drop)]
pub struct Tally<'a> {
    rt: &'a HostRuntime,
    count: usize,
}

impl<'a> Tally<'a> {
    pub fn new(rt: &'a HostRuntime) -> Tally<'a> {
        Tally { rt, count: 0 }
    }

    // Prints that the example is right. One that is not ends the program with an error.
    pub fn hold(&mut self, name: &str, right: bool) -> anyhow::Result<()> {
        let rt = self.rt;
        if !right {
            println!(rt; "{name}: wrong")?;
            return Err(anyhow!("an example of the documents came out otherwise"));
        }
        println!(rt; "{name}: right")?;
        self.count = self.count.saturating_add(1);
        Ok(())
    }

    pub fn print(&self) -> anyhow::Result<()> {
        let (rt, count) = (self.rt, self.count);
        println!(rt; "examples of the documents: {count}")?;
        Ok(())
    }
}
