use crate::judgements::ROUTES;
use anyhow::anyhow;
use judging::shared::shared;

// Prints, for each two of the routes, how many components they have in common.
pub fn print_table(rt: &HostRuntime) -> anyhow::Result<()> {
    for (_, row) in &ROUTES {
        print_line(rt, row)?;
    }
    Ok(())
}

fn print_line(rt: &HostRuntime, first: &[u8]) -> anyhow::Result<()> {
    let mut gap = "";
    for (_, second) in &ROUTES {
        let Ok(count) = shared(first, second) else {
            return Err(anyhow!("a route has not the shape of a row"));
        };
        print!(rt; "{gap}{count}")?;
        gap = " ";
    }
    println!(rt; "")?;
    Ok(())
}
