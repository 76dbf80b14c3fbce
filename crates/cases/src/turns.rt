use fault::kinds::Told;
use filed::filed::FiledPlan;
use register::registers::Register;
use stations::ONE_SWITCH;

// Prints what a turn answers, and what the space holds then.
fn print_turn(
    rt: &HostRuntime,
    register: &mut Register<FiledPlan<'_>>,
    space: &mut [u8],
) -> anyhow::Result<()> {
    match register.turn(space) {
        Ok(length) => print!(rt; "{length} bytes:")?,
        Err(fault) => {
            let number = Told::from(fault).number;
            print!(rt; "refused {number}:")?;
        }
    }
    for byte in space.iter() {
        print!(rt; " {byte}")?;
    }
    println!(rt; "")?;
    Ok(())
}

// A register of two routes: a space that is too short, one that is longer than the row, and none left; and again.
pub fn print_turns(rt: &HostRuntime) -> anyhow::Result<()> {
    let mut register = Register::new(FiledPlan::take(&ONE_SWITCH));
    let mut short = [7; 7];
    let mut exact = [7; 8];
    let mut long = [7; 10];
    print_turn(rt, &mut register, &mut short)?;
    print_turn(rt, &mut register, &mut exact)?;
    print_turn(rt, &mut register, &mut short)?;
    register.restart();
    print_turn(rt, &mut register, &mut long)?;
    print_turn(rt, &mut register, &mut long)?;
    print_turn(rt, &mut register, &mut long)?;
    print_turn(rt, &mut register, &mut short)?;
    register.restart();
    print_turn(rt, &mut register, &mut exact)?;
    Ok(())
}
