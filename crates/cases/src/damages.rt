use fault::kinds::Told;
use file::look::look_over;
use stations::ONE_SWITCH;

// Another byte at one offset of the one-switch station.
const DAMAGES: [(usize, u8); 54] = [
    (0, 2),
    (0, 4),
    (0, 0),
    (1, 1),
    (1, 2),
    (2, 0),
    (3, 0),
    (4, 13),
    (4, 14),
    (4, 15),
    (4, 16),
    (4, 4),
    (4, 0),
    (4, 1),
    (4, 2),
    (5, 1),
    (6, 87),
    (6, 68),
    (7, 12),
    (7, 14),
    (7, 5),
    (7, 9),
    (7, 255),
    (8, 255),
    (9, 0),
    (10, 127),
    (11, 0),
    (11, 87),
    (12, 13),
    (13, 1),
    (14, 254),
    (16, 101),
    (17, 0),
    (17, 2),
    (18, 2),
    (19, 255),
    (19, 5),
    (20, 128),
    (21, 8),
    (22, 1),
    (23, 4),
    (24, 255),
    (25, 87),
    (25, 70),
    (26, 1),
    (27, 1),
    (28, 1),
    (29, 2),
    (30, 0),
    (30, 2),
    (31, 2),
    (32, 0),
    (32, 2),
    (33, 1),
];

// Prints what looking over each damaged file answers: number and place, or that the file is good.
pub fn print_damages(rt: &HostRuntime) -> anyhow::Result<()> {
    for (offset, byte) in DAMAGES {
        let mut file = ONE_SWITCH;
        if offset < file.len() {
            file[offset] = byte;
        }
        match look_over(&file) {
            Ok(()) => println!(rt; "byte {offset} is {byte}: good")?,
            Err(fault) => {
                let told = Told::from(fault);
                println!(rt; "byte {offset} is {byte}: {told}")?;
            }
        }
    }
    Ok(())
}
