use std::io::Read;

// No more of the input is read: the longest plan file has fewer bytes.
const MOST_BYTES: usize = 65_536;

// The bytes of standard input, up to the most that are read. Not by std's `read_to_end`, which asks for twice the space at the
// most and reads on where a read was interrupted.
pub fn read_file(rt: &HostRuntime) -> anyhow::Result<Vec<u8>> {
    let mut file = vec![in rt.alloc(); 0; MOST_BYTES]?;
    let mut stdin = rt.stdin();
    let mut used = 0;
    for _ in 0..MOST_BYTES {
        let space = file.as_mut_slice();
        if used >= space.len() {
            break;
        }
        let n = stdin.read(&mut space[used..])?;
        if n == 0 {
            break;
        }
        used += n;
    }
    file.truncate(used);
    Ok(file)
}
