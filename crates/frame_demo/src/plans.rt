use std::alloc::{AllocError, Global};

// The two rows of the one-switch station: by the switch normal to signal 1, and by the switch reverse to signal 2.
pub const STRAIGHT_ON: [u8; 8] = [3, 0, 0, 0, 13, 0, 4, 0];

pub const BY_THE_BRANCH: [u8; 8] = [3, 0, 0, 0, 14, 0, 8, 0];

// Tracks side by side, from signal 2k to signal 2k + 1, nine of them.
pub const TRACKS: u8 = 9;

pub fn tracks(heap: Global) -> Result<Vec<u8>, AllocError> {
    let mut file = Vec::new(heap);
    file.extend_from_slice(&[2 * TRACKS, 0])?;
    for k in 0..TRACKS {
        file.extend_from_slice(&[255, 255, 8 * k + 4, 0, 69])?;
        file.extend_from_slice(&[8 * k + 1, 0, 255, 255, 69])?;
    }
    file.extend_from_slice(&[0, 0, 0, 0, 0, 0])?;
    Ok(file)
}

// The row of the k-th track.
pub fn track(heap: Global, k: u8) -> Result<Vec<u8>, AllocError> {
    let start = k.saturating_mul(8);
    [2, 0, start, 0, start.saturating_add(4), 0].to_vec(heap)
}
