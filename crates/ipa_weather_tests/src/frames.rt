//! Frames of one byte, by which a test names them.
use ipa_spec::List;
use std::alloc::{AllocError, Global};

/// A frame for each byte.
pub fn frames_of(alloc: Global, bytes: &[u8]) -> Result<List<List<u8>>, AllocError> {
    let mut frames = List::new(alloc);
    for byte in bytes {
        frames.push(List::from_vec(vec![in alloc; *byte]?))?;
    }
    Ok(frames)
}

/// The bytes of frames, one after the other.
pub fn bytes_of(alloc: Global, frames: &List<List<u8>>) -> Result<Vec<u8>, AllocError> {
    let mut bytes = Vec::new(alloc);
    for frame in frames.as_slice() {
        for byte in frame.as_slice() {
            bytes.push(*byte)?;
        }
    }
    Ok(bytes)
}
