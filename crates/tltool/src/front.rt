//! Reads the first line of a trace.

use arrayvec::ArrayVec;
use std::fs;
use std::io::Read;

/// The number of bytes of a first line that are read.
const LOOKED_AT: usize = 257;

/// The first line of a reader's input, or its first 257 bytes; less if they can't be read.
pub fn front_of<R: Read>(reader: &mut R) -> ArrayVec<u8, LOOKED_AT> {
    let mut front = ArrayVec::new();
    let mut byte = [0u8];
    for _ in 0..LOOKED_AT {
        match reader.read(&mut byte) {
            Ok(1) => {}
            _ => return front,
        }
        if front.try_push(byte[0]).is_err() || byte[0] == b'\n' {
            return front;
        }
    }
    front
}

/// The first line of the file of this name, or its first 257 bytes; less if they can't be read.
pub(crate) fn front_of_file(rt: &HostRuntime, name: &str) -> ArrayVec<u8, LOOKED_AT> {
    match fs::open(rt, name) {
        Ok(mut file) => front_of(&mut file),
        Err(_) => ArrayVec::new(),
    }
}
