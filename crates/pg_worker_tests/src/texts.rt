//! Frames as hexadecimal text.

use std::alloc::Global;
use std::test::Fail;

/// The set-up of version 2 for the game, and the line of vertex 0.
pub const SETUP: &str = "0000001a 01 02 00000002 00000002 00000003 00000001 00000001 00000001";

pub const LINES: &str = "00000016 02 00000001 00000000 00000001 00 00000001 00000000";

/// Returns the bytes of a text, which may have blanks between bytes.
pub fn bytes_of(alloc: Global, text: &str) -> Result<Vec<u8>, Fail> {
    let mut bytes = Vec::new(alloc);
    for part in text.split(' ') {
        bytes.extend_from_slice(&hex::decode(alloc, part)?)?;
    }
    Ok(bytes)
}
