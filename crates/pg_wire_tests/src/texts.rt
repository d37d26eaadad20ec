//! Bytes as hexadecimal text.

use std::alloc::Global;
use std::test::Fail;

/// A frame of each kind, and a set-up of each version.
pub static FRAMES: [&str; 9] = [
    "0000001a 01 01 00000002 00000002 00000003 00000001 00000001 00000001",
    "0000000a 01 02 00000002 00000000",
    "00000016 02 00000001 00000000 00000001 00 00000001 00000000",
    "0000001b 03 00000002 00000002 00000000 00 00000000 00000001 00000001 01",
    "00000005 04 00001000",
    "00000003 05 01 00",
    "00000003 05 02 12",
    "00000001 06",
    "0000001f 07 00000002 00000002 00000000 00 00000001 00000001 00000001 00000001 01",
];

/// Returns the bytes of a text, which may have blanks between bytes.
pub fn bytes_of(alloc: Global, text: &str) -> Result<Vec<u8>, Fail> {
    let mut bytes = Vec::new(alloc);
    for part in text.split(' ') {
        bytes.extend_from_slice(&hex::decode(alloc, part)?)?;
    }
    Ok(bytes)
}
