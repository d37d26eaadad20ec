use crate::texts::{FRAMES, bytes_of};
use pg_wire::{decode, encode, laws, write_frame};
use std::alloc::Global;
use std::test::Fail;

/// Whether the frame that the text spells has this spelling again, and is written after a byte, which stays.
fn is_read_and_spelled(alloc: Global, text: &str) -> Result<bool, Fail> {
    let bytes = bytes_of(alloc, text)?;
    let frame = decode(alloc, &bytes)?;
    if !frame.is_well() {
        return Ok(false);
    }
    let spelled = encode(alloc, &frame)?;
    let mut out = vec![in alloc; 255; 1]?;
    write_frame(&frame, &mut out)?;
    Ok(
        spelled.as_slice() == bytes.as_slice()
            && out.first() == Some(&255)
            && out.get(1..) == Some(bytes.as_slice()),
    )
}

#[test]
fn spells_what_it_reads(rt: HostRuntime) -> Result<(), Fail> {
    for text in &FRAMES {
        assert!(rt; is_read_and_spelled(rt.alloc(), text)?, "{text}");
    }
    laws::no_front();
    laws::one_frame();
    Ok(())
}
