use crate::texts::bytes_of;
use pg_wire::{LineHead, VerticesReader, VerticesWriter};
use std::alloc::{AllocError, Global};
use std::test::Fail;

/// Vertex 0 with priority 3, of Odd, to 0 and 2, and vertex 2 with priority 0, of Even, to 4,294,967,295.
const TWO_LINES: &str =
    "0000002b 02 00000002 00000000 00000003 01 00000002 00000000 00000002 00000002 00000000 00 00000001 ffffffff";

const FIRST: LineHead = LineHead {
    vertex: 0,
    priority: 3,
    owner: 1,
};

const SECOND: LineHead = LineHead {
    vertex: 2,
    priority: 0,
    owner: 0,
};

/// Writes the frame of the two lines after a byte; None if there is no room.
fn two_lines(alloc: Global) -> Result<Option<Vec<u8>>, AllocError> {
    let mut out = vec![in alloc; 255; 1]?;
    let mut writer = VerticesWriter::begin(&mut out)?;
    let is_written = writer.push(FIRST, &[0, 2], &mut out)?
        && writer.push(SECOND, &[4_294_967_295], &mut out)?;
    writer.finish(&mut out);
    Ok(is_written.then_some(out))
}

#[test]
fn writes_one_line_after_the_other(rt: HostRuntime) -> Result<(), Fail> {
    let out = two_lines(rt.alloc())?.ok_or("no room")?;
    let bytes = bytes_of(rt.alloc(), TWO_LINES)?;
    assert_eq!(rt; out.first(), Some(&255));
    assert_eq!(rt; out.get(1..), Some(bytes.as_slice()));
    Ok(())
}

/// Whether the next line has this head and these successors.
fn is_next(
    lines: &mut VerticesReader,
    successors: &mut Vec<u32>,
    expected: LineHead,
    to: &[u32],
) -> Result<bool, AllocError> {
    let Some(head) = lines.next(successors)? else {
        return Ok(false);
    };
    Ok(
        head.vertex == expected.vertex
            && head.priority == expected.priority
            && head.owner == expected.owner
            && successors.as_slice() == to,
    )
}

#[test]
fn reads_one_line_after_the_other(rt: HostRuntime) -> Result<(), Fail> {
    let bytes = bytes_of(rt.alloc(), TWO_LINES)?;
    let mut lines = VerticesReader::open(&bytes).ok_or("no lines")?;
    let mut successors = [7, 7, 7].to_vec(rt.alloc())?;
    assert!(rt; is_next(&mut lines, &mut successors, FIRST, &[0, 2])?);
    assert!(rt; is_next(&mut lines, &mut successors, SECOND, &[4_294_967_295])?);
    assert!(rt; lines.next(&mut successors)?.is_none());
    Ok(())
}
