use crate::texts::bytes_of;
use pg_wire::{ValueKind, ValuesReader, ValuesWriter, laws};
use std::alloc::{AllocError, Global};
use std::test::Fail;

/// A kind of frames, the size of a list of 0 and 1 in it, and the frame of that list for vertex 0 and top for vertex 1.
static ROWS: [(ValueKind, usize, &str); 2] = [
    (
        ValueKind::Dense,
        13,
        "0000001b 03 00000002 00000002 00000000 00 00000000 00000001 00000001 01",
    ),
    (
        ValueKind::Sparse,
        17,
        "0000001f 07 00000002 00000002 00000000 00 00000001 00000001 00000001 00000001 01",
    ),
];

/// Writes the frame of that list and top after a byte; None if there is no room.
fn two_measures(alloc: Global, kind: ValueKind) -> Result<Option<Vec<u8>>, AllocError> {
    let mut out = vec![in alloc; 255; 1]?;
    let mut writer = ValuesWriter::begin(kind, 2, &mut out)?;
    let is_written = writer.push_list(0, &[0, 1], &mut out)? && writer.push_top(1, &mut out)?;
    writer.finish(&mut out);
    Ok(is_written.then_some(out))
}

/// Whether the reader reads that list, then top, which leaves the row as it is, and then nothing.
fn reads_two_measures(kind: ValueKind, bytes: &[u8]) -> bool {
    let Some(mut values) = ValuesReader::open(bytes) else {
        return false;
    };
    if values.kind() != kind || values.width() != 2 {
        return false;
    }
    let mut row = [7, 7];
    values.next(&mut row) == Some((0, false))
        && row == [0, 1]
        && values.next(&mut row) == Some((1, true))
        && row == [0, 1]
        && values.next(&mut row).is_none()
}

#[test]
fn measures_are_written_and_read_one_after_the_other(rt: HostRuntime) -> Result<(), Fail> {
    for (kind, size, text) in &ROWS {
        let bytes = bytes_of(rt.alloc(), text)?;
        let out = two_measures(rt.alloc(), *kind)?.ok_or("no room")?;
        assert_eq!(rt; out.get(1..), Some(bytes.as_slice()), "{text}");
        assert!(rt; reads_two_measures(*kind, &bytes), "{text}");
        assert_eq!(rt; kind.list_size(&[0, 1]), *size);
        assert_eq!(rt; kind.top_size(), 5);
    }
    laws::few_bounds();
    Ok(())
}
