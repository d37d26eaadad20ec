use crate::texts::bytes_of;
use pg_wire::{WireFault, decode};
use std::alloc::Global;
use std::test::Fail;

/// Returns why the bytes of the text are refused, if they are.
fn fault_of(alloc: Global, text: &str) -> Result<Option<WireFault>, Fail> {
    let bytes = bytes_of(alloc, text)?;
    Ok(decode(alloc, &bytes).err())
}

/// Bytes that spell no frame, and why.
static REFUSED: [(&str, WireFault); 49] = [
    // The length.
    ("01000001", WireFault::TooLong),
    ("ffffffff", WireFault::TooLong),
    ("01000000", WireFault::Truncated),
    ("00000005 04", WireFault::Truncated),
    ("00000000", WireFault::BadKind),
    ("00000000 06", WireFault::BadKind),
    ("00000001 06 00", WireFault::BadField(5)),
    ("00000002 06 00", WireFault::BadField(5)),
    // The kind.
    ("00000001 08", WireFault::BadKind),
    ("00000001 00", WireFault::BadKind),
    // Set-ups.
    ("00000001 01", WireFault::BadField(5)),
    ("0000000a 01 03 00000002 00000000", WireFault::Version),
    ("0000000a 01 00 00000002 00000000", WireFault::Version),
    ("0000000a 01 01 00000000 00000000", WireFault::BadField(6)),
    ("0000000a 01 01 00100001 00000000", WireFault::BadField(6)),
    ("0000000a 01 01 00000002 ffffffff", WireFault::BadField(14)),
    (
        "00000012 01 01 00000002 00000001 00000002 00000001",
        WireFault::BadField(14),
    ),
    (
        "00000012 01 01 00000002 00000001 00010001 00000001",
        WireFault::BadField(14),
    ),
    (
        "00000012 01 01 00000002 00000001 00000001 00000000",
        WireFault::BadField(18),
    ),
    (
        "0000001a 01 01 00000002 00000002 00000003 00000001 00000003 00000001",
        WireFault::BadField(22),
    ),
    (
        "0000001a 01 01 00000002 00000002 00000001 00000001 00000003 00000001",
        WireFault::BadField(22),
    ),
    // Lines of vertices.
    (
        "00000016 02 00000001 00000000 00010001 00 00000001 00000000",
        WireFault::BadField(13),
    ),
    (
        "00000016 02 00000001 00000000 00000001 02 00000001 00000000",
        WireFault::BadField(17),
    ),
    (
        "00000012 02 00000001 00000000 00000001 00 00000000",
        WireFault::BadField(18),
    ),
    (
        "0000001a 02 00000001 00000000 00000001 00 00000002 00000001 00000001",
        WireFault::BadField(26),
    ),
    (
        "0000001a 02 00000001 00000000 00000001 00 00000002 00000001 00000000",
        WireFault::BadField(26),
    ),
    (
        "00000027 02 00000002 00000001 00000000 00 00000001 00000000 00000001 00000000 00 00000001 00000000",
        WireFault::BadField(26),
    ),
    (
        "00000016 02 00000001 00000000 00000001 00 ffffffff 00000000",
        WireFault::BadField(26),
    ),
    // Measures.
    ("00000009 03 00008001 00000000", WireFault::BadField(5)),
    ("00000009 03 00000000 ffffffff", WireFault::BadField(13)),
    (
        "00000013 03 00000000 00000002 00000001 01 00000000 01",
        WireFault::BadField(18),
    ),
    (
        "00000013 03 00000000 00000002 00000001 01 00000001 01",
        WireFault::BadField(18),
    ),
    (
        "0000000e 03 00000002 00000001 00000000 02",
        WireFault::BadField(17),
    ),
    (
        "00000012 03 00000002 00000001 00000000 00 00000000",
        WireFault::BadField(22),
    ),
    // Budgets.
    ("00000003 04 0000", WireFault::BadField(5)),
    // Reports.
    ("00000003 05 03 00", WireFault::BadField(5)),
    ("00000003 05 00 01", WireFault::BadField(6)),
    ("00000003 05 01 0b", WireFault::BadField(6)),
    ("00000003 05 02 00", WireFault::BadField(6)),
    ("00000003 05 02 05", WireFault::BadField(6)),
    ("00000003 05 02 0a", WireFault::BadField(6)),
    ("00000003 05 02 13", WireFault::BadField(6)),
    ("00000002 05 02", WireFault::BadField(6)),
    // Measures by the components that aren't 0.
    ("00000009 07 00008001 00000000", WireFault::BadField(5)),
    (
        "0000001f 07 00000002 00000002 00000000 00 00000001 00000001 00000000 00000001 01",
        WireFault::BadField(26),
    ),
    (
        "0000001f 07 00000002 00000002 00000000 00 00000001 00000002 00000001 00000001 01",
        WireFault::BadField(22),
    ),
    (
        "00000012 07 00000002 00000001 00000000 00 00000003",
        WireFault::BadField(18),
    ),
    (
        "00000022 07 00000002 00000001 00000000 00 00000002 00000001 00000001 00000000 00000001",
        WireFault::BadField(30),
    ),
    (
        "00000022 07 00000002 00000001 00000000 00 00000002 00000001 00000001 00000001 00000001",
        WireFault::BadField(30),
    ),
];

#[test]
fn refuses_bytes_that_spell_no_frame(rt: HostRuntime) -> Result<(), Fail> {
    for (text, fault) in &REFUSED {
        assert_eq!(rt; fault_of(rt.alloc(), text)?, Some(*fault), "{text}");
    }
    Ok(())
}

/// Frames with fields at the ends of their ranges.
static AT_ENDS: [&str; 12] = [
    "00000012 01 02 00100000 00000001 0000ffff ffffffff",
    "00000005 02 00000000",
    "0000001a 02 00000001 ffffffff 00010000 01 00000002 00000000 ffffffff",
    "00000009 03 00008000 00000000",
    "0000000e 03 00000000 00000001 ffffffff 00",
    "00000005 04 ffffffff",
    "00000003 05 00 00",
    "00000003 05 02 01",
    "00000003 05 02 04",
    "00000003 05 02 0b",
    "00000012 07 00000000 00000001 00000000 00 00000000",
    "00000022 07 00000002 00000001 00000000 00 00000002 00000000 00000001 00000001 ffffffff",
];

#[test]
fn takes_the_ends_of_each_range(rt: HostRuntime) -> Result<(), Fail> {
    for text in &AT_ENDS {
        assert_eq!(rt; fault_of(rt.alloc(), text)?, None, "{text}");
    }
    Ok(())
}
