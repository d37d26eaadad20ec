use crate::texts::{FRAMES, bytes_of};
use pg_wire::{Frame, Go, WireFault, encode, read_frame, read_frame_bytes, write_frame};
use std::alloc::Global;
use std::io;
use std::io::{ErrorKind, Read, Write};
use std::test::Fail;

/// Hands over one byte at a time. The read with this number fails with this kind of error.
#[derive(Drop)]
struct BreakingInput<'a> {
    rest: &'a [u8],
    reads: usize,
    kind: ErrorKind,
}

impl Read for BreakingInput<'_> {
    fn read(&mut self, buffer: &mut [u8]) -> io::Result<usize> {
        if self.reads == 0 {
            self.reads = usize::MAX;
            return Err(io::Error::from(self.kind));
        }
        self.reads -= 1;
        let room = buffer.len().min(1);
        self.rest.read(&mut buffer[..room])
    }
}

/// Returns the spelling of the frame that is read from the bytes if the read with this number fails. It is empty if there
/// is no frame.
fn read_failing(
    alloc: Global,
    bytes: &[u8],
    reads: usize,
    kind: ErrorKind,
) -> Result<Vec<u8>, WireFault> {
    let rest = bytes;
    match read_frame(alloc, &mut BreakingInput { rest, reads, kind })? {
        Some(frame) if frame.is_well() => encode(alloc, &frame),
        _ => Ok(Vec::new(alloc)),
    }
}

#[test]
fn reads_on_where_it_was_interrupted(rt: HostRuntime) -> Result<(), Fail> {
    for text in &FRAMES {
        let bytes = bytes_of(rt.alloc(), text)?;
        for reads in 0..bytes.len() {
            let read = read_failing(rt.alloc(), &bytes, reads, ErrorKind::Interrupted)?;
            assert_eq!(rt; read.as_slice(), bytes.as_slice(), "{text} {reads}");
        }
    }
    let mut end: &[u8] = &[];
    assert!(rt; read_frame(rt.alloc(), &mut end)?.is_none());
    Ok(())
}

#[test]
fn tells_a_read_that_failed(rt: HostRuntime) -> Result<(), Fail> {
    for text in &FRAMES {
        let bytes = bytes_of(rt.alloc(), text)?;
        for reads in 0..bytes.len() {
            for kind in [ErrorKind::Other, ErrorKind::UnexpectedEof] {
                let fault = read_failing(rt.alloc(), &bytes, reads, kind).err();
                assert_eq!(rt; fault, Some(WireFault::Read), "{text} {reads}");
            }
        }
    }
    Ok(())
}

#[test]
fn refuses_a_length_before_it_reads_on(rt: HostRuntime) -> Result<(), Fail> {
    let bytes = bytes_of(rt.alloc(), "01000001 06 06")?;
    let mut input = bytes.as_slice();
    let fault = read_frame(rt.alloc(), &mut input).err();
    assert_eq!(rt; fault, Some(WireFault::TooLong));
    assert_eq!(rt; input.len(), 2);
    Ok(())
}

/// The bytes of a budget and of a halt.
#[test]
fn reads_the_bytes_of_one_frame_after_the_other(rt: HostRuntime) -> Result<(), Fail> {
    let all = bytes_of(rt.alloc(), "00000005 04 00001000 00000001 06")?;
    let mut input = all.as_slice();
    let mut bytes = Vec::new(rt.alloc());
    assert!(rt; read_frame_bytes(&mut input, &mut bytes)?);
    assert_eq!(rt; Some(bytes.as_slice()), all.get(..9));
    assert!(rt; read_frame_bytes(&mut input, &mut bytes)?);
    assert_eq!(rt; Some(bytes.as_slice()), all.get(9..));
    assert!(rt; !read_frame_bytes(&mut input, &mut bytes)?);
    Ok(())
}

/// Takes one byte at a time. `writes` is the number of writes that are left until one fails.
#[derive(Drop)]
struct BreakingOutput {
    writes: u32,
}

impl Write for BreakingOutput {
    fn write(&mut self, bytes: &[u8]) -> io::Result<usize> {
        let Some(writes) = self.writes.checked_sub(1) else {
            return Err(io::Error::from(ErrorKind::Other));
        };
        self.writes = writes;
        Ok(bytes.len().min(1))
    }

    fn flush(&mut self) -> io::Result<()> {
        Ok(())
    }
}

/// A budget has nine bytes.
#[test]
fn tells_a_write_that_failed(rt: HostRuntime) {
    let frame = Frame::Go(Go { budget: 4096 });
    for writes in 0..9 {
        let answer = write_frame(&frame, &mut BreakingOutput { writes });
        assert_eq!(rt; answer, Err(WireFault::Write));
    }
    assert_eq!(rt;
        write_frame(&frame, &mut BreakingOutput { writes: 9 }),
        Ok(())
    );
}
