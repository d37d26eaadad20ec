//! Readers that fail or are interrupted, writers that fail, and texts for each command.

use pg_cli::{Command, MOST_BYTES, answer, run};
use std::alloc::Global;
use std::io::{self, ErrorKind, Read, Write};
use std::test::Fail;

/// Gives one byte at a time. The read after `before` others fails with this kind of error.
#[derive(Drop)]
pub(crate) struct FailingInput<'a> {
    pub(crate) left: &'a [u8],
    pub(crate) before: usize,
    pub(crate) kind: ErrorKind,
}

impl Read for FailingInput<'_> {
    fn read(&mut self, buf: &mut [u8]) -> io::Result<usize> {
        if self.before == 0 {
            self.before = usize::MAX;
            return Err(io::Error::from(self.kind));
        }
        self.before -= 1;
        let room = buf.len().min(1);
        self.left.read(&mut buf[..room])
    }
}

/// Takes one byte at a time, and fails at every write after the first `before`.
#[derive(Drop)]
pub(crate) struct FailingOutput {
    pub(crate) before: usize,
}

impl Write for FailingOutput {
    fn write(&mut self, buf: &[u8]) -> io::Result<usize> {
        if self.before == 0 {
            return Err(io::Error::from(ErrorKind::Other));
        }
        self.before -= 1;
        Ok(buf.len().min(1))
    }

    fn flush(&mut self) -> io::Result<()> {
        Ok(())
    }
}

/// Even leaves the vertex with priority 1 through the vertex with priority 2.
pub(crate) const TWO: &[u8] = b"parity 1;\n0 1 0 0,1;\n1 2 1 0;\n";

/// `TWO` and its solution.
pub(crate) const SOLVED: &[u8] =
    b"parity 1;\n0 1 0 0,1;\n1 2 1 0;\n--\nparitysol 1;\n0 0 1;\n1 0;\n";

/// `TWO` and a script in which only the coordinator lifts.
pub(crate) const SCRIPT: &[u8] =
    b"parity 1;\n0 1 0 0,1;\n1 2 1 0;\n--\nworkers 0;\ncentral 0;\ncentral 0;\n";

/// What `replay` prints for `SCRIPT`.
pub(crate) const WORLD: &[u8] = b"update 0 0 1;\nreplica 0 taken 0;\n0 1;\n1 0;\n";

/// The controller sets nothing; the only letter leads on without a set.
pub(crate) const LOOP: &[u8] =
    b"HOA: v1 Start: 0 Acceptance: 1 Inf(0) --BODY-- State: 0 [t] 0 --END--";

/// The game of `LOOP`.
pub(crate) const GAME: &[u8] =
    b"parity 3;\n0 1 1 0 \"dead\";\n1 1 1 3 \"s0\";\n3 0 0 1 \"s0:0\";\n";

/// Two states take turns: the controller sets its proposition in every other step, beginning with the first.
pub(crate) const TURNS: &[u8] =
    b"HOA: v1 Start: 0 AP: 1 \"g\" controllable-AP: 0 Acceptance: 1 Inf(0) --BODY-- \
State: 0 [0] 1 {0} State: 1 [!0] 0 {0} --END--";

/// The circuit for `TURNS`: the next value of the latch is its negation, and so is the output.
pub(crate) const CIRCUIT: &[u8] = b"REALIZABLE\naag 1 0 1 1 0\n2 3\n3\no0 g\n";

#[test]
fn a_text_in_memory_is_answered(rt: HostRuntime) -> Result<(), Fail> {
    let text = TWO.to_vec(rt.alloc())?;
    assert!(rt; text.len() <= MOST_BYTES);
    let done = answer(rt.alloc(), Command::Measure { workers: 2 }, text);
    assert!(rt; matches!(&done, Ok(output) if output.as_slice() == b"0 1;\n1 0;\n".as_slice()));
    Ok(())
}

/// Whether `measure` answers even if the read with this number is interrupted.
fn passes_interrupted_read(alloc: Global, before: usize) -> bool {
    let mut input = FailingInput {
        left: TWO,
        before,
        kind: ErrorKind::Interrupted,
    };
    let mut output = Vec::new(alloc);
    let measure = Command::Measure { workers: 2 };
    let done = run(alloc, measure, &mut input, &mut output);
    done.is_ok() && output.as_slice() == b"0 1;\n1 0;\n".as_slice()
}

/// The text has 30 bytes, so the thirty-first read finds the end.
#[test]
fn an_interrupted_read_is_tried_again(rt: HostRuntime) {
    for before in 0..31usize {
        assert!(rt;
            passes_interrupted_read(rt.alloc(), before),
            "before {before}"
        );
    }
}
