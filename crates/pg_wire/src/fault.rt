//! Why a frame is refused.
ghost use Rattle.std.specs.Prelude.{◌≡◌};
ghost use Rattle.pg_wire.specs.Faults.{number_of};

use std::alloc::AllocError;
use thiserror::Error;

/// Why a frame can't be read or written.
#[derive(Clone, Copy, Debug, PartialEq, Eq, Error)]
pub enum WireFault {
    /// The allocator refused to grow a buffer.
    #[error("out of memory")]
    OutOfMemory,
    /// The frame has more than 16,777,216 bytes after its length.
    #[error("the frame is longer than 16777216 bytes")]
    TooLong,
    /// The bytes end before the frame does.
    #[error("the frame is cut short")]
    Truncated,
    /// No frame has this kind, or there is no kind.
    #[error("no frame has this kind")]
    BadKind,
    /// A field is out of its range or order, or runs past the end of the frame, or bytes follow the last field. The offset
    /// counts bytes from the first byte of the length.
    #[error("bad field at byte {0}")]
    BadField(usize),
    /// The reader failed.
    #[error("cannot read a frame")]
    Read,
    /// The writer failed.
    #[error("cannot write a frame")]
    Write,
    /// A set-up has a version other than 1 and 2.
    #[error("unknown version")]
    Version,
}

impl WireFault {
    /// Returns the number of the fault, from 1 to 8. The code in a report of this fault is this number plus 10.
    pub fn number(&self) -> u8
        ensures { result ≡ number_of self.now }
    {
        match self {
            WireFault::OutOfMemory => 1,
            WireFault::TooLong => 2,
            WireFault::Truncated => 3,
            WireFault::BadKind => 4,
            WireFault::BadField(_) => 5,
            WireFault::Read => 6,
            WireFault::Write => 7,
            WireFault::Version => 8,
        }
    }
}

/// What is wrong with a field.
#[derive(Clone, Copy)]
pub enum FieldFault {
    /// This number of bytes was left where the field begins.
    At(usize),
    /// The field isn't a version of the format.
    Version,
    /// The field isn't a kind of frame.
    Kind,
}

/// Why a field wasn't read.
#[derive(Clone, Copy)]
pub enum ReadFault {
    /// The allocator refused to grow a buffer.
    Memory,
    /// The field is bad.
    Field(FieldFault),
}

impl From<AllocError> for ReadFault {
    ghost use Rattle.pg_wire.specs.declared.fault.ReadFault.TheVariants.{Memory};

    ghost from_gives = { λ _ e. e ≡ Memory };

    fn from(_e: AllocError) -> ReadFault {
        ReadFault::Memory
    }
}

impl From<FieldFault> for ReadFault {
    ghost use Rattle.pg_wire.specs.declared.fault.ReadFault.TheVariants.{Field};

    ghost from_gives = { λ f e. e ≡ Field f };

    fn from(fault: FieldFault) -> ReadFault {
        ReadFault::Field(fault)
    }
}
