//! The coordinator's state of a link.

use pg_wire::ValueKind;

/// The coordinator's state of a link.
#[derive(Clone, Copy)]
pub struct LinkState {
    /// Whether the link takes part.
    pub in_use: bool,
    /// Whether the link was queried in this round, and hasn't failed since then.
    pub queried: bool,
    /// Whether the link was set up and must be sent every value that is above zero.
    pub behind: bool,
    /// The kind of frames in which values go: `Sparse`, until the link refuses version 2.
    pub kind: ValueKind,
    /// The number of times that the link was restarted after a failure.
    pub restarts: u8,
}

/// The state of a link that wasn't set up yet.
pub const UNSET: LinkState = LinkState {
    in_use: false,
    queried: false,
    behind: true,
    kind: ValueKind::Sparse,
    restarts: 0,
};

/// The greatest number of times that a link is restarted after a failure.
pub const MOST_RESTARTS: u8 = 3;
