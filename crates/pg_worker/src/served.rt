//! How serving ended, and the outcome of each of its steps.

/// How serving ended, and the number of frames that were read, Halt included.
#[derive(Clone, Copy, Debug, PartialEq, Eq)]
pub enum Served {
    /// Halt came.
    Halted(u32),
    /// The input ended before a frame.
    InputEnded(u32),
    /// 4,294,967,295 frames were read.
    Bound,
}

/// The outcome of one step of serving.
pub enum Step {
    /// No frame was left.
    Ended,
    /// The frame was Halt.
    Halted,
    /// The frame was answered.
    Answered,
}
