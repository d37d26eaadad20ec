//! Links that fail, and links that give fixed replies: cases that a coordinator must bear. The contracts promise of `Told`
//! the frames that it tells, and of `Broken` that each call fails; of the others they promise nothing.

ghost use Rattle.std.specs.Prelude.{⊤, ◌≡◌, ◌≢◌, ◌++◌, Some, None, Err, map, drop, replicate};
ghost use Rattle.pg_coord_partition.specs.Links.{CountsFailure};

use pg_coord_partition::{Link, LinkFault};
use pg_wire::{Frame, WireFault, decode};
use std::alloc::Global;

/// The bytes of the report that refuses a set-up of version 2.
const REFUSAL: [u8; 7] = [0, 0, 0, 3, 5, 2, 18];

/// Returns the answer of a call, and counts it if it is Failed.
fn counted(answer: Result<(), LinkFault>, failures: &mut u64) -> Result<(), LinkFault>
    ensures answer { result ≡ answer }
    ensures counted { CountsFailure failures.old failures.new result }
{
    if let Err(LinkFault::Failed) = answer {
        *failures = failures.saturating_add(1);
    }
    answer
}

/// Whether the bytes are a set-up of version 2.
fn is_second_setup(frame: &Frame) -> bool {
    match frame {
        Frame::Setup(setup) => setup.version == 2,
        _ => false,
    }
}

/// Hands over the frames of its replies in order, whatever it is sent; before them it refuses each set-up of version 2.
#[derive(Drop)]
pub struct Told {
    alloc: Global,
    replies: Vec<Vec<u8>>,
    next: usize,
    refusals: usize,
    failures: u64,
}

impl Told {
    /// Makes a link that hands over these frames.
    pub fn new(alloc: Global, replies: Vec<Vec<u8>>) -> Told
        ensures replies { result.replies.items ≡ replies.items }
        ensures next { result.next ≡ 0 }
        ensures refusals { result.refusals ≡ 0 }
    {
        Told {
            alloc,
            replies,
            next: 0,
            refusals: 0,
            failures: 0,
        }
    }
}

impl Link for Told {
    ghost use Rattle.pg_wire.specs.Spelling.{spelling};
    ghost use Rattle.pg_coord_partition.specs.Links.{refusal};

    ghost failures = { λ s. s.failures };

    ghost is_honest = { λ _. ⊥ };

    ghost is_under = { λ _ _. ⊥ };

    ghost is_anew = { λ _. ⊤ };

    ghost told = { λ s. Some (replicate s.refusals (spelling refusal) ++ map (λ f. f.items) (drop s.next s.replies.items)) };

    fn send(&mut self, frame: &[u8]) -> Result<(), LinkFault> {
        match decode(self.alloc, frame) {
            Ok(Frame::Setup(setup)) => {
                if setup.version == 2 {
                    let Some(more) = self.refusals.checked_add(1) else {
                        return Err(LinkFault::OutOfMemory);
                    };
                    self.refusals = more;
                }
                Ok(())
            }
            Err(WireFault::OutOfMemory) => Err(LinkFault::OutOfMemory),
            _ => Ok(()),
        }
    }

    fn receive(&mut self, frame: &mut Vec<u8>) -> Result<(), LinkFault> {
        frame.clear();
        if self.refusals > 0 {
            frame.extend_from_slice(&REFUSAL)?;
            self.refusals -= 1;
            return Ok(());
        }
        match self.replies.get(self.next) {
            Some(next) => {
                frame.extend_from_slice(next.as_slice())?;
                self.next += 1;
                Ok(())
            }
            None => counted(Err(LinkFault::Failed), &mut self.failures),
        }
    }

    fn restart(&mut self) -> Result<(), LinkFault> {
        Ok(())
    }
}

/// A link whose every call is Failed.
#[derive(Drop)]
pub struct Broken {
    failures: u64,
}

impl Broken {
    /// Makes a link whose every call is Failed.
    pub fn new() -> Broken {
        Broken { failures: 0 }
    }

    /// Fails, and counts the failure.
    fn fail(&mut self) -> Result<(), LinkFault>
        ensures failed { result ≡ Err LinkFault.Failed }
        ensures counted { CountsFailure self.old.failures self.new.failures result }
    {
        counted(Err(LinkFault::Failed), &mut self.failures)
    }
}

impl Link for Broken {
    ghost failures = { λ s. s.failures };

    ghost is_honest = { λ _. ⊥ };

    ghost is_under = { λ _ _. ⊥ };

    ghost is_anew = { λ _. ⊤ };

    ghost told = { λ _. None };

    fn send(&mut self, _frame: &[u8]) -> Result<(), LinkFault>
        ensures failed { result ≡ Err LinkFault.Failed }
        ensures counted { CountsFailure self.old.failures self.new.failures result }
    {
        self.fail()
    }

    fn receive(&mut self, _frame: &mut Vec<u8>) -> Result<(), LinkFault>
        ensures failed { result ≡ Err LinkFault.Failed }
        ensures counted { CountsFailure self.old.failures self.new.failures result }
    {
        self.fail()
    }

    fn restart(&mut self) -> Result<(), LinkFault>
        ensures failed { result ≡ Err LinkFault.Failed }
        ensures counted { CountsFailure self.old.failures self.new.failures result }
    {
        self.fail()
    }
}

/// Answers every Go with the same frames, and refuses set-ups of version 2.
#[derive(Drop)]
pub struct Fixed {
    alloc: Global,
    frames: Vec<Vec<u8>>,
    /// The number of times that the frames are handed over in answer to a Go.
    times: usize,
    refusing: bool,
    left: usize,
    next: usize,
    failures: u64,
}

impl Fixed {
    /// Makes a link that answers every Go with these frames, one after another, `times` times.
    pub fn new(alloc: Global, frames: Vec<Vec<u8>>, times: usize) -> Fixed {
        Fixed {
            alloc,
            frames,
            times,
            refusing: false,
            left: 0,
            next: 0,
            failures: 0,
        }
    }

    /// Takes a frame: a Go makes the answer due, and a set-up of version 2 the refusal.
    fn take(&mut self, frame: &[u8]) -> Result<(), LinkFault>
        ensures kept { self.new.failures ≡ self.old.failures }
        ensures not_failed { result ≢ Err LinkFault.Failed }
    {
        match decode(self.alloc, frame) {
            Ok(Frame::Go(_)) => {
                self.left = self.times;
                self.next = 0;
                Ok(())
            }
            Ok(frame) => {
                self.refusing = is_second_setup(&frame);
                Ok(())
            }
            Err(WireFault::OutOfMemory) => Err(LinkFault::OutOfMemory),
            Err(_) => Ok(()),
        }
    }

    /// Returns the position of the next frame of the answer, if one is left.
    fn next_frame(&mut self) -> Option<usize>
        ensures { self.new.failures ≡ self.old.failures }
    {
        if self.next >= self.frames.len() {
            self.left = self.left.saturating_sub(1);
            self.next = 0;
        }
        if self.left == 0 {
            return None;
        }
        let at = self.next;
        self.next = at.saturating_add(1);
        Some(at)
    }

    /// Appends the refusal, if one is due, and otherwise the next frame of the answer.
    fn hand_over(&mut self, frame: &mut Vec<u8>) -> Result<(), LinkFault>
        ensures { self.new.failures ≡ self.old.failures }
    {
        if self.refusing {
            self.refusing = false;
            return Ok(frame.extend_from_slice(&REFUSAL)?);
        }
        let next = self.next_frame();
        match next.and_then(|at| self.frames.get(at)) {
            Some(next) => Ok(frame.extend_from_slice(next.as_slice())?),
            None => Err(LinkFault::Failed),
        }
    }
}

impl Link for Fixed {
    ghost failures = { λ s. s.failures };

    ghost is_honest = { λ _. ⊥ };

    ghost is_under = { λ _ _. ⊥ };

    ghost is_anew = { λ _. ⊤ };

    ghost told = { λ _. None };

    fn send(&mut self, frame: &[u8]) -> Result<(), LinkFault> {
        self.take(frame)
    }

    fn receive(&mut self, frame: &mut Vec<u8>) -> Result<(), LinkFault> {
        frame.clear();
        let answer = self.hand_over(frame);
        counted(answer, &mut self.failures)
    }

    fn restart(&mut self) -> Result<(), LinkFault> {
        self.left = 0;
        self.refusing = false;
        Ok(())
    }
}

/// Wraps a link so that one call of `send` or `receive` is Failed.
#[derive(Drop)]
pub struct FailsOnce<L: Link + Drop> {
    link: L,
    /// The number of calls that are left until the one that fails; none once it failed.
    left: Option<u64>,
    failures: u64,
}

impl<L: Link + Drop> FailsOnce<L> {
    /// Wraps the link so that its n-th call, from 0 on, is Failed.
    pub fn new(link: L, n: u64) -> FailsOnce<L> {
        FailsOnce {
            link,
            left: Some(n),
            failures: 0,
        }
    }

    /// Whether the call that fails was made.
    pub fn has_failed(&self) -> bool {
        self.left.is_none()
    }

    /// Counts a call down, and returns true for the one that fails.
    fn fails(&mut self) -> bool
        ensures { self.new.failures ≡ self.old.failures }
    {
        match self.left {
            Some(0) => {
                self.left = None;
                true
            }
            Some(n) => {
                self.left = Some(n - 1);
                false
            }
            None => false,
        }
    }
}

impl<L: Link + Drop> Link for FailsOnce<L> {
    ghost failures = { λ s. s.failures };

    ghost is_honest = { λ _. ⊥ };

    ghost is_under = { λ _ _. ⊥ };

    ghost is_anew = { λ _. ⊤ };

    ghost told = { λ _. None };

    fn send(&mut self, frame: &[u8]) -> Result<(), LinkFault> {
        let answer = if self.fails() {
            Err(LinkFault::Failed)
        } else {
            self.link.send(frame)
        };
        counted(answer, &mut self.failures)
    }

    fn receive(&mut self, frame: &mut Vec<u8>) -> Result<(), LinkFault> {
        let answer = if self.fails() {
            Err(LinkFault::Failed)
        } else {
            self.link.receive(frame)
        };
        counted(answer, &mut self.failures)
    }

    fn restart(&mut self) -> Result<(), LinkFault> {
        let answer = self.link.restart();
        counted(answer, &mut self.failures)
    }
}
