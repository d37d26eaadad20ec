//! Laws about the spellings. Each function states one in its contract, and does nothing.
ghost use Rattle.std.specs.Prelude.{◌≡◌, ◌≤◌, ◌++◌, List, ℕ, [], length, All};
ghost use Rattle.pg_wire.specs.declared.frame.Frame.{Frame};
ghost use Rattle.pg_wire.specs.declared.frame.Setup.{Setup};
ghost use Rattle.pg_wire.specs.declared.kind.ValueKind.{ValueKind};
ghost use Rattle.pg_wire.specs.Bytes.{Spells};
ghost use Rattle.pg_wire.specs.Measured.{Measured, IsMeasured, frame_of};
ghost use Rattle.pg_wire.specs.Well.{IsSetup};

/// No spelling is a proper prefix of another.
pub fn no_front()
    ensures { (f g : Frame) (front more : List ℕ) → Spells f front → Spells g (front ++ more) → more ≡ [] }
{}

/// Bytes spell at most one frame.
pub fn one_frame()
    ensures { (f g : Frame) (bytes : List ℕ) → Spells f bytes → Spells g bytes → f ≡ g }
{}

/// A frame of measures has exactly one list of measures, each with as many components as the frame's width.
pub fn one_list()
    ensures { (kind : ValueKind) (width : ℕ) (ms ns : List Measured) → All (IsMeasured width) ms → All (IsMeasured width) ns
        → frame_of kind width ms ≡ frame_of kind width ns → ms ≡ ns }
{}

/// A valid set-up has at most 32,768 bounds, because there are no more odd priorities up to 65,535.
pub fn few_bounds()
    ensures { (s : Setup) → IsSetup s → length s.bounds ≤ 32768 }
{}
