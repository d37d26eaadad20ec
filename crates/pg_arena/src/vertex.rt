//! Vertices by number.

use std::marker::Model;

/// The vertex with this number; numbers count from 0 in rising order of identifiers. Contracts see the number.
#[derive(Clone, Copy, Debug, PartialEq, Eq, PartialOrd, Ord)]
pub struct Vertex(pub u32);

impl Model for Vertex {
    ghost use Rattle.std.specs.Prelude.{ℕ};

    ghost Value = { ℕ };

    ghost view = { λ v. v.0 };

    ghost inverse = { λ n. record { 0 = n } };
}
