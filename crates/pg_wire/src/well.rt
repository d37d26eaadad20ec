//! Decides which frames are valid: those whose fields are in their ranges and orders.
ghost use Rattle.std.specs.Prelude.{◌↔◌, IsTrue};
ghost use Rattle.pg_wire.specs.Well.{IsWell, AreBounds, IsSetup, IsVertices, IsValues, IsSparse, IsReport};

use crate::fields::WORDS;
use crate::form::are_ordered;
use crate::forms::{BoundForm, LineForm, SparseValueForm, ValueForm};
use crate::frame::{Frame, Report, Setup, Sparse, Values, Vertices};

fn are_bounds(bounds: &[(u32, u32)]) -> bool
    ensures { IsTrue result ↔ AreBounds bounds.now }
{
    (bounds.len() as u64) < WORDS && are_ordered::<BoundForm>(0, 65_536, bounds)
}

fn is_setup(setup: &Setup) -> bool
    ensures { IsTrue result ↔ IsSetup setup.now }
{
    (1..=2).contains(&setup.version)
        && (1..=1_048_576).contains(&setup.vertices)
        && are_bounds(setup.bounds.as_slice())
}

fn are_vertices(vertices: &Vertices) -> bool
    ensures { IsTrue result ↔ IsVertices vertices.now }
{
    let lines = vertices.lines.as_slice();
    (lines.len() as u64) < WORDS && are_ordered::<LineForm>(0, 0, lines)
}

fn are_values(frame: &Values) -> bool
    ensures { IsTrue result ↔ IsValues frame.now }
{
    let values = frame.values.as_slice();
    frame.width <= 32_768
        && (values.len() as u64) < WORDS
        && are_ordered::<ValueForm>(frame.width, 0, values)
}

fn are_sparse(frame: &Sparse) -> bool
    ensures { IsTrue result ↔ IsSparse frame.now }
{
    let values = frame.values.as_slice();
    frame.width <= 32_768
        && (values.len() as u64) < WORDS
        && are_ordered::<SparseValueForm>(frame.width, 0, values)
}

fn is_report(report: &Report) -> bool
    ensures { IsTrue result ↔ IsReport report.now }
{
    match report.status {
        0 | 1 => report.code == 0,
        2 => matches!(report.code, 1..=4 | 11..=18),
        _ => false,
    }
}

impl Frame {
    /// Whether the fields of the frame are in their ranges and orders. It takes no memory, and time linear in the frame.
    pub fn is_well(&self) -> bool
        ensures { IsTrue result ↔ IsWell self.now }
    {
        match self {
            Frame::Setup(setup) => is_setup(setup),
            Frame::Vertices(vertices) => are_vertices(vertices),
            Frame::Values(values) => are_values(values),
            Frame::Go(go) => {
                let _budget = go.budget;
                true
            }
            Frame::Report(report) => is_report(report),
            Frame::Halt => true,
            Frame::Sparse(sparse) => are_sparse(sparse),
        }
    }
}
