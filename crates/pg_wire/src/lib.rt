//! The frames between a coordinator and its workers.
#![tactic(auto)]

mod fault;
mod fields;
mod form;
mod forms;
mod frame;
mod kind;
pub mod laws;
mod lines_reader;
mod lines_writer;
mod list;
mod reader;
mod reading;
mod stream;
mod well;
mod writer;
mod writing;

pub use fault::WireFault;
pub use frame::{
    Frame, Go, LineHead, Report, Setup, Sparse, SparseValue, Value, Values, VertexLine, Vertices,
};
pub use kind::ValueKind;
pub use lines_reader::VerticesReader;
pub use lines_writer::VerticesWriter;
pub use list::{Items, Numbers, Pairs};
pub use reader::ValuesReader;
pub use reading::decode;
pub use stream::{read_frame, read_frame_bytes};
pub use writer::ValuesWriter;
pub use writing::{encode, write_frame};
