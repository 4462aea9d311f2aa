//! Segments: the stretches between breakpoints, on which net is a straight line. This crate owns the next breakpoint above a
//! gross, the segment from a gross on, where each rule holds, and which do on a segment; it goes through the rules each time and
//! stores nothing.
#![tactic(auto)]

mod breakpoints;
mod lines;
mod slopes;
mod spans;

pub use breakpoints::next_breakpoint;
pub use lines::{Segment, segment_from};
pub use slopes::holding_at;
pub use spans::{Span, span_of};
