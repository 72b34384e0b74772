//! Blocks, images, and the streams that a program reads and writes.
//!
//! Stands on nothing but std. The public calls that matter: `Block`, `Image`, the traits `Source` and
//! `Sink` with their forms in memory and over std, and `read_all`, `read_image` and `write_all`.
#![tactic(auto)]

mod block;
mod bodies;
mod image;
mod memory;
mod reading;
mod sink;
mod source;
mod writing;

pub use block::{BLOCK_BYTES, Block};
pub use bodies::BodySource;
pub use image::Image;
pub use memory::NoMemory;
pub use reading::{ReadEnd, read_all, read_image};
pub use sink::{MemSink, PlainSink, Sink, StdSink};
pub use source::{Failed, MemSource, PlainSource, Source, StdSource};
pub use writing::{SinkFault, write_all};
