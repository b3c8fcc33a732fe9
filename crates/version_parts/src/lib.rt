//! The parts of version numbers: chunks, releases and build metadata. Says how they parse, print and compare, and by
//! which bytes they compare in keys. A call whose comment doesn't speak of allocation allocates nothing.
#![tactic(auto)]

mod chunk;
mod chunks;
pub mod key;
mod last;
pub mod lists;
mod mchunk;
pub mod parsers;
mod release;
pub mod scan;
mod sep;

pub use chunk::{Chunk, ChunkRef, Part, ReleaseChunk};
pub use chunks::{BodyRef, Chunks};
pub use last::{Last, LastRef};
pub use mchunk::{MChunk, MessyChunk, SectionRef};
pub use release::{Release, ReleaseRef};
pub use sep::Sep;
