//! Comments between tokens, as `SourceCodeInfo` of `descriptor.proto` has them, and places that count
//! bytes.
#![tactic(auto)]

mod divide;
mod gap;
mod pieces;
mod place;

pub use divide::Comments;
pub use gap::{Gap, comments};
pub use place::{BytePlace, place_after};
