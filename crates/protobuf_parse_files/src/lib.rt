//! Files as a command reads and writes them: each is read once and no further than is of use, and a
//! target is replaced as a whole where that can be.
#![tactic(auto)]

mod beside;
mod bounded;
mod kept;
mod look;
mod output;
mod overwrite;
mod target;

pub use bounded::read_up_to;
pub use kept::{FileRead, KeptFiles};
pub use output::write_file;
pub use target::{Found, How, Refusal, Seen, Way, how_to_write, may_be_replaced};
