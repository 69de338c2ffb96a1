//! Runs: from inputs to the descriptors of all files that they reach, imports first.
#![tactic(auto)]

mod asking;
mod bundled;
pub mod elaborated;
mod fault;
mod frame;
mod laws;
pub mod loaded;
mod loader;
mod log;
mod one_read;
pub mod reach;
pub mod repeats;
mod run;
mod source;
pub mod tables;

pub use asking::read_own;
pub use bundled::bundled_files;
pub use fault::{ReadInputFault, ResolveFault, RunFault};
pub use laws::{custom_bytes_stand, files_come_once, runs_are_stable, seen_files_are_reached};
pub use loader::{LoadedFile, compared, content_of};
pub use log::{ReadEntry, ReadOutcome, RunInput, RunLog};
pub use one_read::{InputRead, read_input};
pub use run::{parse_and_typecheck_custom, run_inputs};
pub use source::{InputReader, ProtoPathResolver, ResolvedProtoFile};
