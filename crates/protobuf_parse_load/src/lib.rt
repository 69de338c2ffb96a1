//! Loads: all files that inputs reach, each read and parsed once. Nothing ends a load but want of
//! memory: what can't be followed is told where it stands, and is as if it were absent.
#![tactic(auto)]

mod known;
mod laws;
mod loader;
mod loading;
mod log;
mod request;
mod step;

pub use laws::{held_inputs_are_read, loads_leave_nothing_out, runs_are_fronts_of_loads};
pub use loading::load_inputs;
pub use log::{Load, LoadLog, LoadedFile, UnreadFile};
pub use step::{Asker, LoadStep, Unfollowed};
