//! Checks: all that is wrong in the files that inputs reach, each at its place.
#![tactic(auto)]

mod check;
mod clashes;
mod cuts;
mod imports;
mod judge;
mod judged;
mod laws;
mod places;
mod repeats;
mod report;
mod verdict;

pub use check::check_inputs;
pub use laws::{
    first_faults_are_told, quiet_answers_are_of_runs, quiet_checks_answer_as_runs,
    quiet_checks_are_accepted_runs,
};
pub use report::{Check, CheckLog, FileReport, FileState, InputFault};
