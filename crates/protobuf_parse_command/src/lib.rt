//! The command that people type, over any two writers.
#![tactic(auto)]

mod argument_files;
mod arguments;
mod check;
mod colors;
mod command_line;
mod dependencies;
mod excerpts;
mod folders;
mod format;
mod includes;
mod infos;
mod inputs;
mod listed;
mod made;
mod names;
mod printed;
mod put_back;
mod readable;
mod reading;
mod rules;
mod run;
mod set_texts;
mod sets;
mod shadow;
mod sound;
mod told;
mod undeclared;
mod unsound;
mod walk;
mod words;

pub use run::{command, run_program};
