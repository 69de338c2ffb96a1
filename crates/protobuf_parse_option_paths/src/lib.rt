//! The paths of options in `SourceCodeInfo`: the numbers of the fields that their names lead
//! through, by the descriptors of files.
#![tactic(auto)]

mod bearers;
mod bytes;
mod counted;
mod names;
mod numbers;
mod owned;
mod paths;
mod seen;
mod whole;

pub use bearers::{OptionBearer, option_bearer};
pub use bytes::source_info_bytes;
pub use names::{OptionFiles, Step, option_steps};
pub use numbers::builtin_number;
pub use owned::without_names;
pub use paths::with_option_paths;
pub use seen::seen_paths;
pub use whole::file_source_info;
