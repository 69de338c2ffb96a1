//! What people run: parsers over real files, and the program.

mod builder;
mod command;
mod files;
mod includes;
pub mod search;
mod source_info;

pub use builder::{ParsedAndTypechecked, ParsedWithSourceInfo, Parser, files_of_inputs};
pub use command::program;
pub use files::{FsReader, FsResolver, fs_resolver};
pub use includes::proto_path_of;
