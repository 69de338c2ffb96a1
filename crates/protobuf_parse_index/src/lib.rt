//! An index over descriptors, for linters, decoders and documentation: what files declare by full
//! names and by numbers, and custom options by their names.
#![tactic(auto)]

mod declared;
mod empty;
mod empty_options;
mod index;
mod inside;
mod names;
mod numbers;
mod options;
mod services;
mod spellings;
mod walk;

pub use declared::Declared;
pub use empty::{
    empty_enum, empty_field, empty_file, empty_message, empty_method, empty_oneof, empty_service,
    empty_value,
};
pub use empty_options::{
    empty_enum_options, empty_field_options, empty_file_options, empty_message_options,
    empty_method_options, empty_oneof_options, empty_service_options, empty_value_options,
};
pub use index::Index;
pub use inside::oneof_of;
pub use options::{NamedOption, custom_options};
pub use protobuf_parse_model::{label_word, type_word};
pub use spellings::{lower_snake_case, upper_snake_case};
