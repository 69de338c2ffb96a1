//! Descriptors, what the names that files declare mean, and what may be wrong in a file.
#![tactic(auto)]

mod apart;
mod customs;
mod declared_at;
mod declaring;
mod descriptor;
mod error;
mod laws;
mod linking;
mod made_names;
mod scope;
mod words;

pub use apart::are_apart;
pub use customs::{Construct, CustomOptions, WithoutCustoms, path_text};
pub use declared_at::{last_declared, last_places};
pub use declaring::declaring_files;
pub use descriptor::{
    CType, DescriptorProto, EnumDescriptorProto, EnumOptions, EnumReservedRange,
    EnumValueDescriptorProto, EnumValueOptions, ExtensionRange, FieldDescriptorProto, FieldOptions,
    FieldType, FileDescriptorProto, FileDescriptorSet, FileOptions, IdempotencyLevel, JSType,
    Label, MessageOptions, MethodDescriptorProto, MethodOptions, OneofDescriptorProto,
    OneofOptions, OptimizeMode, ReservedRange, ServiceDescriptorProto, ServiceOptions,
};
pub use error::{ElabError, ElabErrorKind, ElabFailure, fault, tell};
pub use laws::declared_names_have_places;
pub use linking::{BEGINNING, is_declared_twice, is_reached, link, listed_names};
pub use made_names::{entry_name, group_field_name};
pub use scope::{
    Context, Declaration, DeclarationKind, Declarations, Meaning, Outward, Seen, TypeKind,
    file_scope, full_name, hash_of, scope_of_package, type_named,
};
pub use words::{
    C_TYPES, IDEMPOTENCY_LEVELS, JS_TYPES, OPTIMIZE_MODES, c_type_word, idempotency_level_word,
    js_type_word, label_word, optimize_mode_word, type_word,
};
