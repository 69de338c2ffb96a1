//! The trees of texts: statements with their names, options and places, before any name is looked
//! up. For linters of style and formatters, which need no descriptors.
//!
//! ```
//! let tree = trees::parse_file(alloc, text)?;
//! for statement in &tree.statements {
//!     if let FileStatement::Message(message) = statement {
//!         let Place { line, col } = message.place;
//!         write!(lines, "{line}:{col}: {}\n", message.name)?;
//!     }
//! }
//! ```

pub use protobuf_parse_syntax::{
    ConstantField, ConstantFieldName, EnumStatement, EnumValue, Enumeration, Extend, Extensions,
    Field, FieldNumberRange, FieldStatement, FileStatement, FileTree, Group, Import, ImportVis,
    Label, Message, MessageStatement, Method, OneOf, OneOfStatement, OptionStatement, Package,
    Place, ProtobufConstant, ProtobufOption, ProtobufOptionName, ProtobufOptionNamePart, Reserved,
    ReservedStatement, Scalar, Service, ServiceStatement, StrLit, Syntax, Type, parse_file,
};
