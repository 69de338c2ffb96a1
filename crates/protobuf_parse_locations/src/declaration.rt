//! What a file declares.

/// What is declared.
#[derive(Clone, Copy, Debug, PartialEq, Eq)]
pub enum DeclarationKind {
    Message,
    /// A field of a message.
    Field,
    Oneof,
    Enum,
    /// A value of an enum.
    Value,
    Extension,
    Service,
    /// A method of a service.
    Method,
}

/// What is declared, by its full name and by its path.
#[derive(Debug, PartialEq, Eq, Drop)]
pub struct Declaration {
    pub kind: DeclarationKind,
    /// With its first dot, as in a field's `type_name`: `.shop.Item.price`. The value of an enum
    /// stands beside its enum.
    pub full_name: String,
    /// The path that its location has: the numbers of fields of `descriptor.proto`, and indexes,
    /// that lead to it from the file's descriptor.
    pub path: Vec<u32>,
}
