//! What files declare, each with its full name.

/// A declaration: the path of its file, its full name, which has a dot at its head, and its
/// descriptor.
#[derive(Drop)]
pub struct Declared<'a, T> {
    /// The path by which the file is known, or no text where its descriptor has none.
    pub file: &'a str,
    /// With its first dot, as in a field's `type_name`: `.shop.Item`.
    pub full_name: String,
    pub descriptor: &'a T,
}
