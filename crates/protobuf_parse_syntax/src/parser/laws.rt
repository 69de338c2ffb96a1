//! Laws of the grammar. The functions do nothing.

ghost use Rattle.protobuf_parse_syntax.specs.Nesting.{TreesAreShallow};

/// In a file whose tokens nest at most 100 deep so do the parts of its tree.
pub fn trees_are_shallow()
    ensures { TreesAreShallow }
{}
