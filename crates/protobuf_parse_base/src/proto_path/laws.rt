//! A law of the faults of paths. The function does nothing.
ghost use Rattle.std.specs.Prelude.{◌≡◌, ◌↔◌, ℕ, List, None};
ghost use Rattle.protobuf_parse_base.specs.Paths.{path_fault, IsProtoPath};

/// A text has no fault exactly if it is a proto path.
pub fn proto_paths_have_no_fault()
    ensures { (text : List ℕ) → (path_fault text ≡ None) ↔ IsProtoPath text }
{}
