//! Laws of the clauses of the calls on paths. The functions do nothing.

ghost use Rattle.protobuf_parse_base.specs.Undo.{PopUndoesPush, RemovePrefixUndoesConcat};
ghost use Rattle.protobuf_parse_base.specs.Undo.{RemoveSuffixUndoesConcat};
ghost use Rattle.protobuf_parse_base.specs.Undo.{IntoAbsoluteUndoesToRootRel};

/// An identifier that was pushed is popped, and the path is as it was.
pub fn pop_undoes_push()
    ensures { PopUndoesPush }
{}

/// Of two paths that were joined, what stands in front is removed, and so is what stands behind.
pub fn remove_undoes_concat()
    ensures prefix { RemovePrefixUndoesConcat }
    ensures suffix { RemoveSuffixUndoesConcat }
{}

/// The relative path with the same identifiers becomes the path again.
pub fn into_absolute_undoes_to_root_rel()
    ensures { IntoAbsoluteUndoesToRootRel }
{}
