//! The library's own way from texts to descriptors.

ghost use Rattle.std.specs.Prelude.{◌≡◌, ◌⊎◌, IfOk, IfErr};
ghost use Rattle.protobuf_parse_lexer.specs.Cut.{out_of_memory, error_place};
ghost use Rattle.protobuf_parse_syntax.specs.Dependencies.{dependencies_of, dependencies_view};
ghost use Rattle.protobuf_parse_syntax.specs.Parsing.{HasTree, IsFaultOf, TellsFaults};
ghost use Rattle.protobuf_parse_syntax.specs.Trees.{FileSyntax};
ghost use Rattle.protobuf_parse_model.specs.Descriptors as described;
ghost use Rattle.protobuf_parse.specs.Imports.{imports_alone};

use protobuf_parse_model::FileDescriptorProto;
pub use protobuf_parse_run::parse_and_typecheck_custom;
use protobuf_parse_syntax::{Dependencies, ParserErrorWithLocation};
use std::alloc::Global;

/// What a file's text imports: a descriptor with the paths of its `import` statements in source
/// order and the positions of the public and of the weak ones, from 0 on and ascending, and nothing
/// else. No other file is asked for.
///
/// The error is that of the text: S1 to S20 at their line and column, both counted from 1, the
/// column in characters; or want of memory, at 0:0.
///
/// ```
/// for path in &parse_dependencies(alloc, text)?.dependency {
///     write!(lines, "{path}\n")?;
/// }
/// ```
pub fn parse_dependencies(
    alloc: Global,
    text: &str,
) -> Result<FileDescriptorProto, ParserErrorWithLocation>
    // What is answered is what the one tree of the text imports.
    ensures found { IfOk result (λ d. (t : FileSyntax) × HasTree text.now t
        × (described.file_view d ≡ imports_alone (dependencies_of t.statements))) }
    ensures only { IfOk result (λ d. (u : FileSyntax) → HasTree text.now u
        → described.file_view d ≡ imports_alone (dependencies_of u.statements)) }

    // What is refused has no tree, and that fault stands there.
    ensures none { IfErr result (λ e. (e ≡ out_of_memory)
        ⊎ ((u : FileSyntax) → HasTree text.now u → ⊥)) }
    ensures refused { IfErr result (λ e. (e ≡ out_of_memory)
        ⊎ IsFaultOf text.now e.error (error_place e)) }

    // A text that has no tokens is refused with its fault.
    ensures tells { TellsFaults text.now result }
{
    let found = protobuf_parse_syntax::parse_dependencies(alloc, text)?;
    Ok(with_imports(alloc, found))
}

/// A descriptor with these imports and nothing else.
fn with_imports(alloc: Global, found: Dependencies) -> FileDescriptorProto
    ensures { described.file_view result ≡ imports_alone (dependencies_view found) }
{
    FileDescriptorProto {
        name: None,
        package: None,
        syntax: None,
        dependency: found.dependency,
        public_dependency: found.public_dependency,
        weak_dependency: found.weak_dependency,
        message_type: Vec::new(alloc),
        enum_type: Vec::new(alloc),
        service: Vec::new(alloc),
        extension: Vec::new(alloc),
        options: None,
    }
}
