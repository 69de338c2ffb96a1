//! What a file becomes, and what is wrong in it, once its imports are judged.

ghost use Rattle.std.specs.Prelude.{◌≡◌, ◌≤◌, IfOk, List, OnOk, map};
ghost use Rattle.protobuf_parse_syntax.specs.Counts.{statements_in};
ghost use Rattle.protobuf_parse_syntax.specs.Trees.{FileSyntax, file_syntax};
ghost use Rattle.protobuf_parse_model.specs.Descriptors as described;
ghost use Rattle.protobuf_parse_model.specs.Tables.{TableTells};
ghost use Rattle.protobuf_parse_run.specs.Loading.{IndexBegins, IsWhole, descriptor_in};
ghost use Rattle.protobuf_parse_run.specs.Loading.{descriptors_with};
ghost use Rattle.protobuf_parse_check.specs.Judging.{IsJudged, LooksUp};

use protobuf_parse_elaboration::elaborate_all;
use protobuf_parse_model::{ElabError, FileDescriptorProto, Seen, WithoutCustoms};
use protobuf_parse_options::{PickedFiles, WithCustoms, has_custom_option};
use protobuf_parse_run::elaborated::descriptors;
use protobuf_parse_run::loaded::LoadedFiles;
use protobuf_parse_run::tables::{RunSpots, add_next};
use protobuf_parse_syntax::FileTree;
use std::alloc::{AllocError, Global};

/// What a file becomes, and what is wrong in it.
#[derive(Drop)]
pub struct Judged {
    pub descriptor: FileDescriptorProto,
    /// What is wrong in it; what is wrong in its custom options, where these are looked at.
    pub faults: Vec<ElabError>,
    /// Whether something is wrong in it, its custom options left out.
    pub faulty: bool,
}

/// Elaborates the next file over the files that it reaches and sees. Its custom options are looked
/// at where `looks_up` says so and nothing else is wrong in it.
pub fn judge_tree(
    alloc: Global,
    loaded: &LoadedFiles,
    spots: &mut RunSpots,
    seen: &Seen<'_>,
    looks_up: bool,
    path: &str,
    tree: &FileTree,
) -> Result<Judged, AllocError>
    requires few { statements_in (file_syntax tree.now) ≤ 2147483647 }
    requires begins { IndexBegins spots.old (map descriptor_in loaded.now.entries) }
    ensures judged { (files : List FileSyntax) → TableTells seen.now.declarations.now files
        → IfOk result (λ d. IsJudged loaded.now.entries files seen.now.reach.now
        seen.now.sight.now looks_up path.now (file_syntax tree.now) d) }
    ensures begins { (files : List FileSyntax) → TableTells seen.now.declarations.now files
        → IfOk result (λ d. IndexBegins spots.new
        (descriptors_with loaded.now.entries (described.file_view d.descriptor))) }
{
    let mut faults = Vec::new(alloc);
    let plain = elaborate_all(alloc, &mut faults, path, tree, seen, &WithoutCustoms)?;
    let faulty = !faults.is_empty();
    if faulty || !looks_up || !has_custom_option(tree) {
        return Ok(Judged {
            descriptor: plain,
            faults,
            faulty,
        });
    }
    with_customs(alloc, loaded, spots, seen, &plain, path, tree)
}

/// The same with its custom options, of a file whose descriptor without them is `plain`, and in
/// which nothing else is wrong.
fn with_customs(
    alloc: Global,
    loaded: &LoadedFiles,
    spots: &mut RunSpots,
    seen: &Seen<'_>,
    plain: &FileDescriptorProto,
    path: &str,
    tree: &FileTree,
) -> Result<Judged, AllocError>
    requires few { statements_in (file_syntax tree.now) ≤ 2147483647 }
    requires begins { IndexBegins spots.old (map descriptor_in loaded.now.entries) }
    ensures judged { (files : List FileSyntax) → TableTells seen.now.declarations.now files
        → IfOk result (λ d. LooksUp loaded.now.entries files seen.now.reach.now seen.now.sight.now
        (described.file_view plain.now) path.now (file_syntax tree.now) d) }
    ensures begins { OnOk result (IsWhole spots.new
        (descriptors_with loaded.now.entries (described.file_view plain.now))) }
{
    add_next(spots, alloc, loaded, plain)?;
    let reached = descriptors(alloc, loaded, plain, seen.reach)?;
    let reach = PickedFiles {
        numbers: seen.reach,
        files: &reached,
    };
    let visible = descriptors(alloc, loaded, plain, seen.sight)?;
    let sight = PickedFiles {
        numbers: seen.sight,
        files: &visible,
    };
    let customs = WithCustoms::new(&spots.declared, reach, sight);
    let mut faults = Vec::new(alloc);
    let descriptor = elaborate_all(alloc, &mut faults, path, tree, seen, &customs)?;
    Ok(Judged {
        descriptor,
        faults,
        faulty: false,
    })
}
