//! Locations with full paths.

ghost use Rattle.std.specs.Prelude.{◌≡◌, ◌++◌, map, IfOk, OnOk, List, Some};
ghost use Rattle.protobuf_parse_syntax.specs.Trees.{option_name_syntax};
ghost use Rattle.protobuf_parse_model.specs.Descriptors.{file_view};
ghost use Rattle.protobuf_parse_source_info.specs.Views.{info_view, location_view};
ghost use Rattle.protobuf_parse_source_info.specs.Walks.{Path};
ghost use Rattle.protobuf_parse_option_paths.specs.InnerViews.{IsCounted, PutsLead};
ghost use Rattle.protobuf_parse_option_paths.specs.Views.{steps_seen};
ghost use Rattle.protobuf_parse_option_paths.specs.Paths as spec;
ghost use Rattle.protobuf_parse_option_paths.specs.declared.names.Step.{Step};
ghost use Rattle.protobuf_parse_option_paths.specs.Views.{files_view};

use crate::bearers::option_bearer;
use crate::counted::{Counts, push_index};
use crate::names::{OptionFiles, Step, option_steps};
use protobuf_parse_model::FileDescriptorProto;
use protobuf_parse_source_info::{Location, SourceCodeInfo};
use protobuf_parse_syntax::ProtobufOptionName;
use std::alloc::{AllocError, Global};
use std::collections::BTreeMap;

/// The locations of a file with full paths, as `protoc` has them: that of an option goes on from
/// its options message with the numbers of the fields that its name leads through, and if the last
/// one is repeated with an index. An option whose name means nothing keeps its path. All else is as
/// it was, and in the same order.
///
/// The locations are those of the text of the file, and the file is among those that are seen. The
/// one error is that memory is short. Time is in proportion to the locations, by the logarithm of
/// how many there are and of how many names the indexes have; and to the fields of a message where
/// a part of a name means one of them.
///
/// ```text
/// let index = Index::of(alloc, &parsed.file_descriptors)?;
/// let files = OptionFiles { reached: &index, seen: &seen_paths(alloc, &index, file)? };
/// let info = with_option_paths(alloc, &files, file, source_info(alloc, text, &tree)?)?;
/// ```
#[tactic(auto, using(crate::proofs::Leads::none_done, crate::proofs::Leads::one_done, crate::proofs::Leads::all_done))]
pub fn with_option_paths<'tree>(
    alloc: Global,
    files: &OptionFiles<'_, '_>,
    file: &FileDescriptorProto,
    info: SourceCodeInfo<'tree>,
) -> Result<SourceCodeInfo<'tree>, AllocError>
    ensures { IfOk result (λ i. info_view i
        ≡ spec.full_paths (files_view files.now) (file_view file.now) (info_view info.entry)) }
{
    let mut counts = BTreeMap::new(alloc);
    let mut location = Vec::with_capacity(alloc, info.location.len())?;
    'locations: for one in info.location {
        location.push(with_path(alloc, files, file, &mut counts, one)?)?;
    }
    Ok(SourceCodeInfo { location })
}

/// The location with its full path, behind the options that are counted.
#[tactic(auto, using(crate::proofs::Leads::puts_none))]
fn with_path<'tree>(
    alloc: Global,
    files: &OptionFiles<'_, '_>,
    file: &FileDescriptorProto,
    counts: &mut Counts,
    location: Location<'tree>,
) -> Result<Location<'tree>, AllocError>
    ensures { IfOk result (λ l. (before : List Path) → IsCounted counts.old before →
        PutsLead counts.new before (location_view l) (location_view location.entry)
        (spec.lead_of (files_view files.now) (file_view file.now) (location_view location.entry))) }
{
    let Some(name) = location.option else {
        return Ok(location);
    };
    match steps_at(alloc, files, file, &location.path, name)? {
        Some(steps) => with_steps(counts, location, &steps),
        None => Ok(location),
    }
}

/// The location with a path that goes on with the steps.
#[tactic(auto, using(crate::proofs::Leads::puts_single, crate::proofs::Leads::puts_repeated))]
fn with_steps<'tree>(
    counts: &mut Counts,
    location: Location<'tree>,
    steps: &[Step],
) -> Result<Location<'tree>, AllocError>
    ensures { IfOk result (λ l. (before : List Path) → IsCounted counts.old before →
        PutsLead counts.new before (location_view l) (location_view location.entry)
        (spec.lead_from location.entry.path.items (Some steps.now))) }
{
    let mut location = location;
    push_steps(&mut location.path, steps)?;
    if ends_repeated(steps) {
        push_index(counts, &mut location.path)?;
    }
    Ok(location)
}

/// The fields that the name of an option at the path leads through.
fn steps_at(
    alloc: Global,
    files: &OptionFiles<'_, '_>,
    file: &FileDescriptorProto,
    path: &[u32],
    name: &ProtobufOptionName,
) -> Result<Option<Vec<Step>>, AllocError>
    ensures { IfOk result (λ s. steps_seen s ≡ spec.steps_at (files_view files.now)
        (file_view file.now) path.now (option_name_syntax name.now)) }
{
    match option_bearer(alloc, file, path)? {
        Some(bearer) => option_steps(alloc, files, bearer.construct, &bearer.scope, name),
        None => Ok(None),
    }
}

/// Adds the numbers of the steps.
fn push_steps(path: &mut Vec<u32>, steps: &[Step]) -> Result<(), AllocError>
    ensures { OnOk result
        (path.new.items ≡ path.old.items ++ map (λ (s : Step). s.number) steps.now) }
{
    'each: for step in steps {
        path.push(step.number)?;
    }
    Ok(())
}

/// Whether the last field is repeated.
#[tactic(auto, using(crate::proofs::Stepping::ends_with))]
fn ends_repeated(steps: &[Step]) -> bool
    ensures { result ≡ spec.ends_repeated steps.now }
{
    match steps.split_last() {
        Some((last, _)) => last.repeated,
        None => false,
    }
}
