//! How inputs get their proto paths: the first include that is a front of an input is taken off.

ghost use Rattle.std.specs.Prelude.{◌≡◌, IfOk, IfErr, OnOk, ◌++◌, flat_map, map, string_bytes};
ghost use Rattle.protobuf_parse_base.specs.Paths.{kept_parts};
ghost use Rattle.protobuf_parse_base.specs.PathViews.{path_buf_text};
ghost use Rattle.protobuf_parse_run.specs.Run.{OrMemory};
ghost use Rattle.protobuf_parse.specs.Includes.{AreNamed, StandsAtFirst};
ghost use Rattle.protobuf_parse.specs.IncludeParts.{IsMisnamed, IsOutside};
ghost use Rattle.protobuf_parse.specs.Includes.{StandsAtInput, includes_text, left_by, left_of};
ghost use Rattle.protobuf_parse.specs.Includes.{named_as, naming_of, naming_of_rest, next_include};
ghost use Rattle.protobuf_parse.specs.Includes.{part_views, parts_after};
ghost use Rattle.protobuf_parse.specs.Includes.{quoted_include};
ghost use Rattle.protobuf_parse.specs.Includes.{unnamed};
ghost use Rattle.protobuf_parse.specs.IncludeParts.{rest_parts_view};

use protobuf_parse_base::proto_path::{PathError, ProtoPathBuf, join_parts, kept_parts};
use protobuf_parse_run::RunFault;
use std::alloc::{AllocError, Global};

/// The proto paths of the inputs, in order.
///
/// The error is that of the first input that gets none, as [`proto_path_of`] says, or want of
/// memory.
pub fn proto_paths_of(
    alloc: Global,
    includes: &[String],
    inputs: &[String],
) -> Result<Vec<ProtoPathBuf>, RunFault>
    ensures named { IfOk result (λ v. AreNamed (map string_bytes includes.now)
        (map string_bytes inputs.now) (map path_buf_text v.items)) }
    ensures first { IfErr result (λ f. OrMemory f (StandsAtFirst (map string_bytes includes.now)
        (map string_bytes inputs.now) f)) }
{
    let mut names = Vec::new(alloc);
    for input in inputs {
        names.push(proto_path_of(alloc, includes, input)?)?;
    }
    Ok(names)
}

/// The proto path of an input: what is left of it once the first include is taken off that is
/// absolute like it and whose parts are a front of its own. Parts are what stands between slashes,
/// without the empty ones and `.`.
///
/// The error is L3 where no include is a front, L11 where what is left is no proto path, or want of
/// memory.
pub fn proto_path_of(
    alloc: Global,
    includes: &[String],
    input: &str,
) -> Result<ProtoPathBuf, RunFault>
    ensures named { IfOk result (λ path.
        naming_of (map string_bytes includes.now) input.now ≡ named_as (path_buf_text path)) }
    ensures stands { IfErr result (λ f.
        OrMemory f (StandsAtInput (map string_bytes includes.now) input.now f)) }
{
    let parts = kept_parts(alloc, input)?;
    match left_of_parts(alloc, includes, input, &parts)? {
        Some(rest) => match name_of_rest(alloc, rest) {
            Ok(name) => Ok(name),
            Err(why) => Err(misnamed(alloc, input, why)),
        },
        None => Err(outside_includes(alloc, includes, input)),
    }
}

/// L11, or want of memory.
fn misnamed(alloc: Global, input: &str, why: PathError) -> RunFault
    ensures { OrMemory result ((why ≡ PathError.Memory → ⊥) × IsMisnamed input.now why result) }
{
    match why {
        PathError::Memory => RunFault::Memory,
        _ => match String::from_str(alloc, input) {
            Ok(input) => RunFault::InputPath(input, why),
            Err(_) => RunFault::Memory,
        },
    }
}

/// L3, or want of memory.
fn outside_includes(alloc: Global, includes: &[String], input: &str) -> RunFault
    ensures { OrMemory result (IsOutside (map string_bytes includes.now) input.now result) }
{
    let Ok(listed) = list_includes(alloc, includes) else {
        return RunFault::Memory;
    };
    match String::from_str(alloc, input) {
        Ok(input) => RunFault::FileMustResideInImportPath(input, listed),
        Err(_) => RunFault::Memory,
    }
}

/// The includes as faults list them: `["a", "b"]`, each as it was given.
pub fn list_includes(alloc: Global, includes: &[String]) -> Result<String, AllocError>
    ensures { IfOk result (λ s. string_bytes s ≡ includes_text (map string_bytes includes.now)) }
{
    let mut text = String::from_str(alloc, "[")?;
    if let Some((first, others)) = includes.split_first() {
        put_quoted(&mut text, first)?;
        put_next_includes(&mut text, others)?;
    }
    text.push_str("]")?;
    Ok(text)
}

/// Adds each include in double quotes, after a comma.
fn put_next_includes(text: &mut String, includes: &[String]) -> Result<(), AllocError>
    ensures { OnOk result (string_bytes text.new
        ≡ string_bytes text.old ++ flat_map next_include (map string_bytes includes.now)) }
{
    for include in includes {
        put_next_include(text, include)?;
    }
    Ok(())
}

/// Adds the include in double quotes, after a comma.
fn put_next_include(text: &mut String, include: &str) -> Result<(), AllocError>
    ensures { OnOk result (string_bytes text.new
        ≡ string_bytes text.old ++ next_include include.now) }
{
    text.push_str(", ")?;
    put_quoted(text, include)
}

/// Adds the include in double quotes.
fn put_quoted(text: &mut String, include: &str) -> Result<(), AllocError>
    ensures { OnOk result (string_bytes text.new
        ≡ string_bytes text.old ++ quoted_include include.now) }
{
    text.push_str("\"")?;
    text.push_str(include)?;
    text.push_str("\"")
}

/// What is left of the input once its include is taken off, if it resides in one.
fn left_of_parts<'p, 'a>(
    alloc: Global,
    includes: &[String],
    input: &str,
    parts: &'p [&'a str],
) -> Result<Option<&'p [&'a str]>, AllocError>
    requires { part_views parts.now ≡ kept_parts input.now }
    ensures { IfOk result
        (λ o. rest_parts_view o ≡ left_of (map string_bytes includes.now) input.now) }
{
    for include in includes {
        let rest = left_by_include(alloc, include, input, parts)?;
        if rest.is_some() {
            return Ok(rest);
        }
    }
    Ok(None)
}

/// What is left of the input once this include is taken off, if it is a front of it.
fn left_by_include<'p, 'a>(
    alloc: Global,
    include: &str,
    input: &str,
    parts: &'p [&'a str],
) -> Result<Option<&'p [&'a str]>, AllocError>
    requires { part_views parts.now ≡ kept_parts input.now }
    ensures { IfOk result (λ o. rest_parts_view o ≡ left_by include.now input.now) }
{
    if include.starts_with('/') != input.starts_with('/') {
        return Ok(None);
    }
    let front = kept_parts(alloc, include)?;
    Ok(after_front(&front, parts))
}

/// The parts that follow these first ones, if they are the first.
fn after_front<'p, 'a>(front: &[&str], parts: &'p [&'a str]) -> Option<&'p [&'a str]>
    ensures { rest_parts_view result ≡ parts_after (part_views front.now) (part_views parts.now) }
{
    for i in 0..front.len() {
        if i >= parts.len() || front[i] != parts[i] {
            return None;
        }
    }
    Some(&parts[front.len()..])
}

/// The proto path of these parts, or why they are none.
fn name_of_rest(alloc: Global, parts: &[&str]) -> Result<ProtoPathBuf, PathError>
    ensures named { IfOk result (λ path.
        naming_of_rest (Some (part_views parts.now)) ≡ named_as (path_buf_text path)) }
    ensures refused { IfErr result (λ why. (why ≡ PathError.Memory → ⊥)
        → naming_of_rest (Some (part_views parts.now)) ≡ unnamed why) }
{
    let Ok(text) = join_parts(alloc, parts) else {
        return Err(PathError::Memory);
    };
    ProtoPathBuf::from_path(alloc, &text)
}
