//! Locations that outlive the tree.

ghost use Rattle.std.specs.Prelude.{◌≡◌, map, IfOk};
ghost use Rattle.protobuf_parse_source_info.specs.Views.{info_view, location_view};
ghost use Rattle.protobuf_parse_option_paths.specs.Whole as spec;

use protobuf_parse_source_info::{Location, SourceCodeInfo};
use std::alloc::{AllocError, Global};

/// The locations without the names of options, which lie in the tree: so they can be kept without
/// it. Full paths say what the names say. The one error is that memory is short.
pub fn without_names(
    alloc: Global,
    info: SourceCodeInfo<'_>,
) -> Result<SourceCodeInfo<'static>, AllocError>
    ensures { IfOk result (λ i. info_view i ≡ map spec.nameless (info_view info.entry)) }
{
    let mut location = Vec::with_capacity(alloc, info.location.len())?;
    'locations: for one in info.location {
        location.push(nameless(one))?;
    }
    Ok(SourceCodeInfo { location })
}

/// The location without the name of an option.
fn nameless(location: Location<'_>) -> Location<'static>
    ensures { location_view result ≡ spec.nameless (location_view location.entry) }
{
    let Location {
        path,
        span,
        leading_comments,
        trailing_comments,
        leading_detached_comments,
        option: _,
    } = location;
    Location {
        path,
        span,
        leading_comments,
        trailing_comments,
        leading_detached_comments,
        option: None,
    }
}
