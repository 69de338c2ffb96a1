//! How many options stand at a path.

ghost use Rattle.std.specs.Prelude.{◌≡◌, ◌∷◌, [], ◌++◌, bytes_eq, if◌then◌else◌, OnOk};
ghost use Rattle.protobuf_parse_source_info.specs.Parts.{next};
ghost use Rattle.protobuf_parse_source_info.specs.Walks.{Path};
ghost use Rattle.protobuf_parse_option_paths.specs.InnerViews.{counted};

use std::alloc::AllocError;
use std::collections::BTreeMap;

/// How many options were found at each path.
pub type Counts = BTreeMap<Vec<u32>, u32>;

/// Goes on with the index of one more option at the path, and counts it.
pub fn push_index(counts: &mut Counts, path: &mut Vec<u32>) -> Result<(), AllocError>
    ensures index { OnOk result
        (path.new.items ≡ path.old.items ++ counted counts.old path.old.items ∷ []) }
    ensures counts { OnOk result ((p : Path) → counted counts.new p
        ≡ (if bytes_eq path.old.items p then next (counted counts.old p)
        else counted counts.old p)) }
{
    let index = count_at(counts, path);
    counts.insert(path.clone()?, next(index))?;
    path.push(index)?;
    Ok(())
}

fn count_at(counts: &Counts, path: &[u32]) -> u32
    ensures { result ≡ counted counts.now path.now }
{
    match counts.get(path) {
        Some(count) => *count,
        None => 0,
    }
}

/// The index behind an index. A text has fewer options than it has bytes, so none reaches the last.
fn next(index: u32) -> u32
    ensures { result ≡ next index }
{
    index.saturating_add(1)
}
