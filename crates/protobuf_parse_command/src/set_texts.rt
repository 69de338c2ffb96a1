//! The files of descriptor sets as texts, for files that import them.

ghost use Rattle.std.specs.Prelude.{◌≡◌, IfOk, IfSome, string_bytes};
ghost use Rattle.protobuf_parse_command.specs.Finding.{LiesInSet, origin_in};

use crate::readable::clear_float_defaults;
use crate::sets::Sets;
use protobuf_parse::ResolvedProtoFile;
use protobuf_parse_index::Index;
use protobuf_parse_proto_text::proto_text;
use std::alloc::{AllocError, Global};

/// The files of sets. The text of one is made when it is asked for.
#[derive(Drop)]
pub struct SetTexts<'a> {
    sets: &'a Sets,
    index: Index<'a>,
}

impl<'a> SetTexts<'a> {
    /// Those of these sets. The one error is that memory is short.
    pub fn of(alloc: Global, sets: &'a Sets) -> Result<Self, AllocError> {
        Ok(SetTexts {
            sets,
            index: Index::of(alloc, &sets.files)?,
        })
    }

    /// Whether a set has a file of this path.
    pub fn has(&self, path: &str) -> bool {
        self.sets.by_path.contains_key(path)
    }

    /// The set that has the file of this path, if one has.
    pub fn set_of(&self, path: &str) -> Option<&str> {
        let at = self.sets.by_path.get(path).copied()?;
        let set = self.sets.origins.get(at)?;
        Some(set)
    }

    /// The file of this path, if a set has one: its text, and where it lies, as `deps.pb(a.proto)`.
    /// The one error is that memory is short.
    pub fn resolved(
        &self,
        alloc: Global,
        path: &str,
    ) -> Result<Option<ResolvedProtoFile>, AllocError>
        ensures { IfOk result (λ found. IfSome found (LiesInSet path.now)) }
    {
        let Some(at) = self.sets.by_path.get(path).copied() else {
            return Ok(None);
        };
        match (self.sets.files.get(at), self.sets.origins.get(at)) {
            (Some(file), Some(set)) => {
                let mut readable = file.clone()?;
                clear_float_defaults(&mut readable);
                let text = proto_text(alloc, &self.index, &readable)?;
                Ok(Some(ResolvedProtoFile {
                    path: origin_in(alloc, set, path)?,
                    content: text.into_bytes(),
                }))
            }
            _ => Ok(None),
        }
    }

    /// Whether that is where the file of this path lies in a set.
    pub fn lies_at(&self, alloc: Global, path: &str, origin: &str) -> Result<bool, AllocError> {
        match self.set_of(path) {
            Some(set) => Ok(origin_in(alloc, set, path)?.as_str() == origin),
            None => Ok(false),
        }
    }
}

/// Where a file of a set lies.
fn origin_in(alloc: Global, set: &str, path: &str) -> Result<String, AllocError>
    ensures { IfOk result (λ place. string_bytes place ≡ origin_in set.now path.now) }
{
    let mut place = String::from_str(alloc, set)?;
    place.push_str("(")?;
    place.push_str(path)?;
    place.push_str(")")?;
    Ok(place)
}
