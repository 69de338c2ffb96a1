//! Custom options by the descriptors of files.

ghost use Rattle.std.specs.Prelude.{◌≡◌, List, ℕ, flat_map, map};
ghost use Rattle.std.proofs.Props.{props};
ghost use Rattle.protobuf_parse_options.specs.ByName.{named};
ghost use Rattle.protobuf_parse_wire.specs.Declarations.{declared_extensions, messages_with_name};
ghost use Rattle.protobuf_parse_options.specs.Holding.{Knows, files_seen};
ghost use Rattle.protobuf_parse_options.specs.HoldingParts.{at_spots, field_there};
ghost use Rattle.protobuf_parse_options.specs.Holding.{spots_under};
ghost use Rattle.protobuf_parse_options.specs.HoldingParts.{found_by, number_there};
ghost use Rattle.protobuf_parse_model.specs.Descriptors.{parts_seen};
ghost use Rattle.protobuf_parse_options.specs.OptionBytes.{customs_by_files};
ghost use Rattle.protobuf_parse_options.specs.OptionFields.{field_named, number_of_value};
ghost use Rattle.protobuf_parse_options.specs.OptionLaw.{HasSmallValues};
ghost use Rattle.protobuf_parse_options.specs.Spots.{extensions_inside};
ghost use Rattle.protobuf_parse_options.specs.SpotsInside.{messages_inside};

use crate::spots::Spots;
use crate::spots::picked::PickedFiles;
use crate::statements::{are_several, bytes_of, options_message};
use crate::viewpoint::OptionViewpoint;
use protobuf_parse_model::{Construct, CustomOptions, ElabError};
use protobuf_parse_syntax::ProtobufOption;
use std::alloc::{AllocError, Global};

/// Who says what custom options become, by the descriptors of files.
///
/// The names of extensions mean extensions of the files that are seen; the names of types in
/// descriptors mean messages and enums of all files that are reached.
#[derive(Clone, Copy)]
pub struct WithCustoms<'a> {
    pub(crate) spots: &'a Spots,
    pub(crate) reach: PickedFiles<'a>,
    pub(crate) sight: PickedFiles<'a>,
    ghost all_messages: { (name : List ℕ) → map parts_seen (at_spots messages_inside reach
        (spots_under spots.now.messages name))
        ≡ messages_with_name (files_seen reach) name } by { Prim.hlevel props },
    ghost all_fields: { (message name : List ℕ) → found_by (field_there reach name)
        (spots_under spots.now.messages message)
        ≡ field_named (files_seen reach) message name } by { Prim.hlevel props },
    ghost all_values: { (enum_name name : List ℕ) → found_by (number_there reach name)
        (spots_under spots.now.enums enum_name)
        ≡ number_of_value (files_seen reach) enum_name name } by { Prim.hlevel props },
    ghost all_extensions: { (name : List ℕ) → at_spots extensions_inside sight
        (spots_under spots.now.extensions name)
        ≡ named name (flat_map declared_extensions (files_seen sight)) } by { Prim.hlevel props },
    ghost small: { HasSmallValues (files_seen reach) } by { Prim.hlevel props },
}

impl<'a> WithCustoms<'a> {
    /// Knows the extensions of the files that a file sees, itself among them, and the messages and
    /// enums of all files that it reaches.
    pub fn new(spots: &'a Spots, reach: PickedFiles<'a>, sight: PickedFiles<'a>) -> WithCustoms<'a>
        requires knows { Knows spots.now reach sight }
        ensures { ⟦<WithCustoms<'a> as CustomOptions>⟧.customs result
            ≡ customs_by_files (files_seen reach.entry) (files_seen sight.entry) }
    {
        WithCustoms {
            spots,
            reach,
            sight,
        }
    }
}

impl CustomOptions for WithCustoms<'_> {
    ghost customs = { λ k. customs_by_files (files_seen k.reach) (files_seen k.sight) };

    fn bytes(
        &self,
        alloc: Global,
        faults: &mut Vec<ElabError>,
        construct: Construct,
        scope: &[&str],
        options: &[&ProtobufOption],
    ) -> Result<Vec<u8>, AllocError> {
        if options.is_empty() {
            return Ok(Vec::new(alloc));
        }
        let message = options_message(construct);
        let at = OptionViewpoint::new(self, scope, message, are_several(options));
        bytes_of(alloc, faults, &at, construct, options)
    }
}
