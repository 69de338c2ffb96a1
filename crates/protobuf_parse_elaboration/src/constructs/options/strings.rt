//! What strings stand for.

ghost use Rattle.std.specs.Prelude.{◌≡◌, ◌++◌, option_map, string_bytes, IfOk, OnOk};
ghost use Rattle.protobuf_parse_lexer.specs.Decoder.{decode, text_of};
ghost use Rattle.protobuf_parse_lexer.specs.declared.lexer.str_lit.StrLitDecodeError.TheVariants.{Memory};
ghost use Rattle.protobuf_parse_syntax.specs.Trees.{pieces_of};
ghost use Rattle.protobuf_parse_model.specs.BuiltinOptions.{string_faults};
ghost use Rattle.protobuf_parse_model.specs.Faults.{placed};
ghost use Rattle.protobuf_parse_elaboration.specs.Fields.{text_or_empty};
ghost use Rattle.protobuf_parse_elaboration.specs.Telling.{Tells};

use protobuf_parse_lexer::Place;
use protobuf_parse_model::{ElabError, ElabErrorKind, tell};
use protobuf_parse_syntax::{StrLit, StrLitDecodeError};
use std::alloc::{AllocError, Global};

/// The text that a string stands for; `None` where it stands for none. The one error is that memory
/// is short.
pub fn decoded_text(alloc: Global, string: &StrLit) -> Result<Option<String>, AllocError>
    ensures { IfOk result (λ t. option_map string_bytes t ≡ text_of (pieces_of string.now)) }
{
    match string.decode_utf8(alloc) {
        Ok(text) => Ok(Some(text)),
        Err(error) => {
            check_memory(error)?;
            Ok(None)
        }
    }
}

/// The bytes that a string stands for; `None` where it stands for none. The one error is that
/// memory is short.
pub fn decoded_bytes(alloc: Global, string: &StrLit) -> Result<Option<Vec<u8>>, AllocError>
    ensures { IfOk result (λ v. option_map (λ v. v.items) v ≡ decode (pieces_of string.now)) }
{
    match string.decode_bytes(alloc) {
        Ok(bytes) => Ok(Some(bytes)),
        Err(error) => {
            check_memory(error)?;
            Ok(None)
        }
    }
}

/// Fails where memory ran out.
fn check_memory(error: StrLitDecodeError) -> Result<(), AllocError>
    ensures { OnOk result (error ≡ Memory → ⊥) }
{
    match error {
        StrLitDecodeError::Memory => Err(AllocError),
        StrLitDecodeError::BadEscape | StrLitDecodeError::NotUtf8 => Ok(()),
    }
}

/// The text that the string says which is given to the option of that name; empty where it says
/// none, which is E9.
pub fn text_given(
    alloc: Global,
    faults: &mut Vec<ElabError>,
    place: Place,
    name: &str,
    string: &StrLit,
) -> Result<String, AllocError>
    ensures value { IfOk result
        (λ s. string_bytes s ≡ text_or_empty (text_of (pieces_of string.now))) }
    ensures faults { Tells result faults.old faults.new
        (placed place (string_faults name.now (text_of (pieces_of string.now)))) }
{
    match decoded_text(alloc, string)? {
        Some(text) => Ok(text),
        None => {
            tell(alloc, faults, place, ElabErrorKind::StrLitDecode, name)?;
            Ok(String::new(alloc))
        }
    }
}

/// The bytes that the string says which is given to the option of that name; none where it says
/// none, which is E9.
pub fn bytes_given(
    alloc: Global,
    faults: &mut Vec<ElabError>,
    place: Place,
    name: &str,
    string: &StrLit,
) -> Result<Vec<u8>, AllocError>
    ensures value { IfOk result (λ v. v.items ≡ text_or_empty (decode (pieces_of string.now))) }
    ensures faults { Tells result faults.old faults.new
        (placed place (string_faults name.now (decode (pieces_of string.now)))) }
{
    match decoded_bytes(alloc, string)? {
        Some(bytes) => Ok(bytes),
        None => {
            tell(alloc, faults, place, ElabErrorKind::StrLitDecode, name)?;
            Ok(Vec::new(alloc))
        }
    }
}
