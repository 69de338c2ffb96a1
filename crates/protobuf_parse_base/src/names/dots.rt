//! Texts and their dots.
ghost use Rattle.std.specs.Prelude.{◌≡◌, [], ◌∷◌, ◌++◌, MatchOption};
ghost use Rattle.std.specs.List.{list_all};
ghost use Rattle.protobuf_parse_base.specs.Characters as char;
ghost use Rattle.protobuf_parse_base.specs.Names.{is_ident_byte, are_idents, dotted_parts};

use super::ident::ProtobufIdentRef;

/// Whether an identifier may hold the byte.
fn is_ident_byte(byte: u8) -> bool
    ensures { result ≡ is_ident_byte byte }
{
    !matches!(byte, b'/' | b'.' | b':' | b'(' | b')')
}

/// Whether an identifier may hold each of the bytes.
pub(super) fn are_ident_bytes(bytes: &[u8]) -> bool
    ensures { result ≡ list_all is_ident_byte bytes.now }
{
    bytes.iter().all(|byte| is_ident_byte(*byte))
}

/// Whether each part between dots is an identifier.
pub(super) fn parts_are_idents(text: &str) -> bool
    ensures { result ≡ are_idents (dotted_parts text.now) }
{
    text.split('.').all(ProtobufIdentRef::is_ident)
}

/// What stands before and after the first dot.
pub(super) fn cut_first(text: &str) -> Option<(&str, &str)>
    ensures { MatchOption result (dotted_parts text.now ≡ text.now ∷ [])
        (λ parts. (text.now ≡ parts.0.now ++ char.dot ∷ parts.1.now)
        × (dotted_parts parts.0.now ≡ parts.0.now ∷ [])) }
{
    text.split_once('.')
}

/// What stands before and after the last dot.
pub(super) fn cut_last(text: &str) -> Option<(&str, &str)>
    ensures { MatchOption result (dotted_parts text.now ≡ text.now ∷ [])
        (λ parts. (text.now ≡ parts.0.now ++ char.dot ∷ parts.1.now)
        × (dotted_parts parts.1.now ≡ parts.1.now ∷ [])) }
{
    text.rsplit_once('.')
}
