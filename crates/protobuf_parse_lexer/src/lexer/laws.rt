//! Laws of the definitions that the lexer's contracts cite. The functions do nothing.

ghost use Rattle.protobuf_parse_lexer.specs.Behind.{EachIsFound};
ghost use Rattle.protobuf_parse_lexer.specs.BehindViews.{OneLiesBehind};
ghost use Rattle.protobuf_parse_lexer.specs.Tokenizers.{OneLiesAhead};
ghost use Rattle.protobuf_parse_lexer.specs.Laws.{IsOneCut, IsOneFault, IsOneDecoding};
ghost use Rattle.protobuf_parse_lexer.specs.Laws.{TextsTellKinds};
ghost use Rattle.protobuf_parse_lexer.specs.Laws.{PlacesCountCharacters, TokensStandInTheText};
ghost use Rattle.protobuf_parse_lexer.specs.Laws.{StringsAreQuoted, EscapedBytesDecode};
ghost use Rattle.protobuf_parse_lexer.specs.Laws.{DecodeIsExact, TextIsExact};

/// A text is cut in one way, and one fault ends it.
pub fn cuts_are_unique()
    ensures cut { IsOneCut }
    ensures fault { IsOneFault }
{}

/// A token's text tells its kind.
#[tactic(auto, using(crate::proofs::TextKinds::token_kind))]
pub fn texts_tell_kinds()
    ensures { TextsTellKinds }
{}

/// The pieces of a string stand for one list of bytes.
pub fn decoding_is_unique()
    ensures { IsOneDecoding }
{}

/// The functions that the definitions of descriptors use for strings, `decode` and `text_of`, give
/// just what the pieces of a string stand for.
pub fn strings_are_decoded()
    ensures bytes { DecodeIsExact }
    ensures text { TextIsExact }
{}

/// A place counts line feeds and the characters after the last one, and a token has that of what
/// stands before it.
pub fn places_count_characters()
    ensures count { PlacesCountCharacters }
    ensures stand { TokensStandInTheText }
{}

/// A string token is what `unquoted` gives, between two equal quotes.
pub fn strings_are_quoted()
    ensures { StringsAreQuoted }
{}

/// Escaped bytes in double quotes are a string token, which stands for just those bytes.
pub fn escaped_bytes_decode()
    ensures { EscapedBytesDecode }
{}

/// Of each tokenizer just one stream of tokens lies ahead.
pub fn one_stream_lies_ahead()
    ensures { OneLiesAhead }
{}

/// Where each token of a text stands in it, in bytes, and that each tokenizer has one list of how
/// many bytes stand behind its tokens.
pub fn tokens_are_found()
    ensures found { EachIsFound }
    ensures one { OneLiesBehind }
{}
