//! Numbers and truth values.

ghost use Rattle.std.specs.Prelude.{◌≡◌, ◌%◌, ◌^◌, IsSome, option_map};
ghost use Rattle.protobuf_parse_wire.specs.Reading.{unzigzag};
ghost use Rattle.protobuf_parse_decode.specs.Parts.{says_of, value_word, words_of_type};
ghost use Rattle.protobuf_parse_decode.specs.Inside.{value_view, word_view};

use crate::field::Value;
use protobuf_parse_model::FieldType;

/// How a number stands on the wire.
#[derive(Clone, Copy, Debug, PartialEq, Eq)]
pub enum Word {
    Varint,
    EightBytes,
    FourBytes,
}

/// How values of the type stand on the wire, if they are numbers or truth values.
pub fn word_of(field_type: FieldType) -> Option<Word>
    ensures { option_map word_view result ≡ value_word (words_of_type field_type) }
{
    match field_type {
        FieldType::Int32
        | FieldType::Int64
        | FieldType::Uint32
        | FieldType::Uint64
        | FieldType::Sint32
        | FieldType::Sint64
        | FieldType::Bool
        | FieldType::Enum => Some(Word::Varint),
        FieldType::Fixed64 | FieldType::Sfixed64 | FieldType::Double => Some(Word::EightBytes),
        FieldType::Fixed32 | FieldType::Sfixed32 | FieldType::Float => Some(Word::FourBytes),
        FieldType::String | FieldType::Bytes | FieldType::Message | FieldType::Group => None,
    }
}

/// What a number on the wire says of such a type.
pub fn value_of<'a>(field_type: FieldType, word: u64) -> Value<'a>
    requires { IsSome (words_of_type field_type) }
    ensures { value_view result ≡ says_of (words_of_type field_type) word }
{
    let number = match field_type {
        FieldType::Int32 | FieldType::Sfixed32 | FieldType::Enum => {
            i128::from(low_half(word).cast_signed())
        }
        FieldType::Int64 | FieldType::Sfixed64 => i128::from(word.cast_signed()),
        FieldType::Uint32 | FieldType::Fixed32 => i128::from(low_half(word)),
        FieldType::Uint64 | FieldType::Fixed64 => i128::from(word),
        FieldType::Sint32 => unzigzag(u64::from(low_half(word))),
        FieldType::Sint64 => unzigzag(word),
        FieldType::Bool => {
            return Value::Bool {
                word,
                value: word > 0,
            };
        }
        FieldType::Float => return Value::Float(low_half(word)),
        FieldType::Double => return Value::Double(word),
        FieldType::String | FieldType::Bytes | FieldType::Message | FieldType::Group => {
            unreachable!()
        }
    };
    Value::Number { word, number }
}

/// The low half of a word.
fn low_half(word: u64) -> u32
    ensures { result ≡ word % 2 ^ 32 }
{
    (word % (1 << 32)) as u32
}

/// The number that zigzag encodes so.
fn unzigzag(word: u64) -> i128
    ensures { result ≡ unzigzag word }
{
    if word % 2 == 0 {
        i128::from(word / 2)
    } else {
        -1 - i128::from(word / 2)
    }
}
