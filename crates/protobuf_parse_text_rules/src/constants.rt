//! Constants.

ghost use Rattle.std.specs.Prelude.{◌≡◌, ◌||◌, map};
ghost use Rattle.std.specs.List.{list_any};
ghost use Rattle.protobuf_parse_syntax.specs.InnerViews.{constant_field_syntax};
ghost use Rattle.protobuf_parse_syntax.specs.Trees.{ConstantFieldSyntax, constant_name_syntax};
ghost use Rattle.protobuf_parse_syntax.specs.Trees.{constant_syntax};
ghost use Rattle.protobuf_parse_text_rules.specs.Options as spec;

use protobuf_parse_syntax::{ConstantField, ConstantFieldName, ProtobufConstant};

/// Whether a message constant in the constant names an extension with a dot before it.
#[cycle(constant)]
pub fn has_dotted(constant: &ProtobufConstant) -> bool
    ensures { result ≡ spec.has_dotted (constant_syntax constant.now) }
{
    match constant {
        ProtobufConstant::List(items) => any_dotted(items),
        ProtobufConstant::Message(fields) => any_field_dotted(fields),
        _ => false,
    }
}

#[tactic(auto, using(crate::proofs::Levels::any_found))]
#[cycle(constant)]
fn any_dotted(items: &[ProtobufConstant]) -> bool
    ensures { result ≡ list_any spec.has_dotted (map constant_syntax items.now) }
{
    'items: for item in items {
        if has_dotted(item) {
            return true;
        }
    }
    false
}

#[tactic(auto, using(crate::proofs::Levels::any_found))]
#[cycle(constant)]
fn any_field_dotted(fields: &[ConstantField]) -> bool
    ensures { result ≡ list_any (λ (f : ConstantFieldSyntax).
        spec.is_dotted f.name || spec.has_dotted f.value)
        (map constant_field_syntax fields.now) }
{
    'fields: for field in fields {
        if is_field_dotted(field) {
            return true;
        }
    }
    false
}

#[cycle(constant)]
fn is_field_dotted(field: &ConstantField) -> bool
    ensures { result ≡ (spec.is_dotted (constant_field_syntax field.now).name
        || spec.has_dotted (constant_field_syntax field.now).value) }
{
    is_dotted(&field.name) || has_dotted(&field.value)
}

fn is_dotted(name: &ConstantFieldName) -> bool
    ensures { result ≡ spec.is_dotted (constant_name_syntax name.now) }
{
    match name {
        ConstantFieldName::Extension(name) => begins_with_dot(name),
        ConstantFieldName::Regular(_) | ConstantFieldName::AnyUrl(_) => false,
    }
}

fn begins_with_dot(name: &str) -> bool
    ensures { result ≡ spec.begins_with_dot name.now }
{
    match name.as_bytes() {
        [first, ..] => *first == b'.',
        [] => false,
    }
}

/// Whether the constant is a list.
pub fn is_list(constant: &ProtobufConstant) -> bool
    ensures { result ≡ spec.is_list (constant_syntax constant.now) }
{
    matches!(constant, ProtobufConstant::List(_))
}
