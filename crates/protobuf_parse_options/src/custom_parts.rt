//! Whether custom options stand in a file.

ghost use Rattle.std.specs.Prelude.{◌≡◌, Bool, map};
ghost use Rattle.std.specs.List.{list_any};
ghost use Rattle.protobuf_parse_syntax.specs.Trees as view;
ghost use Rattle.protobuf_parse_syntax.specs.InnerViews.{message_statement_syntax};
ghost use Rattle.protobuf_parse_elaboration.specs.CustomSets.{is_custom, sets_custom};
ghost use Rattle.protobuf_parse_options.specs.CustomParts as part;
ghost use Rattle.protobuf_parse_elaboration.specs.OptionSets.{option_sets};

use protobuf_parse_syntax::{
    EnumStatement, FieldStatement, FileStatement, FileTree, MessageStatement, OneOfStatement,
    OptionStatement, ProtobufOption, ProtobufOptionName, ServiceStatement,
};

/// Whether a custom option is set in the file: one whose name is not a single direct part.
pub fn has_custom_option(tree: &FileTree) -> bool
    ensures { result ≡ list_any sets_custom (option_sets (view.file_syntax tree.now)) }
{
    any_custom(&tree.statements)
}

/// A part of a file in which custom options may be set.
trait MaySetCustom {
    ghost custom: { Self → Bool };

    fn has_custom(&self) -> bool
        ensures { result ≡ custom self.now };
}

/// Whether one is set in any of these parts.
fn any_custom<P: MaySetCustom>(parts: &[P]) -> bool
    ensures { result ≡ list_any P.custom parts.now }
{
    for part in parts {
        if part.has_custom() {
            return true;
        }
    }
    false
}

impl MaySetCustom for ProtobufOption {
    ghost custom = { λ o. is_custom (view.option_syntax o) };

    fn has_custom(&self) -> bool {
        match &self.name {
            ProtobufOptionName::Builtin(_) => false,
            ProtobufOptionName::Custom(_) => true,
        }
    }
}

impl MaySetCustom for OptionStatement {
    ghost custom = { λ s. is_custom (view.option_statement_syntax s).option };

    fn has_custom(&self) -> bool {
        self.option.has_custom()
    }
}

impl MaySetCustom for FieldStatement {
    ghost custom = { λ f. part.custom_in_field (view.field_statement_syntax f) };

    #[tactic(auto, using(crate::proofs::CustomParts::options_any, protobuf_parse_syntax::proofs::FieldViews::views_normal, protobuf_parse_syntax::proofs::FieldViews::views_group, protobuf_parse_model::proofs::Levels::group_body_is))]
    fn has_custom(&self) -> bool {
        match self {
            FieldStatement::Field(field) => any_custom(&field.options),
            FieldStatement::Group(group) => custom_in_group(&group.fields),
        }
    }
}

/// Whether one is set in a field of a group. A group in it sets none.
#[tactic(auto, using(crate::proofs::CustomParts::any_at))]
fn custom_in_group(fields: &[FieldStatement]) -> bool
    ensures { result ≡ list_any part.custom_in_grouped
        (map view.field_statement_syntax fields.now) }
{
    for field in fields {
        if custom_in_grouped(field) {
            return true;
        }
    }
    false
}

#[tactic(auto, using(crate::proofs::CustomParts::options_any, protobuf_parse_syntax::proofs::FieldViews::views_normal))]
fn custom_in_grouped(field: &FieldStatement) -> bool
    ensures { result ≡ part.custom_in_grouped (view.field_statement_syntax field.now) }
{
    match field {
        FieldStatement::Field(field) => any_custom(&field.options),
        FieldStatement::Group(_) => false,
    }
}

impl MaySetCustom for OneOfStatement {
    ghost custom = { λ s. part.custom_in_oneof (view.oneof_statement_syntax s) };

    fn has_custom(&self) -> bool {
        match self {
            OneOfStatement::Option(statement) => statement.has_custom(),
            OneOfStatement::Field(field) => field.has_custom(),
        }
    }
}

impl MaySetCustom for EnumStatement {
    ghost custom = { λ s. part.custom_in_enum (view.enum_statement_syntax s) };

    #[tactic(auto, using(crate::proofs::CustomParts::options_any))]
    fn has_custom(&self) -> bool {
        match self {
            EnumStatement::Reserved(_) => false,
            EnumStatement::Option(statement) => statement.has_custom(),
            EnumStatement::Value(value) => any_custom(&value.options),
        }
    }
}

impl MaySetCustom for ServiceStatement {
    ghost custom = { λ s. part.custom_in_service (view.service_statement_syntax s) };

    #[tactic(auto, using(crate::proofs::CustomParts::statements_any))]
    fn has_custom(&self) -> bool {
        match self {
            ServiceStatement::Method(method) => any_custom(&method.options),
            ServiceStatement::Option(statement) => statement.has_custom(),
        }
    }
}

/// Whether one is set in the statements of a message's body.
#[tactic(auto, using(crate::proofs::CustomParts::any_at))]
#[cycle(message)]
fn custom_in_body(statements: &[MessageStatement]) -> bool
    ensures { result ≡ list_any part.custom_in_message
        (map message_statement_syntax statements.now) }
{
    for statement in statements {
        if custom_in_message(statement) {
            return true;
        }
    }
    false
}

#[tactic(auto, using(crate::proofs::CustomParts::nested_custom))]
#[cycle(message)]
fn custom_in_message(statement: &MessageStatement) -> bool
    ensures { result ≡ part.custom_in_message (message_statement_syntax statement.now) }
{
    match statement {
        MessageStatement::Field(field) => field.has_custom(),
        MessageStatement::OneOf(oneof) => any_custom(&oneof.body),
        MessageStatement::Extend(extend) => any_custom(&extend.fields),
        MessageStatement::Message(message) => custom_in_body(&message.body),
        MessageStatement::Enumeration(inner) => any_custom(&inner.body),
        MessageStatement::Option(statement) => statement.has_custom(),
        MessageStatement::Reserved(_) | MessageStatement::Extensions(_) => false,
    }
}

impl MaySetCustom for FileStatement {
    ghost custom = { λ s. part.custom_in_file (view.statement_syntax s) };

    #[tactic(auto, using(crate::proofs::CustomParts::fields_any, crate::proofs::CustomParts::enums_any, crate::proofs::CustomParts::services_any, crate::proofs::CustomParts::message_custom))]
    fn has_custom(&self) -> bool {
        match self {
            FileStatement::Import(_) | FileStatement::Package(_) => false,
            FileStatement::Option(statement) => statement.has_custom(),
            FileStatement::Message(message) => custom_in_body(&message.body),
            FileStatement::Enumeration(enumeration) => any_custom(&enumeration.body),
            FileStatement::Extend(extend) => any_custom(&extend.fields),
            FileStatement::Service(service) => any_custom(&service.body),
        }
    }
}
