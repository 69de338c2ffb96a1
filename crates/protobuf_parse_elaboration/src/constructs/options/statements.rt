//! The options that the statements of a construct set.

ghost use Rattle.std.specs.Prelude.{◌≡◌, List, [], ◌∷◌, flat_map, option_to_list, IfOk};
ghost use Rattle.protobuf_parse_syntax.specs.Trees as tree;
ghost use Rattle.protobuf_parse_syntax.specs.InnerViews.{message_statement_syntax};
ghost use Rattle.protobuf_parse_syntax.specs.Trees.{OptionSyntax};
ghost use Rattle.protobuf_parse_model.specs.BuiltinOptions.{options_seen};
ghost use Rattle.protobuf_parse_model.specs.Statements.{oneof_statement_options};
ghost use Rattle.protobuf_parse_elaboration.specs.Enums.{options_in_enum};
ghost use Rattle.protobuf_parse_elaboration.specs.FileDescriptor.{options_in_file};
ghost use Rattle.protobuf_parse_elaboration.specs.Messages.{options_in_message};
ghost use Rattle.protobuf_parse_elaboration.specs.Services.{options_in_service, statement_option};

use protobuf_parse_syntax::{
    EnumStatement, FileStatement, MessageStatement, OneOfStatement, OptionStatement,
    ProtobufOption, ServiceStatement,
};
use std::alloc::{AllocError, Global};

/// A statement that may set an option of the construct that it stands in.
pub trait MaySetOption {
    ghost options_set: { Self → List OptionSyntax };

    fn option(&self) -> Option<&ProtobufOption>
        ensures { options_seen (option_to_list result) ≡ options_set self.now };
}

impl MaySetOption for FileStatement {
    ghost options_set = { λ s. options_in_file (tree.statement_syntax s) };

    fn option(&self) -> Option<&ProtobufOption> {
        match self {
            FileStatement::Option(statement) => Some(&statement.option),
            _ => None,
        }
    }
}

impl MaySetOption for MessageStatement {
    ghost options_set = { λ s. options_in_message (message_statement_syntax s) };

    fn option(&self) -> Option<&ProtobufOption> {
        match self {
            MessageStatement::Option(statement) => Some(&statement.option),
            _ => None,
        }
    }
}

impl MaySetOption for OneOfStatement {
    ghost options_set = { λ s. oneof_statement_options (tree.oneof_statement_syntax s) };

    fn option(&self) -> Option<&ProtobufOption> {
        match self {
            OneOfStatement::Option(statement) => Some(&statement.option),
            _ => None,
        }
    }
}

impl MaySetOption for EnumStatement {
    ghost options_set = { λ s. options_in_enum (tree.enum_statement_syntax s) };

    fn option(&self) -> Option<&ProtobufOption> {
        match self {
            EnumStatement::Option(statement) => Some(&statement.option),
            _ => None,
        }
    }
}

impl MaySetOption for ServiceStatement {
    ghost options_set = { λ s. options_in_service (tree.service_statement_syntax s) };

    fn option(&self) -> Option<&ProtobufOption> {
        match self {
            ServiceStatement::Option(statement) => Some(&statement.option),
            _ => None,
        }
    }
}

impl MaySetOption for OptionStatement {
    ghost options_set = { λ s. statement_option (tree.option_statement_syntax s) ∷ [] };

    fn option(&self) -> Option<&ProtobufOption> {
        Some(&self.option)
    }
}

/// The options that these statements set, in their order.
pub fn options_in<S: MaySetOption>(
    alloc: Global,
    statements: &[S],
) -> Result<Vec<&ProtobufOption>, AllocError>
    ensures { IfOk result
        (λ v. options_seen v.items ≡ flat_map S.options_set statements.now) }
{
    let mut options = Vec::new(alloc);
    for statement in statements {
        if let Some(option) = statement.option() {
            options.push(option)?;
        }
    }
    Ok(options)
}
