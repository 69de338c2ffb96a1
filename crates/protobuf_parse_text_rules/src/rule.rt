//! The rules of texts.

ghost use Rattle.std.specs.Prelude.{◌≡◌};
ghost use Rattle.protobuf_parse_text_rules.specs.Codes.{code_of, is_warning};

use thiserror::Error;

/// A rule that a text breaks, though it has a tree.
#[derive(Clone, Copy, Debug, PartialEq, Eq, Error)]
pub enum TextRule {
    /// T1: a built-in option, `name`, is set already in the list or the body.
    #[error("the option is set already")]
    OptionTwice,
    /// T2: the value of an option is a list.
    #[error("the value of an option cannot be a list; set the option once for each item")]
    ListAsValue,
    /// T3: a `+` stands before a number.
    #[error("a number has no `+` before it")]
    PlusSign,
    /// T4: a message constant has the name of an extension with a dot before it.
    #[error("the name of an extension in a message constant has no dot before it")]
    DottedExtension,
    /// T5: a file has a `package` statement, of `name`, behind another one.
    #[error("a file can have one `package` statement alone")]
    PackageTwice,
    /// T6: a map, `name`, has a label.
    #[error("a map cannot have a label")]
    LabelOfMap,
    /// T7: an extension sets its name in JSON.
    #[error("an extension cannot have a `json_name`")]
    JsonNameOfExtension,
    /// T8: a message sets `map_entry` by itself.
    #[error("`map_entry` cannot be set; write `map<KEY, VALUE>` in its stead")]
    MapEntrySet,
    /// T9: an `extend`, of `name`, has no fields.
    #[error("an `extend` must have a field")]
    ExtendWithoutFields,
    /// T10: no `;` stands behind an enum's value, `name`, or an `extensions` statement.
    #[error("a `;` is missing here")]
    StatementWithoutSemicolon,
    /// T11: a method, `name`, begins with `stream`.
    #[error("a method begins with `rpc`; `stream` stands before a type")]
    MethodWithoutRpc,
    /// T12: a `;` stands alone in a oneof or in an `extend`.
    #[error("a `;` cannot stand alone in a oneof or in an `extend`")]
    SemicolonAlone,
    /// T13: a scope around a name, `name`, declares its first part, and not the rest.
    #[error("the innermost scope that has the first part of the name hasn't the rest")]
    NameResolvedInside,
    /// T14: a custom option, `name`, is set already in the list or the body.
    #[error("the custom option is set already")]
    CustomOptionTwice,
    /// T15: a message constant sets a field, `name`, twice that is not repeated.
    #[error("the field of the message constant is set already")]
    ConstantFieldTwice,
    /// T16: a message constant sets a field, `name`, to a list that is not repeated.
    #[error("a field that is not repeated cannot have a list")]
    ListForSingular,
    /// T17: a message constant sets a field, `name`, of a oneof of which another one is set.
    #[error("another field of the oneof is set already")]
    OneofMemberTwice,
    /// T18: a message constant lacks a required field, `name`.
    #[error("the message constant lacks a required field")]
    RequiredFieldMissing,
    /// T19: no `syntax` statement begins the text, which is proto2 then. A warning.
    #[error("no `syntax` statement begins the file, so it is proto2")]
    SyntaxMissing,
}

impl TextRule {
    /// Its code, which stays the same.
    pub fn code(&self) -> &'static str
        ensures { result.now ≡ code_of self.now }
    {
        match self {
            TextRule::OptionTwice => "T1",
            TextRule::ListAsValue => "T2",
            TextRule::PlusSign => "T3",
            TextRule::DottedExtension => "T4",
            TextRule::PackageTwice => "T5",
            TextRule::LabelOfMap => "T6",
            TextRule::JsonNameOfExtension => "T7",
            TextRule::MapEntrySet => "T8",
            TextRule::ExtendWithoutFields => "T9",
            TextRule::StatementWithoutSemicolon => "T10",
            TextRule::MethodWithoutRpc => "T11",
            TextRule::SemicolonAlone => "T12",
            TextRule::NameResolvedInside => "T13",
            TextRule::CustomOptionTwice => "T14",
            TextRule::ConstantFieldTwice => "T15",
            TextRule::ListForSingular => "T16",
            TextRule::OneofMemberTwice => "T17",
            TextRule::RequiredFieldMissing => "T18",
            TextRule::SyntaxMissing => "T19",
        }
    }

    /// Whether `protoc` takes such texts, and only warns of them.
    pub fn is_warning(&self) -> bool
        ensures { result ≡ is_warning self.now }
    {
        matches!(self, TextRule::SyntaxMissing)
    }
}
