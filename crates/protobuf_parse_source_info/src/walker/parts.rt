//! Options, types, ranges and what is reserved.

ghost use Rattle.std.specs.Prelude.{◌≡◌, OnOk, map};
ghost use Rattle.std.specs.String.{string_bytes};
ghost use Rattle.protobuf_parse_syntax.specs.Trees as view;
ghost use Rattle.protobuf_parse_source_info.specs.Walks as walks;
ghost use Rattle.protobuf_parse_source_info.specs.Parts as parts;
ghost use Rattle.protobuf_parse_source_info.specs.InnerViews.{doing, Takes, range_view};

use crate::counts::next;
use crate::found::Range;
use crate::walker::Walker;
use protobuf_parse_syntax::{
    FieldNumberRange, OptionStatement, ProtobufOption, ProtobufOptionName, Reserved, Type,
};
use std::alloc::AllocError;

impl<'t, 'a> Walker<'t, 'a> {
    /// The word, the name and `{`.
    pub fn head(&mut self, path: &[u32]) -> Result<(), AllocError>
        ensures { OnOk result (Takes (parts.head path.now) (doing self.old) (doing self.new)) }
    {
        self.take();
        self.token(path, 1)?;
        self.take();
        Ok(())
    }

    // ---- options

    /// `"option" optname "=" constant ";"`, by the owner and the number of its options.
    pub fn option(
        &mut self,
        path: &[u32],
        number: u32,
        statement: &'a OptionStatement,
    ) -> Result<(), AllocError>
        ensures { OnOk result (Takes (parts.option_statement (parts.at path.now number)
            (view.option_statement_syntax statement.now)) (doing self.old) (doing self.new)) }
    {
        let all = self.begin(path, &[number])?;
        self.option_of(path, number, statement)?;
        self.close(all);
        Ok(())
    }

    /// The option of such a statement, without the options message.
    fn option_of(
        &mut self,
        path: &[u32],
        number: u32,
        statement: &'a OptionStatement,
    ) -> Result<(), AllocError>
        ensures { OnOk result (Takes (parts.option_declared (parts.at path.now number)
            (view.option_statement_syntax statement.now)) (doing self.old) (doing self.new)) }
    {
        let mark = self.mark()?;
        let at = self.open(mark.from, Some(&statement.option.name), path, &[number])?;
        self.take();
        self.take_item();
        self.take();
        self.head_ends(at, mark);
        self.close(at);
        Ok(())
    }

    /// `optname "=" constant`, in brackets.
    fn option_item(
        &mut self,
        path: &[u32],
        number: u32,
        option: &'a ProtobufOption,
    ) -> Result<(), AllocError>
        ensures { OnOk result (Takes (parts.option_item (parts.at path.now number)
            (view.option_syntax option.now)) (doing self.old) (doing self.new)) }
    {
        let from = self.front();
        let at = self.open(from, Some(&option.name), path, &[number])?;
        self.take_item();
        self.close(at);
        Ok(())
    }

    /// A part that is all before the next `,`, `;` or `]`.
    fn rest_of_item(&mut self, path: &[u32], number: u32) -> Result<(), AllocError>
        ensures { OnOk result (Takes (walks.part (parts.at path.now number) walks.up_to_end)
            (doing self.old) (doing self.new)) }
    {
        let at = self.begin(path, &[number])?;
        self.take_item();
        self.close(at);
        Ok(())
    }

    fn default_item(&mut self, path: &[u32]) -> Result<(), AllocError>
        ensures { OnOk result (Takes (parts.default_item path.now) (doing self.old)
            (doing self.new)) }
    {
        self.take();
        self.take();
        self.rest_of_item(path, 7)?;
        Ok(())
    }

    fn json_name_item(&mut self, path: &[u32]) -> Result<(), AllocError>
        ensures { OnOk result (Takes (parts.json_name_item path.now) (doing self.old)
            (doing self.new)) }
    {
        let at = self.begin(path, &[10])?;
        self.take();
        self.take();
        self.rest_of_item(path, 10)?;
        self.close(at);
        Ok(())
    }

    /// An option of a field.
    fn field_item(&mut self, path: &[u32], option: &'a ProtobufOption) -> Result<(), AllocError>
        ensures { OnOk result (Takes (parts.field_item path.now (view.option_syntax option.now))
            (doing self.old) (doing self.new)) }
    {
        if is_word(&option.name, "default") {
            return self.default_item(path);
        }
        if is_word(&option.name, "json_name") {
            return self.json_name_item(path);
        }
        self.option_item(path, 8, option)
    }

    /// An option of a field or of an enum's value.
    fn item(
        &mut self,
        path: &[u32],
        is_field: bool,
        option: &'a ProtobufOption,
    ) -> Result<(), AllocError>
        ensures { OnOk result (Takes (parts.item path.now is_field
            (view.option_syntax option.now)) (doing self.old) (doing self.new)) }
    {
        if is_field {
            self.field_item(path, option)
        } else {
            self.option_item(path, 3, option)
        }
    }

    fn items(
        &mut self,
        path: &[u32],
        is_field: bool,
        options: &'a [ProtobufOption],
    ) -> Result<(), AllocError>
        ensures { OnOk result (Takes (parts.items path.now is_field
            (map view.option_syntax options.now)) (doing self.old) (doing self.new)) }
    {
        'items: for option in options {
            self.item(path, is_field, option)?;
            self.take();
        }
        Ok(())
    }

    /// `"[" item { "," item } "]"` of a field or of an enum's value.
    fn brackets(
        &mut self,
        path: &[u32],
        is_field: bool,
        options: &'a [ProtobufOption],
    ) -> Result<(), AllocError>
        ensures { OnOk result (Takes (parts.brackets path.now is_field
            (map view.option_syntax options.now)) (doing self.old) (doing self.new)) }
    {
        let at = self.begin(path, &[options_number(is_field)])?;
        self.take();
        self.items(path, is_field, options)?;
        self.close(at);
        Ok(())
    }

    /// `[ "[" item { "," item } "]" ]` of a field or of an enum's value.
    pub fn options(
        &mut self,
        path: &[u32],
        is_field: bool,
        options: &'a [ProtobufOption],
    ) -> Result<(), AllocError>
        ensures { OnOk result (Takes (parts.options path.now is_field
            (map view.option_syntax options.now)) (doing self.old) (doing self.new)) }
    {
        if options.is_empty() {
            return Ok(());
        }
        self.brackets(path, is_field, options)
    }

    /// The options of a method's block.
    pub fn option_block(
        &mut self,
        path: &[u32],
        number: u32,
        options: &'a [OptionStatement],
    ) -> Result<(), AllocError>
        ensures { OnOk result (Takes (parts.option_block (parts.at path.now number)
            (map view.option_statement_syntax options.now)) (doing self.old) (doing self.new)) }
    {
        'items: for option in options {
            self.empties()?;
            self.option(path, number, option)?;
        }
        self.empties()?;
        Ok(())
    }

    // ---- types

    fn type_tokens(&mut self, type_: &Type)
        ensures { Takes (parts.type_tokens (view.type_syntax type_.now)) (doing self.old)
            (doing self.new) }
    {
        match type_ {
            Type::Scalar(_) => self.take(),
            Type::Named(_) => self.name(),
            Type::Map(key, value) => {
                self.take();
                self.take();
                self.type_tokens(key);
                self.take();
                self.type_tokens(value);
                self.take();
            }
        }
    }

    pub fn type_(&mut self, path: &[u32], type_: &Type) -> Result<(), AllocError>
        ensures { OnOk result (Takes (parts.type_walk path.now (view.type_syntax type_.now))
            (doing self.old) (doing self.new)) }
    {
        let at = self.begin(path, &[type_number(type_)])?;
        self.type_tokens(type_);
        self.close(at);
        Ok(())
    }

    // ---- numbers

    /// `[ "-" ] int`
    pub fn number(&mut self, path: &[u32], number: u32) -> Result<(), AllocError>
        ensures { OnOk result (Takes (parts.number (parts.at path.now number)) (doing self.old)
            (doing self.new)) }
    {
        let at = self.begin(path, &[number])?;
        self.take_if("-");
        self.take();
        self.close(at);
        Ok(())
    }

    /// `int [ "to" ( int | "max" ) ]`
    fn range(&mut self, path: &[u32], number: u32, index: u32) -> Result<(), AllocError>
        ensures { OnOk result (Takes (parts.range (parts.nth path.now number index))
            (doing self.old) (doing self.new)) }
    {
        let own = self.path(path, &[number, index])?;
        let own = own.as_slice();
        let at = self.begin(path, &[number, index])?;
        let from = self.front();
        self.token(own, 1)?;
        let start = Range {
            from,
            to: self.last,
        };
        self.range_end(own, start)?;
        self.close(at);
        Ok(())
    }

    /// `[ "to" ( int | "max" ) ]` behind the start of a range.
    fn range_end(&mut self, path: &[u32], start: Range) -> Result<(), AllocError>
        ensures { OnOk result (Takes (parts.range_end path.now (range_view start)) (doing self.old)
            (doing self.new)) }
    {
        if self.sees("to") {
            self.take();
            self.token(path, 2)?;
            return Ok(());
        }
        self.again(path, 2, start)?;
        Ok(())
    }

    /// `range { "," range }`
    pub fn ranges(
        &mut self,
        path: &[u32],
        number: u32,
        first: u32,
        ranges: &[FieldNumberRange],
    ) -> Result<(), AllocError>
        ensures { OnOk result (Takes (parts.ranges path.now number first
            (map view.range_syntax ranges.now)) (doing self.old) (doing self.new)) }
    {
        let mut index = first;
        'items: for _range in ranges {
            self.range(path, number, index)?;
            self.take_if(",");
            index = next(index);
        }
        Ok(())
    }

    fn reserved_name(&mut self, path: &[u32], number: u32, index: u32) -> Result<(), AllocError>
        ensures { OnOk result (Takes (walks.part (parts.nth path.now number index)
            walks.up_to_end) (doing self.old) (doing self.new)) }
    {
        let at = self.begin(path, &[number, index])?;
        self.take_item();
        self.close(at);
        Ok(())
    }

    /// `str { "," str }`
    fn names(
        &mut self,
        path: &[u32],
        number: u32,
        first: u32,
        names: &[String],
    ) -> Result<(), AllocError>
        ensures { OnOk result (Takes (parts.names path.now number first
            (map string_bytes names.now)) (doing self.old) (doing self.new)) }
    {
        let mut index = first;
        'items: for _name in names {
            self.reserved_name(path, number, index)?;
            self.take_if(",");
            index = next(index);
        }
        Ok(())
    }

    /// `"reserved" range { "," range } ";"`
    fn reserved_ranges(
        &mut self,
        path: &[u32],
        number: u32,
        index: u32,
        ranges: &[FieldNumberRange],
    ) -> Result<(), AllocError>
        ensures { OnOk result (Takes (parts.reserved_ranges_walk path.now number index
            (map view.range_syntax ranges.now)) (doing self.old) (doing self.new)) }
    {
        let mark = self.mark()?;
        let at = self.open(mark.from, None, path, &[number])?;
        self.take();
        self.ranges(path, number, index, ranges)?;
        self.take();
        self.head_ends(at, mark);
        self.close(at);
        Ok(())
    }

    /// `"reserved" str { "," str } ";"`
    fn reserved_names(
        &mut self,
        path: &[u32],
        number: u32,
        index: u32,
        names: &[String],
    ) -> Result<(), AllocError>
        ensures { OnOk result (Takes (parts.reserved_names_walk path.now number index
            (map string_bytes names.now)) (doing self.old) (doing self.new)) }
    {
        let mark = self.mark()?;
        let at = self.open(mark.from, None, path, &[number])?;
        self.take();
        self.names(path, number, index, names)?;
        self.take();
        self.head_ends(at, mark);
        self.close(at);
        Ok(())
    }

    /// A `reserved` statement, by the numbers of ranges and of names, and by how many of each stand
    /// before it.
    pub fn reserved(
        &mut self,
        path: &[u32],
        numbers: (u32, u32),
        indexes: (u32, u32),
        reserved: &Reserved,
    ) -> Result<(), AllocError>
        ensures { OnOk result (Takes (parts.reserved path.now numbers.0 numbers.1 indexes.0
            indexes.1 (view.reserved_syntax reserved.now)) (doing self.old) (doing self.new)) }
    {
        match reserved {
            Reserved::Ranges(ranges) => self.reserved_ranges(path, numbers.0, indexes.0, ranges),
            Reserved::Names(names) => self.reserved_names(path, numbers.1, indexes.1, names),
        }
    }
}

/// Whether an option's name is this word.
fn is_word(name: &ProtobufOptionName, word: &str) -> bool
    ensures { result ≡ parts.is_word word.now (view.option_name_syntax name.now) }
{
    match name {
        ProtobufOptionName::Builtin(name) => name.as_str() == word,
        ProtobufOptionName::Custom(_) => false,
    }
}

/// The number of the options of a field, or of an enum's value.
fn options_number(is_field: bool) -> u32
    ensures { result ≡ parts.options_number is_field }
{
    if is_field { 8 } else { 3 }
}

/// The number of a field's type in its descriptor: `type` or `type_name`.
fn type_number(type_: &Type) -> u32
    ensures { result ≡ parts.type_number (view.type_syntax type_.now) }
{
    match type_ {
        Type::Scalar(_) => 5,
        Type::Map(_, _) | Type::Named(_) => 6,
    }
}
