//! Fields and groups.

ghost use Rattle.std.specs.Prelude.{◌≡◌, OnOk, map, option_map, None};
ghost use Rattle.protobuf_parse_syntax.specs.Trees as view;
ghost use Rattle.protobuf_parse_syntax.specs.InnerViews.{group_syntax};
ghost use Rattle.protobuf_parse_source_info.specs.Parts as parts;
ghost use Rattle.protobuf_parse_source_info.specs.Fields as fields;
ghost use Rattle.protobuf_parse_source_info.specs.Declarations as declarations;
ghost use Rattle.protobuf_parse_source_info.specs.InnerViews.{doing, Takes, range_view, mark_view};
ghost use Rattle.protobuf_parse_source_info.specs.InnerViews.{owner_view};

use crate::counts::{FieldCounts, field_counted};
use crate::found::{Mark, Range};
use crate::walker::Walker;
use protobuf_parse_syntax::{Field, FieldStatement, Group, Label};
use std::alloc::AllocError;

/// Where the fields of a body and the messages of its groups go: a path, and the numbers of both
/// lists at it.
#[derive(Clone, Copy)]
pub struct Owner<'p> {
    pub path: &'p [u32],
    pub fields: u32,
    pub messages: u32,
}

impl<'p> Owner<'p> {
    /// The fields of a message.
    pub fn message(path: &'p [u32]) -> Owner<'p>
        ensures { owner_view result ≡ fields.of_message path.now }
    {
        Owner {
            path,
            fields: 2,
            messages: 3,
        }
    }

    /// The extensions that stand in a message.
    pub fn extensions_in(path: &'p [u32]) -> Owner<'p>
        ensures { owner_view result ≡ declarations.extensions_in path.now }
    {
        Owner {
            path,
            fields: 6,
            messages: 3,
        }
    }

    /// The extensions of a file.
    pub fn file(path: &'p [u32]) -> Owner<'p>
        ensures { owner_view result ≡ record { path = path.now; fields = 7; messages = 4 } }
    {
        Owner {
            path,
            fields: 7,
            messages: 4,
        }
    }
}

impl<'t, 'a> Walker<'t, 'a> {
    /// The extendee of an extension.
    fn extendee(&mut self, path: &[u32], extendee: Option<Range>) -> Result<(), AllocError>
        ensures { OnOk result (Takes (fields.extendee path.now (option_map range_view extendee))
            (doing self.old) (doing self.new)) }
    {
        match extendee {
            Some(range) => self.again(path, 2, range),
            None => Ok(()),
        }
    }

    fn label(&mut self, path: &[u32], label: Option<Label>) -> Result<(), AllocError>
        ensures { OnOk result (Takes (fields.label path.now label) (doing self.old)
            (doing self.new)) }
    {
        match label {
            Some(_) => self.token(path, 4),
            None => Ok(()),
        }
    }

    /// `ident "=" int`
    fn named_number(&mut self, path: &[u32]) -> Result<(), AllocError>
        ensures { OnOk result (Takes (fields.named_number path.now) (doing self.old)
            (doing self.new)) }
    {
        self.token(path, 1)?;
        self.take();
        self.token(path, 3)?;
        Ok(())
    }

    /// `[ label ] type ident "=" int [ options ] ";"`, by its path.
    fn field_at(
        &mut self,
        path: &[u32],
        extendee: Option<Range>,
        field: &'a Field,
    ) -> Result<(), AllocError>
        ensures { OnOk result (Takes (fields.field_parts path.now (option_map range_view extendee)
            (view.field_syntax field.now)) (doing self.old) (doing self.new)) }
    {
        self.extendee(path, extendee)?;
        self.label(path, field.label)?;
        self.type_(path, &field.type_)?;
        self.named_number(path)?;
        self.options(path, true, &field.options)?;
        self.take();
        Ok(())
    }

    fn field(
        &mut self,
        owner: Owner<'_>,
        index: u32,
        extendee: Option<Range>,
        field: &'a Field,
    ) -> Result<(), AllocError>
        ensures { OnOk result (Takes (fields.field_walk
            (parts.nth owner.entry.path.now owner.entry.fields index)
            (option_map range_view extendee) (view.field_syntax field.now)) (doing self.old)
            (doing self.new)) }
    {
        let own = self.path(owner.path, &[owner.fields, index])?;
        let own = own.as_slice();
        let mark = self.mark()?;
        let at = self.open(mark.from, None, owner.path, &[owner.fields, index])?;
        self.field_at(own, extendee, field)?;
        self.head_ends(at, mark);
        self.close(at);
        Ok(())
    }

    // ---- groups

    /// The head of a group's message: its name, which is that of the field's type too, and `{`.
    fn group_head(&mut self, path: &[u32], message: &[u32], name: Range) -> Result<(), AllocError>
        ensures { OnOk result (Takes (fields.group_head path.now message.now (range_view name))
            (doing self.old) (doing self.new)) }
    {
        self.again(message, 1, name)?;
        self.again(path, 6, name)?;
        self.take();
        Ok(())
    }

    /// What stands behind the number of a group, which began at the mark.
    #[cycle(field)]
    fn group_message(
        &mut self,
        mark: Mark,
        path: &[u32],
        message: &[u32],
        name: Range,
        group: &'a Group,
    ) -> Result<(), AllocError>
        ensures { OnOk result (Takes (fields.group_message (mark_view mark) path.now message.now
            (range_view name) (fields.field_body (fields.of_message message.now) None
            fields.no_fields (group_syntax group.now).fields)) (doing self.old) (doing self.new)) }
    {
        let at = self.open(mark.from, None, message, &[])?;
        self.group_head(path, message, name)?;
        self.head_ends(at, mark);
        self.fields(Owner::message(message), None, NO_FIELDS, &group.fields)?;
        self.take();
        self.close(at);
        Ok(())
    }

    /// What stands before the name of a group.
    fn group_front(
        &mut self,
        path: &[u32],
        extendee: Option<Range>,
        label: Option<Label>,
    ) -> Result<(), AllocError>
        ensures { OnOk result (Takes (fields.group_front path.now (option_map range_view extendee)
            label) (doing self.old) (doing self.new)) }
    {
        self.extendee(path, extendee)?;
        self.label(path, label)?;
        self.token(path, 5)?;
        Ok(())
    }

    /// `[ label ] "group" ident "=" int "{" { ";" | field } "}"`
    #[cycle(field)]
    fn group(
        &mut self,
        owner: Owner<'_>,
        counts: FieldCounts,
        extendee: Option<Range>,
        group: &'a Group,
    ) -> Result<(), AllocError>
        ensures { OnOk result (Takes (fields.field_statement (owner_view owner.entry)
            (option_map range_view extendee) counts (view.group_of (group_syntax group.now)))
            (doing self.old) (doing self.new)) }
    {
        let own = self.path(owner.path, &[owner.fields, counts.fields])?;
        let own = own.as_slice();
        let message = self.path(owner.path, &[owner.messages, counts.messages])?;
        let message = message.as_slice();
        let mark = self.mark()?;
        let at = self.open(mark.from, None, owner.path, &[owner.fields, counts.fields])?;
        self.group_front(own, extendee, group.label)?;
        let from = self.front();
        self.token(own, 1)?;
        let name = Range {
            from,
            to: self.last,
        };
        self.take();
        self.token(own, 3)?;
        self.group_message(mark, own, message, name, group)?;
        self.close(at);
        Ok(())
    }

    // ---- bodies

    /// A field or a group, before which so many of the owner's stand.
    #[cycle(field)]
    pub fn field_statement(
        &mut self,
        owner: Owner<'_>,
        extendee: Option<Range>,
        counts: FieldCounts,
        statement: &'a FieldStatement,
    ) -> Result<(), AllocError>
        ensures { OnOk result (Takes (fields.field_statement (owner_view owner.entry)
            (option_map range_view extendee) counts (view.field_statement_syntax statement.now))
            (doing self.old) (doing self.new)) }
    {
        match statement {
            FieldStatement::Field(field) => self.field(owner, counts.fields, extendee, field),
            FieldStatement::Group(group) => self.group(owner, counts, extendee, group),
        }
    }

    /// The fields of a body, with empty statements between them.
    #[cycle(field)]
    pub fn fields(
        &mut self,
        owner: Owner<'_>,
        extendee: Option<Range>,
        before: FieldCounts,
        body: &'a [FieldStatement],
    ) -> Result<(), AllocError>
        ensures { OnOk result (Takes (fields.field_body (owner_view owner.entry)
            (option_map range_view extendee) before (map view.field_statement_syntax body.now))
            (doing self.old) (doing self.new)) }
    {
        let mut counts = before;
        'statements: for statement in body {
            self.empties()?;
            self.field_statement(owner, extendee, counts, statement)?;
            counts = field_counted(counts, statement);
        }
        self.empties()?;
        Ok(())
    }
}

/// Before the first field.
const NO_FIELDS: FieldCounts = FieldCounts {
    fields: 0,
    messages: 0,
};
