//! The identifiers of a path, one by one.
ghost use Rattle.std.specs.Prelude.{◌≡◌};
ghost use Rattle.std.specs.Iterator.{YieldsFirstBy, item_count};

use super::ident::ProtobufIdentRef;
use super::relative::ProtobufRelPathRef;

/// The identifiers of a relative path, in order.
#[derive(Clone, Copy, Debug)]
pub struct Components<'a> {
    rest: ProtobufRelPathRef<'a>,
}

impl<'a> Components<'a> {
    ghost use Rattle.protobuf_parse_base.specs.NameViews.{rel_ref_idents, components_left};

    /// The identifiers of this path.
    pub fn new(path: ProtobufRelPathRef<'a>) -> Self
        ensures { components_left result ≡ rel_ref_idents path.entry }
    {
        Components { rest: path }
    }
}

impl<'a> Iterator for Components<'a> {
    ghost use Rattle.protobuf_parse_base.specs.NameViews.{ident_ref_text, components_left};

    type Item = ProtobufIdentRef<'a>;

    ghost next_gives = { YieldsFirstBy ident_ref_text components_left };

    ghost remaining = { item_count components_left };

    fn next(&mut self) -> Option<ProtobufIdentRef<'a>> {
        let (first, rest) = self.rest.split_first_rem()?;
        self.rest = rest;
        Some(first)
    }
}
