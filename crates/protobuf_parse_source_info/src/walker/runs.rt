//! Runs of tokens.

ghost use Rattle.std.specs.Prelude.{◌≡◌, ◌+◌, ◌<◌, ◌^◌, length, OnOk};
ghost use Rattle.protobuf_parse_source_info.specs.Walks as walks;
ghost use Rattle.protobuf_parse_source_info.specs.Parts as parts;
ghost use Rattle.protobuf_parse_source_info.specs.InnerViews as views;
ghost use Rattle.protobuf_parse_source_info.specs.InnerViews.{doing, Takes};

use crate::walker::Walker;
use std::alloc::AllocError;

impl<'t, 'a> Walker<'t, 'a> {
    /// How many tokens are left.
    fn left(&self) -> usize
        ensures { result ≡ length (doing self.now).ahead.tokens }
    {
        self.tokens.len().saturating_sub(self.taken)
    }

    /// Takes the next token if it is this one.
    pub fn take_if(&mut self, word: &str)
        ensures { Takes (walks.if_next word.now walks.one walks.nothing)
            (doing self.old) (doing self.new) }
    {
        if self.sees(word) {
            self.take();
        }
    }

    /// Takes the next token, an empty statement.
    fn take_empty(&mut self) -> Result<(), AllocError>
        ensures { OnOk result (Takes views.one_empty (doing self.old) (doing self.new)) }
    {
        if let Some(token) = self.next() {
            let gap = self.gap();
            self.skipped.push(gap)?;
            self.last = token.to;
            self.taken += 1;
        }
        Ok(())
    }

    /// Takes the empty statements that come next.
    pub fn empties(&mut self) -> Result<(), AllocError>
        ensures { OnOk result (Takes walks.empties (doing self.old) (doing self.new)) }
    {
        'empties: while self.sees(";") {
            self.take_empty()?;
        }
        Ok(())
    }

    /// Takes dots, each with the identifier behind it.
    fn take_dots(&mut self)
        ensures { Takes walks.dots (doing self.old) (doing self.new) }
    {
        'dots: while self.sees(".") {
            self.take();
            self.take();
        }
    }

    /// Takes the tokens of a name.
    pub fn name(&mut self)
        ensures { Takes parts.name (doing self.old) (doing self.new) }
    {
        self.take_if(".");
        self.take();
        self.take_dots();
    }

    /// Takes the tokens before the next `,`, `;` or `]` that stands in no further brackets.
    pub fn take_item(&mut self)
        ensures { Takes walks.up_to_end (doing self.old) (doing self.new) }
    {
        let mut depth = 0;
        let _left = self.left();
        'tokens: while let Some(token) = self.next() {
            if depth == 0 && ends_item(token.text) {
                return;
            }
            self.take();
            depth = deeper(depth, token.text);
        }
    }
}

/// Whether a token with this text ends an item of a list, or a statement.
fn ends_item(text: &str) -> bool
    ensures { result ≡ walks.ends_item text.now }
{
    matches!(text, "," | ";" | "]")
}

/// How many brackets are open behind a token with this text.
fn deeper(depth: usize, text: &str) -> usize
    requires { depth + 1 < 2 ^ 64 }
    ensures { result ≡ walks.deeper depth text.now }
{
    match text {
        "{" | "[" => depth + 1,
        "}" | "]" => depth.saturating_sub(1),
        _ => depth,
    }
}
