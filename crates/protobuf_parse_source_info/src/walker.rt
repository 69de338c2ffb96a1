//! A walk over the tokens of a text, directed by its tree. Each function takes the tokens of one
//! part, and finds its locations.

mod declarations;
mod fields;
mod files;
mod parts;
mod runs;

ghost use Rattle.std.specs.Prelude.{◌≡◌, length, map, option_map, OnOk, IfOk, ◌++◌};
ghost use Rattle.protobuf_parse_source_info.specs.Walks as walks;
ghost use Rattle.protobuf_parse_source_info.specs.Parts as parts;
ghost use Rattle.protobuf_parse_source_info.specs.InnerViews as views;
ghost use Rattle.protobuf_parse_source_info.specs.InnerViews.{doing, Takes, opened, headed};
ghost use Rattle.protobuf_parse_source_info.specs.InnerViews.{closed, spot, mark_view, range_view};
ghost use Rattle.protobuf_parse_source_info.specs.InnerViews.{found_view};
ghost use Rattle.protobuf_parse_source_info.specs.Views.{name_seen};

use crate::found::{Between, Found, Gaps, Mark, Range};
use crate::token::{Point, Token};
pub use files::found_in;
use protobuf_parse_syntax::ProtobufOptionName;
use std::alloc::{AllocError, Global};

/// What a walk has found and has left.
#[derive(Drop)]
pub struct Walker<'t, 'a> {
    alloc: Global,
    tokens: &'t [Token<'t>],
    /// How many of them are taken.
    taken: usize,
    /// The gaps before the empty statements that stand directly before the next token.
    skipped: Vec<Between>,
    /// Where the token before the next one ends.
    last: Point,
    /// Where the text ends.
    end: Point,
    found: Vec<Found<'a>>,
}

impl<'t, 'a> Walker<'t, 'a> {
    // ---- tokens

    /// The next token.
    fn next(&self) -> Option<Token<'t>>
        ensures { option_map spot result ≡ walks.first (doing self.now).ahead.tokens }
    {
        if self.taken < self.tokens.len() {
            Some(self.tokens[self.taken])
        } else {
            None
        }
    }

    /// Where the next token begins, or the text ends.
    fn front(&self) -> Point
        ensures { result ≡ walks.front (doing self.now).ahead }
    {
        match self.next() {
            Some(token) => token.from,
            None => self.end,
        }
    }

    /// The gap before the next token.
    fn gap(&self) -> Between
        ensures { result ≡ walks.gap (doing self.now).ahead }
    {
        Between {
            from: self.last.byte,
            to: self.front().byte,
        }
    }

    /// Whether the next token has this text.
    fn sees(&self, word: &str) -> bool
        ensures { result ≡ walks.sees word.now (doing self.now).ahead }
    {
        match self.next() {
            Some(token) => token.text == word,
            None => false,
        }
    }

    /// Takes the next token.
    fn take(&mut self)
        ensures { Takes walks.one (doing self.old) (doing self.new) }
    {
        if let Some(token) = self.next() {
            self.skipped.clear();
            self.last = token.to;
            self.taken += 1;
        }
    }

    // ---- locations

    /// Where a location begins with the next token.
    fn mark(&self) -> Result<Mark, AllocError>
        ensures { IfOk result (λ m. mark_view m ≡ walks.mark (doing self.now).ahead) }
    {
        Ok(Mark {
            skipped: Vec::from_slice(self.alloc, self.skipped.as_slice())?,
            before: self.gap(),
            from: self.front(),
        })
    }

    /// Begins a location at a point. Its path is both parts, one behind the other. Gives the index
    /// with which it is ended.
    fn open(
        &mut self,
        from: Point,
        option: Option<&'a ProtobufOptionName>,
        path: &[u32],
        more: &[u32],
    ) -> Result<usize, AllocError>
        ensures opened { OnOk result (doing self.new ≡ opened from
            (option_map name_seen option.entry) (path.now ++ more.now) (doing self.old)) }
        ensures at { IfOk result (λ n. n ≡ length (doing self.old).found) }
    {
        let at = self.found.len();
        let mut path = Vec::from_slice(self.alloc, path)?;
        path.extend_from_slice(more)?;
        self.found.push(Found {
            path,
            from,
            to: from,
            option,
            gaps: None,
        })?;
        Ok(at)
    }

    /// Begins a location with the next token.
    fn begin(&mut self, path: &[u32], more: &[u32]) -> Result<usize, AllocError>
        ensures opened { OnOk result (doing self.new
            ≡ opened (walks.front (doing self.old).ahead) None (path.now ++ more.now)
            (doing self.old)) }
        ensures at { IfOk result (λ n. n ≡ length (doing self.old).found) }
    {
        let from = self.front();
        self.open(from, None, path, more)
    }

    /// The head of this declaration, which began there, ends before the next token.
    fn head_ends(&mut self, at: usize, mark: Mark)
        ensures { doing self.new ≡ headed at (mark_view mark) (doing self.old) }
    {
        let gaps = Gaps {
            skipped: mark.skipped,
            before: mark.before,
            behind: self.gap(),
        };
        put_gaps(&mut self.found, at, gaps);
    }

    /// This location ends before the next token.
    fn close(&mut self, at: usize)
        ensures { doing self.new ≡ closed at (doing self.old) }
    {
        put_end(&mut self.found, at, self.last);
    }

    /// A part that is one token.
    fn token(&mut self, path: &[u32], number: u32) -> Result<(), AllocError>
        ensures { OnOk result (Takes (walks.part (parts.at path.now number) walks.one)
            (doing self.old) (doing self.new)) }
    {
        let at = self.begin(path, &[number])?;
        self.take();
        self.close(at);
        Ok(())
    }

    /// Another location of tokens that were taken before.
    fn again(&mut self, path: &[u32], number: u32, range: Range) -> Result<(), AllocError>
        ensures { OnOk result (Takes (walks.again (parts.at path.now number) (range_view range))
            (doing self.old) (doing self.new)) }
    {
        let at = self.open(range.from, None, path, &[number])?;
        put_end(&mut self.found, at, range.to);
        Ok(())
    }

    /// The path that goes on so.
    fn path(&self, path: &[u32], more: &[u32]) -> Result<Vec<u32>, AllocError>
        ensures { IfOk result (λ v. v.items ≡ path.now ++ more.now) }
    {
        let mut longer = Vec::from_slice(self.alloc, path)?;
        longer.extend_from_slice(more)?;
        Ok(longer)
    }
}

/// The gaps of this declaration.
fn put_gaps(found: &mut Vec<Found<'_>>, at: usize, gaps: Gaps)
    ensures { map found_view found.new.items
        ≡ views.changed (views.with_gaps (views.gaps_view gaps)) at
        (map found_view found.old.items) }
{
    if at < found.len() {
        found[at].gaps = Some(gaps);
    }
}

/// The end of this location.
fn put_end(found: &mut Vec<Found<'_>>, at: usize, to: Point)
    ensures { map found_view found.new.items
        ≡ views.changed (views.with_end to) at (map found_view found.old.items) }
{
    if at < found.len() {
        found[at].to = to;
    }
}
