//! Tokens that are cut one by one.

ghost use Rattle.std.specs.Prelude.{◌≡◌, ◌≤◌, ◌<◌, ◌+◌, ◌-◌, ◌^◌, ◌⊎◌, ℕ, length, true, false};
ghost use Rattle.std.specs.Prelude.{IfOk, IfErr, IfSome, List, MatchOption, [], drop};
ghost use Rattle.protobuf_parse_lexer.specs.Text.{IsToken};
ghost use Rattle.protobuf_parse_lexer.specs.Ahead.{deepens, counted};
ghost use Rattle.protobuf_parse_lexer.specs.AheadOf.{ahead};
ghost use Rattle.protobuf_parse_lexer.specs.BehindOf.{behinds};
ghost use Rattle.protobuf_parse_lexer.specs.Classes as class;
ghost use Rattle.protobuf_parse_lexer.specs.Tokens as tokens;

use crate::error::{ParserError, ParserErrorWithLocation};
use crate::lexer::bytes::{ByteClass, byte_at, is_in};
use crate::lexer::depth::MAX_DEPTH;
use crate::lexer::front::{Piece, front_piece, ident_end, is_lone_point, is_lone_symbol};
use crate::lexer::number::short_number;
use crate::lexer::place::{blanks, located, place_behind, place_past};
use crate::lexer::token::{Place, TokenKind};
use crate::lexer::{MAX_TEXT_LEN, past_mark};

/// The place of the end where a text goes on with what is no token.
const NOWHERE: Place = Place { line: 0, col: 0 };

/// How many brackets were opened and closed.
#[derive(Clone, Copy)]
struct Brackets {
    opened: usize,
    closed: usize,
}

/// A token of which the kind is known.
#[derive(Clone, Copy)]
pub struct NextToken<'text> {
    pub kind: TokenKind,
    /// The part of the text that the token is; a string's has its quotes.
    pub text: &'text str,
    /// Where its first character stands.
    pub place: Place,
}

impl<'text> NextToken<'text> {
    /// Whether the token is an identifier.
    pub fn is_ident(&self) -> bool
        ensures { result ≡ class.is_ident_token self.now.kind }
    {
        matches!(self.kind, TokenKind::Ident)
    }

    /// Whether the token is a string.
    pub fn is_str(&self) -> bool
        ensures { result ≡ class.is_string self.now.kind }
    {
        matches!(self.kind, TokenKind::Str)
    }

    /// Whether the token is this symbol.
    // Inlined: 1.5 % of the instructions for scalars.
    #[inline(always)]
    pub fn is_symbol(&self, symbol: char) -> bool
        ensures { result ≡ class.is_symbol_token symbol self.now.kind }
    {
        match self.kind {
            TokenKind::Symbol(it) => it == symbol,
            _ => false,
        }
    }
}

/// The tokens of a text, each of which is cut when the one before it is read. They go on to the end
/// of the text, to its first fault, or to the first bracket that is the 101st inside one another.
#[derive(Clone, Copy)]
pub struct Tokenizer<'text> {
    /// The next token, if one is left.
    pub next: Option<NextToken<'text>>,
    /// The place behind it. Where none is left it is the place of the text's end, or 0:0 if the
    /// tokens don't go on to there. The column of a comment before a line feed may be any.
    after: Place,
    rest: &'text str,
    brackets: Brackets,
    ghost lines: { after.line + length rest.now ≤ 2147483648 },
    ghost cols: { after.col + length rest.now ≤ 2147483648 },
    ghost opens: { brackets.opened + length rest.now ≤ 2147483647 },
    ghost closes: { brackets.closed + length rest.now ≤ 2147483647 },
}

impl<'text> Tokenizer<'text> {
    ghost use Rattle.std.specs.Prelude.{◌↔◌};
    ghost use Rattle.protobuf_parse_lexer.specs.Ahead.{behind, ends_at, nowhere, AheadIn};
    ghost use Rattle.protobuf_parse_lexer.specs.AheadViews.{lies_ahead};
    ghost use Rattle.protobuf_parse_lexer.specs.Behind.{BehindIn, first};
    ghost use Rattle.protobuf_parse_lexer.specs.BehindTokenizers.{behinds_ahead};
    ghost use Rattle.protobuf_parse_lexer.specs.BehindViews.{LiesBehind};
    ghost use Rattle.protobuf_parse_lexer.specs.Cut.{Stream, HasTokens, IsRefused, error_place};
    ghost use Rattle.protobuf_parse_lexer.specs.Cut.{mark_len};
    ghost use Rattle.protobuf_parse_lexer.specs.Place.{start};
    ghost use Rattle.protobuf_parse_lexer.specs.Tokenizers.{LiesAhead, next_place};

    /// The tokens of a text. S20 at 1:1 if it has over 2147483647 bytes.
    pub fn new(text: &'text str) -> Result<Tokenizer<'text>, ParserErrorWithLocation>
        // What lies ahead in the text past its mark lies ahead of the tokenizer.
        ensures text { IfOk result (λ t. (s : Stream) → LiesAhead t s
            ↔ AheadIn 0 0 start (drop (mark_len text.now) text.now) s) }

        // That is the text's tokens, unless it is refused, and then their end is nowhere.
        ensures read { IfOk result (λ t. (s : Stream) → LiesAhead t s
            → (s.end ≡ nowhere) ⊎ HasTokens text.now s) }
        ensures reads { IfOk result (λ t. (s : Stream) → HasTokens text.now s → LiesAhead t s) }

        // There are no more of them than bytes.
        ensures few { IfOk result (λ t. (s : Stream) → LiesAhead t s
            → length s.tokens ≤ length text.now) }

        // So many bytes stand behind each.
        ensures bytes { IfOk result (λ t. (ns : List ℕ) → LiesBehind t ns
            ↔ BehindIn 0 0 (drop (mark_len text.now) text.now) ns) }

        // What is too long is refused.
        ensures refused { IfErr result (λ e. IsRefused text.now e.error (error_place e)) }
    {
        let start = Place { line: 1, col: 1 };
        if text.len() > MAX_TEXT_LEN {
            return Err(located(ParserError::TextTooLong, start));
        }
        let mut tokens = Tokenizer {
            next: None,
            after: start,
            rest: past_mark(text),
            brackets: Brackets {
                opened: 0,
                closed: 0,
            },
        };
        tokens.cut_next();
        Ok(tokens)
    }

    /// The place of the next token. Where none is left it is that of the text's end, or 0:0 if the
    /// tokens don't go on to there.
    pub fn place(&self) -> Place
        ensures { (s : Stream) → LiesAhead self.now s → result ≡ next_place s }
    {
        match self.next {
            Some(token) => token.place,
            None => self.after,
        }
    }

    /// How many bytes of the text stand behind the next token.
    pub fn bytes_behind(&self) -> usize
        ensures { IfSome self.now.next (λ t. (ns : List ℕ) → LiesBehind self.now ns
            → first ns ≡ Some result) }
    {
        self.rest.len()
    }

    /// Goes past the next token, if one is left.
    pub fn advance(&mut self)
        ensures tokens { (s : Stream) → LiesAhead self.old s → LiesAhead self.new (behind s) }
        ensures bytes { (ns : List ℕ) → LiesBehind self.old ns
            → LiesBehind self.new (drop 1 ns) }
    {
        self.go_past()
    }

    /// The same.
    fn go_past(&mut self)
        ensures tokens { lies_ahead self.new ≡ behind (lies_ahead self.old) }
        ensures behinds { behinds_ahead self.new ≡ drop 1 (behinds_ahead self.old) }
    {
        if self.next.is_some() {
            self.cut_next();
        }
    }

    /// Cuts the token that comes first in the rest of the text. Most are an identifier, a symbol or
    /// a short number behind blanks: they are cut without a call, by two thirds of the
    /// instructions.
    fn cut_next(&mut self)
        ensures tokens { lies_ahead self.new
            ≡ ahead self.old.brackets.opened self.old.brackets.closed self.old.after
            self.old.rest.now }
        ensures behinds { behinds_ahead self.new
            ≡ behinds self.old.brackets.opened self.old.brackets.closed self.old.rest.now }
    {
        let (place, front) = past_blanks(self.after, self.rest);
        let bytes = front.as_bytes();
        let first = byte_at(bytes, 0);
        if is_in(ByteClass::Ident, first) {
            if !is_in(ByteClass::Digit, first) {
                return self.take(place, front, ident_end(bytes), TokenKind::Ident);
            }
            if let Some((len, number)) = short_number(bytes) {
                return self.take(place, front, len, TokenKind::Integer(number));
            }
        } else if is_lone_symbol(first) || is_lone_point(bytes) {
            return self.take(place, front, 1, TokenKind::Symbol(char::from(first)));
        }
        self.cut_any()
    }

    /// The same, whatever comes first.
    // Kept apart: 4.2 % of the instructions for scalars.
    #[inline(never)]
    fn cut_any(&mut self)
        ensures tokens { lies_ahead self.new
            ≡ ahead self.old.brackets.opened self.old.brackets.closed self.old.after
            self.old.rest.now }
        ensures behinds { behinds_ahead self.new
            ≡ behinds self.old.brackets.opened self.old.brackets.closed self.old.rest.now }
    {
        let mut place = self.after;
        let mut rest = self.rest;
        'pieces: loop {
            let (start, front) = past_blanks(place, rest);
            match front_piece(front.as_bytes()) {
                Piece::End => return self.end(start, front),
                Piece::Blank(len) => {
                    let (blank, after) = front.split_at(len);
                    place = place_behind(start, blank.as_bytes(), after.as_bytes());
                    rest = after;
                }
                Piece::Token(len, kind) => return self.take(start, front, len, kind),
                Piece::Fault(_) => return self.end(NOWHERE, front),
            }
        }
    }

    /// Takes the token at the front of what is left of the text from `place` on.
    fn take(&mut self, place: Place, front: &'text str, len: usize, kind: TokenKind)
        requires token { IsToken front.now len kind }
        requires lines { place.line + length front.now ≤ 2147483648 }
        requires cols { place.col + length front.now ≤ 2147483648 }
        requires less { length front.now ≤ length self.old.rest.now }
        ensures tokens { lies_ahead self.new
            ≡ ahead self.old.brackets.opened self.old.brackets.closed place front.now }
        ensures behinds { behinds_ahead self.new
            ≡ behinds self.old.brackets.opened self.old.brackets.closed front.now }
    {
        let Some(brackets) = brackets_past(self.brackets, kind) else {
            return self.end(NOWHERE, front);
        };
        let (text, after) = front.split_at(len);
        self.next = Some(NextToken { kind, text, place });
        self.after = place_past(place, kind, text.as_bytes());
        self.rest = after;
        self.brackets = brackets;
    }

    /// No token is left.
    fn end(&mut self, after: Place, rest: &'text str)
        requires lines { after.line + length rest.now ≤ 2147483648 }
        requires cols { after.col + length rest.now ≤ 2147483648 }
        requires less { length rest.now ≤ length self.old.rest.now }
        ensures tokens { lies_ahead self.new ≡ ends_at after }
        ensures behinds { behinds_ahead self.new ≡ [] }
    {
        self.next = None;
        self.after = after;
        self.rest = rest;
    }
}

/// The counts behind the token, unless with it over 100 brackets are open.
fn brackets_past(before: Brackets, kind: TokenKind) -> Option<Brackets>
    requires opens { before.opened ≤ 2147483647 }
    requires closes { before.closed ≤ 2147483647 }
    ensures { MatchOption result
        (deepens before.opened before.closed kind ≡ true)
        (λ b. (deepens before.opened before.closed kind ≡ false)
        × (b.opened ≡ counted (tokens.is_opening kind) before.opened)
        × (b.closed ≡ counted (tokens.is_closing kind) before.closed)) }
{
    let Brackets { opened, closed } = before;
    match kind {
        TokenKind::Symbol('{' | '[' | '<') => {
            if closed + MAX_DEPTH < opened + 1 {
                return None;
            }
            Some(Brackets {
                opened: opened + 1,
                closed,
            })
        }
        TokenKind::Symbol('}' | ']' | '>') => Some(Brackets {
            opened,
            closed: closed + 1,
        }),
        _ => Some(before),
    }
}

/// The place and the text behind the blanks at the front of a text, perhaps none.
// Inlined: 0.8 % of the instructions for scalars.
#[inline(always)]
fn past_blanks(place: Place, text: &str) -> (Place, &str)
    requires line { place.line + length text.now < 2 ^ 32 }
    requires col { place.col + length text.now < 2 ^ 32 }
    ensures line { result.0.line + length result.1.now ≤ place.line + length text.now }
    ensures col { result.0.col + length result.1.now ≤ place.col + length text.now }
    ensures len { length result.1.now ≤ length text.now }
    ensures same { (o c : ℕ)
        → ahead o c result.0 result.1.now ≡ ahead o c place text.now }
    ensures behinds { (o c : ℕ) → behinds o c result.1.now ≡ behinds o c text.now }
{
    let (len, behind) = blanks(place, text.as_bytes());
    let (_, rest) = text.split_at(len);
    (behind, rest)
}
