//! A cursor over the tokens of a file.

ghost use Rattle.std.specs.Prelude.{◌≡◌, ◌≤◌, ◌∷◌, []};
ghost use Rattle.protobuf_parse_base.specs.DeclaredNames.{name_bytes};
ghost use Rattle.protobuf_parse_grammar.specs.Whole.{whole};
ghost use Rattle.protobuf_parse_grammar.specs.Readers.{starts};
ghost use Rattle.protobuf_parse_grammar.specs.Conditions.{mark_of};
ghost use Rattle.protobuf_parse_lexer.specs.Ahead.{behind};
ghost use Rattle.protobuf_parse_lexer.specs.AheadViews.{lies_ahead};
ghost use Rattle.protobuf_parse_lexer.specs.Classes as class;
ghost use Rattle.protobuf_parse_lexer.specs.Text.{seen_by};
ghost use Rattle.protobuf_parse_syntax.specs.ClassLaws.{lexicon};
ghost use Rattle.protobuf_parse_syntax.specs.Grammar.{place_of};
ghost use Rattle.protobuf_parse_syntax.specs.Productions as read;
ghost use Rattle.protobuf_parse_syntax.specs.Code.{left, Gives, IsNextRefused, is_end};
ghost use Rattle.protobuf_parse_syntax.specs.Code.{next_ident, floats_second};
ghost use Rattle.protobuf_parse_syntax.specs.Words.{behind_next};

use crate::parser::refusal::Refusal;
use crate::parser::same::is_same;
use protobuf_parse_base::Name;
use protobuf_parse_lexer::{ParserError, Place, TokenKind, Tokenizer, unquoted};
use std::alloc::Global;

/// The tokens that are not read yet. A call that refuses a token leaves the cursor before it.
#[derive(Clone, Copy)]
pub struct Cursor<'text> {
    tokens: Tokenizer<'text>,
}

impl<'text> Cursor<'text> {
    /// A cursor before the first token.
    pub fn new(tokens: Tokenizer<'text>) -> Cursor<'text>
        ensures { left result ≡ whole (lies_ahead tokens.entry).tokens
            (lies_ahead tokens.entry).end }
    {
        Cursor { tokens }
    }

    /// Goes past the next token, if one is left.
    fn advance(&mut self)
        ensures { lies_ahead self.new.tokens ≡ behind (lies_ahead self.old.tokens) }
    {
        self.tokens.advance();
    }

    /// Whether no token is left.
    #[tactic(auto, using(crate::proofs::Left::ends_none))]
    pub fn is_empty(&self) -> bool
        ensures { result ≡ is_end (left self.now) }
    {
        self.tokens.next.is_none()
    }

    /// The place of the next token, or of the end of the text.
    pub fn place(&self) -> Place
        ensures { result ≡ mark_of place_of (left self.now) }
    {
        self.tokens.place()
    }

    /// Whether this symbol comes next.
    #[tactic(auto, unfolding(protobuf_parse_grammar::specs::Readers::starts))]
    pub fn sees_symbol(&self, symbol: char) -> bool
        ensures { result ≡ starts lexicon (class.symbol symbol ∷ []) (left self.now) }
    {
        match self.tokens.next {
            Some(token) => token.is_symbol(symbol),
            None => false,
        }
    }

    /// Reads this symbol. S8 at any other token.
    pub fn symbol(&mut self, symbol: char) -> Result<(), Refusal>
        ensures { Gives (λ u. tt) result (left self.new)
            ((read.symbol symbol).run (left self.old)) }
    {
        self.symbol_or(symbol, Refusal::Fault(ParserError::IncorrectInput))
    }

    /// Reads this symbol. The refusal at any other token.
    pub fn symbol_or(&mut self, symbol: char, refusal: Refusal) -> Result<(), Refusal>
        requires { IsNextRefused refusal }
        ensures { Gives (λ u. tt) result (left self.new)
            ((read.symbol symbol).run (left self.old)) }
    {
        let next = self.tokens.next;
        match next {
            Some(token) if token.is_symbol(symbol) => {
                self.advance();
                Ok(())
            }
            _ => Err(refusal),
        }
    }

    /// Whether this word comes next.
    #[tactic(auto, unfolding(protobuf_parse_grammar::specs::Readers::starts))]
    pub fn sees_word(&self, word: &str) -> bool
        ensures { result ≡ starts lexicon (class.word word.now ∷ []) (left self.now) }
    {
        match self.tokens.next {
            Some(token) => is_same(token.text, word) && token.is_ident(),
            None => false,
        }
    }

    /// Reads this word. S8 at any other token.
    pub fn word(&mut self, word: &str) -> Result<(), Refusal>
        ensures { Gives (λ u. tt) result (left self.new)
            ((read.word word.now).run (left self.old)) }
    {
        let next = self.tokens.next;
        match next {
            Some(token) if is_same(token.text, word) && token.is_ident() => {
                self.advance();
                Ok(())
            }
            _ => Err(Refusal::Fault(ParserError::IncorrectInput)),
        }
    }

    /// Whether an identifier, which may be any word, comes next.
    #[tactic(auto, unfolding(protobuf_parse_grammar::specs::Readers::starts))]
    pub fn sees_ident(&self) -> bool
        ensures { result ≡ starts lexicon (class.ident [] ∷ []) (left self.now) }
    {
        match self.tokens.next {
            Some(token) => token.is_ident(),
            None => false,
        }
    }

    /// The identifier that comes next.
    pub fn next_word(&self) -> Option<&'text str>
        ensures { seen_by (λ z. z.now) result ≡ next_ident (left self.now) }
    {
        match self.tokens.next {
            Some(token) if token.is_ident() => Some(token.text),
            _ => None,
        }
    }

    /// Reads any token, if one is left.
    pub fn skip(&mut self)
        ensures { left self.new ≡ behind_next (left self.old) }
    {
        self.advance();
    }

    /// Reads an identifier, which may be any word. S8 at any other token.
    pub fn ident_text(&mut self) -> Result<&'text str, Refusal>
        ensures { Gives (λ z. z.now) result (left self.new) (read.ident.run (left self.old)) }
    {
        let next = self.tokens.next;
        match next {
            Some(token) if token.is_ident() => {
                self.advance();
                Ok(token.text)
            }
            _ => Err(Refusal::Fault(ParserError::IncorrectInput)),
        }
    }

    /// Reads the name of what is declared, an identifier, which may be any word. S8 at any other
    /// token.
    pub fn ident_name(&mut self, alloc: Global) -> Result<Name, Refusal>
        ensures { Gives name_bytes result (left self.new) (read.ident.run (left self.old)) }
    {
        let text = self.ident_text()?;
        Ok(Name::new(alloc, text)?)
    }

    /// Whether an integer comes next.
    #[tactic(auto, unfolding(protobuf_parse_grammar::specs::Readers::starts))]
    pub fn sees_integer(&self) -> bool
        ensures { result ≡ starts lexicon (class.integer ∷ []) (left self.now) }
    {
        match self.tokens.next {
            Some(token) => matches!(token.kind, TokenKind::Integer(_)),
            None => false,
        }
    }

    /// Reads an integer. S8 at any other token.
    pub fn number(&mut self) -> Result<u64, Refusal>
        ensures { Gives (λ n. n) result (left self.new) (read.number.run (left self.old)) }
    {
        match self.tokens.next {
            Some(token) => match token.kind {
                TokenKind::Integer(number) => {
                    self.advance();
                    Ok(number)
                }
                _ => Err(Refusal::Fault(ParserError::IncorrectInput)),
            },
            None => Err(Refusal::Fault(ParserError::IncorrectInput)),
        }
    }

    /// Reads an integer of at most the limit. S5 at a larger one, S8 at any other token.
    pub fn number_up_to(&mut self, limit: u64) -> Result<u64, Refusal>
        requires { 2147483647 ≤ limit }
        ensures { Gives (λ n. n) result (left self.new)
            ((read.number_up_to limit).run (left self.old)) }
    {
        match self.tokens.next {
            Some(token) => match token.kind {
                TokenKind::Integer(number) => {
                    if number > limit {
                        return Err(Refusal::Fault(ParserError::IntegerOverflow));
                    }
                    self.advance();
                    Ok(number)
                }
                _ => Err(Refusal::Fault(ParserError::IncorrectInput)),
            },
            None => Err(Refusal::Fault(ParserError::IncorrectInput)),
        }
    }

    /// Reads a field's number or a range's end, from 0 to 2147483647. S5 at a larger integer, S8 at
    /// any other token.
    #[tactic(auto, unfolding(crate::specs::Productions::field_number), using(crate::specs::Code::fails_first))]
    pub fn field_number(&mut self) -> Result<i32, Refusal>
        ensures { Gives (λ n. n) result (left self.new) (read.field_number.run (left self.old)) }
    {
        let number = self.number_up_to(2147483647)?;
        Ok(number as i32)
    }

    /// Whether a string comes next.
    #[tactic(auto, unfolding(protobuf_parse_grammar::specs::Readers::starts))]
    pub fn sees_str(&self) -> bool
        ensures { result ≡ starts lexicon (class.text ∷ []) (left self.now) }
    {
        match self.tokens.next {
            Some(token) => token.is_str(),
            None => false,
        }
    }

    /// Reads a string token, of which this is the text between the quotes. S8 at any other token.
    pub fn piece(&mut self) -> Result<&'text str, Refusal>
        ensures { Gives (λ z. z.now) result (left self.new) (read.piece.run (left self.old)) }
    {
        let next = self.tokens.next;
        match next {
            Some(token) if token.is_str() => {
                self.advance();
                Ok(unquoted(token.text))
            }
            _ => Err(Refusal::Fault(ParserError::IncorrectInput)),
        }
    }

    /// Whether a float comes next.
    #[tactic(auto, unfolding(protobuf_parse_grammar::specs::Readers::starts))]
    pub fn sees_float(&self) -> bool
        ensures { result ≡ starts lexicon (class.float ∷ []) (left self.now) }
    {
        match self.tokens.next {
            Some(token) => matches!(token.kind, TokenKind::Float),
            None => false,
        }
    }

    /// Whether a float, or `inf` or `nan`, comes second.
    pub fn sees_float_second(&self) -> bool
        ensures { result ≡ floats_second (left self.now) }
    {
        let mut second = *self;
        second.advance();
        match second.tokens.next {
            Some(token) => match token.kind {
                TokenKind::Float => true,
                TokenKind::Ident => matches!(token.text, "inf" | "nan"),
                _ => false,
            },
            None => false,
        }
    }
}
