//! What the grammar asks for of all that stands before a token: the version, the heads of the bodies
//! that are open, and the statement so far.

use protobuf_parse_lexer::{NextToken, Tokenizer};
use protobuf_parse_syntax::Place;
use std::alloc::{AllocError, Global};

/// A brace that is open.
#[derive(Clone, Copy)]
struct Open {
    /// Where its head begins: behind the statement or the brace before it.
    from: usize,
    /// Where it ends.
    end: usize,
    /// Whether it holds a value, behind which the statement goes on.
    is_value: bool,
}

/// The braces that are open at a place, the outermost first, and where its statement begins.
#[derive(Drop)]
struct Around {
    open: Vec<Open>,
    from: usize,
    /// Whether `=` or `:` came last, behind which a brace is a value's.
    before_value: bool,
    /// Where the first statement ends, if that tells the version.
    version_end: usize,
    is_version: bool,
}

impl Around {
    /// Goes on with a token that ends there.
    fn pass(&mut self, token: &NextToken<'_>, end: usize) -> Result<(), AllocError> {
        let in_value = self.open.last().map_or(false, |open| open.is_value);
        if token.is_symbol('{') {
            self.open.push(Open {
                from: self.from,
                end,
                is_value: in_value || self.before_value,
            })?;
            self.from = end;
        } else if token.is_symbol('}') {
            self.close(end);
        } else if token.is_symbol(';') && !in_value {
            self.from = end;
            if self.is_version {
                self.version_end = end;
                self.is_version = false;
            }
        }
        self.before_value = token.is_symbol('=') || token.is_symbol(':');
        Ok(())
    }

    /// Behind a brace that closes the innermost that is open.
    fn close(&mut self, end: usize) {
        self.from = match self.open.pop() {
            Some(open) if open.is_value => open.from,
            Some(_) | None => end,
        };
    }
}

/// The context of the token at the place, which the grammar goes on from as from all that stands
/// before it; of a place without a token, that of the text's end. The one error is that memory is
/// short.
pub fn context_of(alloc: Global, text: &str, place: Place) -> Result<String, AllocError> {
    let mut around = Around {
        open: Vec::new(alloc),
        from: 0,
        before_value: false,
        version_end: 0,
        is_version: false,
    };
    let mut end = 0;
    if let Ok(mut tokens) = Tokenizer::new(text) {
        for number in 0..text.len() {
            let Some(token) = tokens.next else {
                break;
            };
            if token.place == place {
                break;
            }
            end = text.len().saturating_sub(tokens.bytes_behind());
            if number == 0 {
                around.is_version = token.text == "syntax";
            }
            around.pass(&token, end)?;
            tokens.advance();
        }
    }
    joined(alloc, text, &around, end)
}

/// The pieces of the text, up to the end of the last token, a blank between two.
fn joined(alloc: Global, text: &str, around: &Around, end: usize) -> Result<String, AllocError> {
    let mut context = String::new(alloc);
    context.push_str(text.get(..around.version_end).unwrap_or(""))?;
    for open in &around.open {
        context.push(' ')?;
        context.push_str(text.get(open.from..open.end).unwrap_or(""))?;
    }
    context.push(' ')?;
    context.push_str(text.get(around.from..end).unwrap_or(""))?;
    Ok(context)
}
