//! The violations of a text, by its tree and its tokens.

ghost use Rattle.std.specs.Prelude.{◌≡◌, ◌++◌, flat_map, map, IfOk, OnOk};
ghost use Rattle.protobuf_parse_lexer.specs.Cut.{HasTokens, Stream};
ghost use Rattle.protobuf_parse_lexer.specs.Tokens.{lexeme};
ghost use Rattle.protobuf_parse_syntax.specs.Trees.{file_syntax};
ghost use Rattle.protobuf_parse_text_rules.specs.Files.{tree_breaches};
ghost use Rattle.protobuf_parse_text_rules.specs.Statements as spec;
ghost use Rattle.protobuf_parse_text_rules.specs.Statements.{text_breaches};
ghost use Rattle.protobuf_parse_text_rules.specs.Views.{told, violation_view};

use crate::bodies::tell_alone;
use crate::messages::check_tree;
use crate::rule::TextRule;
use crate::tokens::{behind_first, behind_statement, first_is, first_place, from, from_text};
use crate::violation::{TextViolation, tell, tell_if};
use protobuf_parse_lexer::{ParserError, Place, Token, tokenize};
use protobuf_parse_syntax::FileTree;
use std::alloc::{AllocError, Global};

/// Every violation in a text that has this tree: first that it begins with no `syntax` statement,
/// then each `+` before a number, and then the others in the order of the text. Of a text that is no list of tokens, and so has no tree, it
/// tells nothing. The one error is that memory is short.
pub fn text_violations(
    alloc: Global,
    text: &str,
    tree: &FileTree,
) -> Result<Vec<TextViolation>, AllocError>
    ensures { (s : Stream) → HasTokens text.now s
        → IfOk result (λ v. told v ≡ text_breaches s.tokens (file_syntax tree.now)) }
{
    match tokenize(alloc, text) {
        Ok(stream) => violations_among(alloc, &stream.tokens, tree),
        Err(refused) => match refused.error {
            ParserError::Memory => Err(AllocError),
            _ => Ok(Vec::new(alloc)),
        },
    }
}

fn violations_among(
    alloc: Global,
    tokens: &[Token<'_>],
    tree: &FileTree,
) -> Result<Vec<TextViolation>, AllocError>
    ensures { IfOk result
        (λ v. told v ≡ text_breaches (map lexeme tokens.now) (file_syntax tree.now)) }
{
    let mut found = Vec::new(alloc);
    tell_version(alloc, &mut found, tokens)?;
    tell_plus(alloc, &mut found, tokens)?;
    let mut seen = Vec::new(alloc);
    check_tree(alloc, &mut seen, tree)?;
    tell_broken(alloc, &mut found, tokens, &seen)?;
    Ok(found)
}

/// Tells that they begin with no `syntax` statement.
fn tell_version(
    alloc: Global,
    found: &mut Vec<TextViolation>,
    tokens: &[Token<'_>],
) -> Result<(), AllocError>
    ensures { OnOk result (told found.new ≡ told found.old
        ++ spec.version_breaches (map lexeme tokens.now)) }
{
    let missing = !first_is(tokens, "syntax");
    let place = first_place(tokens, Place { line: 1, col: 1 });
    let rule = TextRule::SyntaxMissing;
    tell_if(alloc, found, missing, rule, place, "")
}

/// Tells each `+`.
fn tell_plus(
    alloc: Global,
    found: &mut Vec<TextViolation>,
    tokens: &[Token<'_>],
) -> Result<(), AllocError>
    ensures { OnOk result (told found.new ≡ told found.old
        ++ flat_map spec.plus_breaches (map lexeme tokens.now)) }
{
    'tokens: for token in tokens {
        tell_if(
            alloc,
            found,
            token.text == "+",
            TextRule::PlusSign,
            token.place,
            "",
        )?;
    }
    Ok(())
}

/// Tells what is broken of what a tree shows, by these tokens.
fn tell_broken(
    alloc: Global,
    found: &mut Vec<TextViolation>,
    tokens: &[Token<'_>],
    seen: &[TextViolation],
) -> Result<(), AllocError>
    ensures { OnOk result (told found.new ≡ told found.old
        ++ spec.broken_among (map lexeme tokens.now) (map violation_view seen.now)) }
{
    let mut tokens = tokens;
    let mut seen = seen;
    'seen: while let [first, rest @ ..] = seen {
        if asks_tokens(first.rule) {
            tokens = from(tokens, first.place);
        }
        tell_by(alloc, found, tokens, first)?;
        seen = rest;
    }
    Ok(())
}

/// Whether the rule asks for the tokens of its statement.
fn asks_tokens(rule: TextRule) -> bool
    ensures { result ≡ spec.asks_tokens rule }
{
    matches!(
        rule,
        TextRule::ExtendWithoutFields
            | TextRule::StatementWithoutSemicolon
            | TextRule::MethodWithoutRpc
            | TextRule::SemicolonAlone
    )
}

/// Tells what is broken of this, where its statement begins with these tokens.
fn tell_by(
    alloc: Global,
    found: &mut Vec<TextViolation>,
    tokens: &[Token<'_>],
    seen: &TextViolation,
) -> Result<(), AllocError>
    ensures { OnOk result (told found.new ≡ told found.old
        ++ spec.broken_by (violation_view seen.now) seen.now.rule (map lexeme tokens.now)) }
{
    let TextViolation { rule, place, name } = seen;
    match rule {
        TextRule::ExtendWithoutFields => {
            let brace = first_place(from_text(tokens, "}"), *place);
            tell(alloc, found, *rule, brace, name)
        }
        TextRule::StatementWithoutSemicolon => {
            let behind = behind_statement(tokens);
            let missing = !first_is(behind, ";");
            tell_if(
                alloc,
                found,
                missing,
                *rule,
                first_place(behind, *place),
                name,
            )
        }
        TextRule::MethodWithoutRpc => {
            let begins_so = first_is(tokens, "stream");
            tell_if(alloc, found, begins_so, *rule, *place, name)
        }
        TextRule::SemicolonAlone => {
            let body = behind_first(from_text(tokens, "{"));
            tell_alone(alloc, found, name, body)
        }
        _ => tell(alloc, found, *rule, *place, name),
    }
}
