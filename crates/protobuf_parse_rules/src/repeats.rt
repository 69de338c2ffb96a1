//! Texts that may stand once in a list.

ghost use Rattle.std.specs.Prelude.{◌≡◌, ◌++◌, [], ◌∷◌, map, IfOk, OnOk, string_bytes};
ghost use Rattle.protobuf_parse_rules.specs.ClaimsKept.{Claims};
ghost use Rattle.protobuf_parse_rules.specs.Findings.{site_of};
ghost use Rattle.protobuf_parse_rules.specs.Keys.{text_key};
ghost use Rattle.protobuf_parse_rules.specs.Repeats.{repeat_claim, repeat_rule, repeats};
ghost use Rattle.protobuf_parse_rules.specs.Rules.{breaches_told};

use crate::claims::{Held, Holder, Holders, Thing, check_claim};
use crate::finding::Spot;
use crate::keys::{NO_TEXT, text_key};
use crate::rule::Rule;
use crate::violation::Violation;
use protobuf_parse_model::are_apart;
use std::alloc::{AllocError, Global};
use std::collections::BTreeMap;

/// Tells each of the texts of the construct that stands before.
pub fn check_repeats<'b>(
    alloc: Global,
    told: &mut Vec<Violation>,
    at: Spot<'b>,
    rule: Rule,
    texts: &'b [String],
) -> Result<(), AllocError>
    ensures { OnOk result (breaches_told told.new ≡ breaches_told told.old
        ++ repeats rule (site_of at.entry) (map string_bytes texts.now)) }
{
    match texts {
        [] | [_] => Ok(()),
        _ => check_several(alloc, told, at, rule, texts),
    }
}

fn check_several<'b>(
    alloc: Global,
    told: &mut Vec<Violation>,
    at: Spot<'b>,
    rule: Rule,
    texts: &'b [String],
) -> Result<(), AllocError>
    ensures { OnOk result (breaches_told told.new ≡ breaches_told told.old
        ++ repeats rule (site_of at.entry) (map string_bytes texts.now)) }
{
    let keys = keys_of(alloc, texts)?;
    if are_apart(keys) {
        return Ok(());
    }
    check_each(alloc, told, at, rule, texts)
}

/// The keys of the texts.
fn keys_of(alloc: Global, texts: &[String]) -> Result<Vec<u64>, AllocError>
    ensures { IfOk result (λ keys. keys.items ≡ map text_key (map string_bytes texts.now)) }
{
    let mut keys = Vec::with_capacity(alloc, texts.len())?;
    'texts: for text in texts {
        keys.push(text_key(NO_TEXT, text))?;
    }
    Ok(keys)
}

fn check_each<'b>(
    alloc: Global,
    told: &mut Vec<Violation>,
    at: Spot<'b>,
    rule: Rule,
    texts: &'b [String],
) -> Result<(), AllocError>
    ensures { OnOk result (breaches_told told.new ≡ breaches_told told.old
        ++ repeats rule (site_of at.entry) (map string_bytes texts.now)) }
{
    let mut seen: Holders<'_> = BTreeMap::new(alloc);
    'texts: for text in texts {
        check_repeat(alloc, &mut seen, told, at, rule, text)?;
    }
    Ok(())
}

fn check_repeat<'a>(
    alloc: Global,
    seen: &mut Holders<'a>,
    told: &mut Vec<Violation>,
    at: Spot<'a>,
    rule: Rule,
    text: &'a String,
) -> Result<(), AllocError>
    ensures { OnOk result (Claims (repeat_rule rule) seen.old seen.new told.old told.new
        (repeat_claim (site_of at.entry) (string_bytes text.now) ∷ [])) }
{
    let thing = Thing {
        number: 0,
        name: text,
        scope: "",
    };
    let by = Holder {
        file: at.file,
        scope: at.scope,
        name: at.name,
        number: 0,
        kind: None,
    };
    check_claim(alloc, Held::Text(rule), seen, told, thing, by)
}
