//! Telling what was found.

ghost use Rattle.std.specs.Prelude.{◌≡◌, ◌++◌, [], ◌∷◌, OnOk, IfOk, map, option_map};
ghost use Rattle.std.specs.Prelude.{Some, string_bytes};
ghost use Rattle.std.specs.Borrow.{Bor};
ghost use Rattle.protobuf_parse_model.specs.Descriptors.{Text};
ghost use Rattle.protobuf_parse_rules.specs.Findings.{finding_view, holder_name, site_of};
ghost use Rattle.protobuf_parse_rules.specs.Rules.{breaches_at, breaches_told};

use crate::claims::{Holder, spot_of};
use crate::finding::{Finding, Spot, spot_name};
use crate::violation::Violation;
use std::alloc::{AllocError, Global};

/// Tells what was found at the construct, rule by rule.
pub fn tell_each(
    alloc: Global,
    told: &mut Vec<Violation>,
    at: Spot<'_>,
    found: &[Option<Finding<'_>>],
) -> Result<(), AllocError>
    ensures { OnOk result (breaches_told told.new ≡ breaches_told told.old
        ++ breaches_at (site_of at.entry) (map (option_map finding_view) found.now)) }
{
    'found: for each in found {
        tell(alloc, told, at, each)?;
    }
    Ok(())
}

/// Tells what was found, if anything was.
// Inlined: 0.3 % of the instructions for fields of all kinds.
#[inline(always)]
pub fn tell(
    alloc: Global,
    told: &mut Vec<Violation>,
    at: Spot<'_>,
    found: &Option<Finding<'_>>,
) -> Result<(), AllocError>
    ensures { OnOk result (breaches_told told.new ≡ breaches_told told.old
        ++ breaches_at (site_of at.entry) (option_map finding_view found.now ∷ [])) }
{
    match found {
        Some(finding) => tell_finding(alloc, told, at, finding),
        None => Ok(()),
    }
}

/// Tells what was found.
fn tell_finding(
    alloc: Global,
    told: &mut Vec<Violation>,
    at: Spot<'_>,
    finding: &Finding<'_>,
) -> Result<(), AllocError>
    ensures { OnOk result (breaches_told told.new ≡ breaches_told told.old
        ++ breaches_at (site_of at.entry) (Some (finding_view finding.now) ∷ [])) }
{
    let construct = spot_name(alloc, at)?;
    let file = String::from_str(alloc, at.file)?;
    let name = text_of(alloc, finding.name)?;
    let by = name_of(alloc, finding.by)?;
    told.push(Violation {
        file,
        construct,
        rule: finding.rule,
        name,
        by,
    })?;
    Ok(())
}

fn text_of(alloc: Global, text: Option<&str>) -> Result<Option<String>, AllocError>
    ensures { IfOk result (λ o. option_map string_bytes o
        ≡ option_map (λ (t : Bor Text). t.now) text.entry) }
{
    match text {
        Some(text) => Ok(Some(String::from_str(alloc, text)?)),
        None => Ok(None),
    }
}

fn name_of(alloc: Global, of: Option<Holder<'_>>) -> Result<Option<String>, AllocError>
    ensures { IfOk result (λ o. option_map string_bytes o ≡ option_map holder_name of.entry) }
{
    match of {
        Some(of) => Ok(Some(spot_name(alloc, spot_of(of))?)),
        None => Ok(None),
    }
}
