//! What a set is made of, as `make` and `ninja` read it.

ghost use Rattle.std.specs.Prelude.{◌≡◌, ◌++◌, IfOk, OnOk, map};
ghost use Rattle.std.specs.String.{string_bytes};
ghost use Rattle.protobuf_parse_command.specs.Dependencies.{places_from, rule_text, words_before};

use crate::set_texts::SetTexts;
use protobuf_parse::{CheckLog, FileReport, ReadEntry, ReadOutcome};
use std::alloc::{AllocError, Global};
use std::collections::BTreeSet;

/// Where the files that were loaded lie, in the order of loading: those of a set in the set, which
/// comes once. Those that the library brings lie nowhere. The one error is that memory is short.
pub fn places_read(
    alloc: Global,
    texts: &SetTexts<'_>,
    log: &CheckLog,
) -> Result<Vec<String>, AllocError> {
    let mut seen = BTreeSet::new(alloc);
    let mut places = Vec::new(alloc);
    for report in reports_of(log) {
        if let Some(place) = place_read(alloc, texts, &log.reads, report)? {
            if seen.insert(place)? {
                places.push(String::from_str(alloc, place)?)?;
            }
        }
    }
    Ok(places)
}

/// The reports of the check, or none where it didn't end.
pub fn reports_of(log: &CheckLog) -> &[FileReport] {
    match &log.result {
        Ok(check) => &check.files,
        Err(_) => &[],
    }
}

/// Where the file lies, if it does.
fn place_read<'a>(
    alloc: Global,
    texts: &'a SetTexts<'_>,
    reads: &'a [ReadEntry],
    report: &'a FileReport,
) -> Result<Option<&'a str>, AllocError> {
    let Some(entry) = reads.get(report.read) else {
        return Ok(None);
    };
    let ReadOutcome::Content { origin, .. } = &entry.outcome else {
        return Ok(None);
    };
    if texts.lies_at(alloc, &report.path, origin)? {
        return Ok(texts.set_of(&report.path));
    }
    // As protoc writes it.
    match origin.strip_prefix("./") {
        Some(place) => Ok(Some(place)),
        None => Ok(Some(origin)),
    }
}

/// The rule that the target is made of these files, one on a line, as `protoc` writes it:
/// `set.pb: a.proto\`, and ` b.proto` below it. The one error is that memory is short.
pub fn rule_text(alloc: Global, target: &str, places: &[String]) -> Result<String, AllocError>
    ensures { IfOk result (λ text.
        string_bytes text ≡ rule_text target.now (map string_bytes places.now)) }
{
    let mut text = String::from_str(alloc, target)?;
    text.push_str(":")?;
    put_places(&mut text, places)?;
    Ok(text)
}

fn put_places(text: &mut String, places: &[String]) -> Result<(), AllocError>
    ensures { OnOk result (string_bytes text.new
        ≡ string_bytes text.old ++ places_from 0 (map string_bytes places.now)) }
{
    'places: for (i, place) in places.iter().enumerate() {
        text.push_str(words_before(i))?;
        text.push_str(place)?;
    }
    Ok(())
}

/// What stands before the place of this position.
fn words_before(position: usize) -> &'static str
    ensures { result.now ≡ words_before position }
{
    if position == 0 { " " } else { "\\\n " }
}
