//! Rules of files that are not sound.

ghost use Rattle.std.specs.Prelude.{IfOk};
ghost use Rattle.protobuf_parse_command.specs.Checked.{AreRulesTold};

use crate::arguments::Arguments;
use crate::rules::{is_rule_on, paths_of, violations_in};
use crate::sound::is_sound;
use protobuf_parse::{Check, FileReport, LoadStep, ProtoPathBuf, Rule, Violation};
use protobuf_parse_diagnostics::{
    Diagnostic, Place, RuleLevel, Severity, Sources, declaration_starts, rule_diagnostics,
};
use std::alloc::{AllocError, Global};
use std::collections::{BTreeMap, BTreeSet};

/// What is told of rules in those files of a check that are not sound, as far as their descriptors
/// go. Nothing is told of a declaration at which one of these errors stands, since it may come of
/// that; of imports that nothing needs; and where an import is not followed, whose names are
/// missing. The one error is that memory is short.
pub fn told_unsound(
    alloc: Global,
    arguments: &Arguments,
    sources: &Sources<'_>,
    check: &Check,
    errors: &[Diagnostic],
    inputs: &[ProtoPathBuf],
) -> Result<Vec<Diagnostic>, AllocError>
    ensures { IfOk result (λ told. AreRulesTold arguments.now.rules told.items) }
{
    let found = if is_asked(arguments, check) {
        violations_apart(alloc, arguments, sources, &check.files, errors, inputs)?
    } else {
        Vec::new(alloc)
    };
    rule_diagnostics(alloc, sources, &found, arguments.rules)
}

/// Whether rules are told, a file is not sound, and each import is followed.
fn is_asked(arguments: &Arguments, check: &Check) -> bool {
    if matches!(arguments.rules, RuleLevel::Off) {
        return false;
    }
    for step in &check.steps {
        if let LoadStep::Told { .. } = step {
            return false;
        }
    }
    for report in &check.files {
        if !is_sound(report) {
            return true;
        }
    }
    false
}

/// The violations in files that are not sound, but for those at declarations with errors.
fn violations_apart(
    alloc: Global,
    arguments: &Arguments,
    sources: &Sources<'_>,
    reports: &[FileReport],
    errors: &[Diagnostic],
    inputs: &[ProtoPathBuf],
) -> Result<Vec<Violation>, AllocError> {
    let found = violations_of(alloc, arguments, reports, inputs)?;
    let lines = rule_diagnostics(alloc, sources, &found, arguments.rules)?;
    let faulty = FaultyDeclarations::of(alloc, sources, reports, errors)?;
    let mut apart = Vec::new(alloc);
    let mut lines = lines.iter();
    for violation in found {
        if let Some(line) = lines.next() {
            if !faulty.holds(line) {
                apart.push(violation)?;
            }
        }
    }
    Ok(apart)
}

/// The violations in the files that are not sound: of them all, or of the inputs among them.
fn violations_of(
    alloc: Global,
    arguments: &Arguments,
    reports: &[FileReport],
    inputs: &[ProtoPathBuf],
) -> Result<Vec<Violation>, AllocError> {
    let inputs = paths_of(alloc, inputs)?;
    let mut files = Vec::with_capacity(alloc, reports.len())?;
    let mut meant = Meant {
        paths: BTreeSet::new(alloc),
        repeated: BTreeSet::new(alloc),
    };
    for report in reports {
        files.push(report.descriptor.clone()?)?;
        for repeat in &report.repeats {
            meant.repeated.insert(repeat.what.as_str())?;
        }
        let path = report.path.as_str();
        if !is_sound(report) && (!arguments.rules_of_files || inputs.contains(path)) {
            meant.paths.insert(path)?;
        }
    }
    let mut found = violations_in(alloc, &files)?;
    found.retain(|violation| {
        is_rule_on(violation.rule.code(), arguments) && meant.has(violation)
    });
    Ok(found)
}

/// Which violations are told.
#[derive(Drop)]
struct Meant<'a> {
    /// Those in files of these proto paths.
    paths: BTreeSet<&'a str>,
    /// Names that are declared twice, which the check tells: that they are in use, or what stands in
    /// them, is not told once more.
    repeated: BTreeSet<&'a str>,
}

impl<'a> Meant<'a> {
    fn has(&self, violation: &Violation) -> bool {
        match violation.rule {
            Rule::ImportUnused => false,
            Rule::NameInUse { .. } if self.is_repeated(&violation.construct) => false,
            _ => self.paths.contains(violation.file.as_str()),
        }
    }

    /// Whether the full name, or one that it stands in, is declared twice.
    fn is_repeated(&self, full: &str) -> bool {
        for (offset, character) in full.char_indices() {
            if character == '.' && self.repeated.contains(full.get(..offset).unwrap_or(full)) {
                return true;
            }
        }
        self.repeated.contains(full)
    }
}

/// The declarations of a file, as they follow one another in its text.
#[derive(Drop)]
struct FileDeclarations {
    /// Where they begin.
    starts: Vec<Place>,
    /// At which of them an error stands: how many have begun there.
    faulty: BTreeSet<usize>,
}

impl FileDeclarations {
    /// How many have begun at the place.
    fn begun(&self, place: Place) -> usize {
        self.starts
            .partition_point(|start| is_reached(start, &place))
    }
}

/// Whether what begins there has begun at the place.
fn is_reached(start: &Place, place: &Place) -> bool {
    start.line < place.line || (start.line == place.line && start.col <= place.col)
}

/// At which declarations of the files that are not sound errors stand, by where the files lie.
#[derive(Drop)]
struct FaultyDeclarations<'a> {
    files: BTreeMap<&'a str, FileDeclarations>,
}

impl<'a> FaultyDeclarations<'a> {
    /// Those of these errors.
    fn of(
        alloc: Global,
        sources: &'a Sources<'_>,
        reports: &'a [FileReport],
        errors: &[Diagnostic],
    ) -> Result<Self, AllocError> {
        let mut files = BTreeMap::new(alloc);
        for report in reports {
            if !is_sound(report) {
                let declarations = FileDeclarations {
                    starts: declaration_starts(alloc, &report.tree)?,
                    faulty: BTreeSet::new(alloc),
                };
                files.insert(sources.origin_of(&report.path), declarations)?;
            }
        }
        let mut found = FaultyDeclarations { files };
        for error in errors {
            found.note(error)?;
        }
        Ok(found)
    }

    /// Notes the declaration at which the error stands.
    fn note(&mut self, error: &Diagnostic) -> Result<(), AllocError> {
        let (Some(place), Severity::Error) = (error.place, error.severity) else {
            return Ok(());
        };
        if let Some(file) = self.files.get_mut(error.file.as_str()) {
            let begun = file.begun(place);
            file.faulty.insert(begun)?;
        }
        Ok(())
    }

    /// Whether the line stands at a declaration with an error.
    fn holds(&self, line: &Diagnostic) -> bool {
        let (Some(file), Some(place)) = (self.files.get(line.file.as_str()), line.place) else {
            return false;
        };
        file.faulty.contains(&file.begun(place))
    }
}
