//! Violations of rules, at the statements that declare what breaks them.

ghost use Rattle.std.specs.Prelude.{◌≡◌, IfOk};
ghost use Rattle.protobuf_parse_diagnostics.specs.Broken.{AreViolationsTold, IsViolationTold};
ghost use Rattle.protobuf_parse_diagnostics.specs.Broken.{is_told_at, severity_of, told_at_level};

use crate::declared::DeclarationPlaces;
use crate::diagnostic::{Diagnostic, Severity};
use crate::outline::{DeclaredKind, Outline};
use crate::parts::{Part, StatementParts};
use crate::ranges::RangePlaces;
use crate::reserved::ReservedPlaces;
use crate::sources::{NamedTree, Sources, tree_of};
use crate::statements::StatementPlaces;
use protobuf_parse_rules::{NamedKind, Rule, Violation};
use protobuf_parse_syntax::{FileTree, Place};
use std::alloc::{AllocError, Global};
use std::collections::{BTreeMap, BTreeSet};

/// How violations are told.
#[derive(Clone, Copy, Debug, PartialEq, Eq)]
pub enum RuleLevel {
    /// As errors, but for those that `protoc` only warns of.
    Error,
    /// As warnings.
    Warn,
    /// Not at all.
    Off,
}

/// What is told of violations in files that the run read: one of each, in their order. The texts
/// of the files that have some are parsed for the places. The one error is that memory is short.
pub fn rule_diagnostics(
    alloc: Global,
    sources: &Sources<'_>,
    violations: &[Violation],
    level: RuleLevel,
) -> Result<Vec<Diagnostic>, AllocError>
    ensures { IfOk result (λ told.
        AreViolationsTold level (told_at_level level violations.now) told.items) }
{
    let trees = if is_told(level) {
        trees_of(alloc, sources, violations)?
    } else {
        Vec::new(alloc)
    };
    rule_diagnostics_by_trees(alloc, sources, &trees, violations, level)
}

/// [`rule_diagnostics`] of violations in files whose trees are at hand: nothing is parsed. The one
/// error is that memory is short.
pub fn rule_diagnostics_by_trees(
    alloc: Global,
    sources: &Sources<'_>,
    trees: &[NamedTree],
    violations: &[Violation],
    level: RuleLevel,
) -> Result<Vec<Diagnostic>, AllocError>
    ensures { IfOk result (λ told.
        AreViolationsTold level (told_at_level level violations.now) told.items) }
{
    if is_told(level) {
        tell_violations(alloc, sources, trees, violations, level)
    } else {
        Ok(Vec::new(alloc))
    }
}

/// Whether anything is told at this level.
pub fn is_told(level: RuleLevel) -> bool
    ensures { result ≡ is_told_at level }
{
    match level {
        RuleLevel::Error | RuleLevel::Warn => true,
        RuleLevel::Off => false,
    }
}

/// Tells one of each of the violations.
#[tactic(auto, using(crate::proofs::Breaking::violation_next))]
fn tell_violations(
    alloc: Global,
    sources: &Sources<'_>,
    trees: &[NamedTree],
    violations: &[Violation],
    level: RuleLevel,
) -> Result<Vec<Diagnostic>, AllocError>
    ensures { IfOk result (λ told. AreViolationsTold level violations.now told.items) }
{
    let files = broken_files(alloc, sources, trees, violations)?;
    let places = PlacesByFile::of(alloc, &files)?;
    let mut told = Vec::with_capacity(alloc, violations.len())?;
    let mut met = NamesMet::new(alloc);
    for violation in violations {
        let origin = sources.origin_of(&violation.file);
        let place = places.of_violation(violation, met.before(violation)?);
        told.push(diagnostic_of(alloc, origin, place, violation, level)?)?;
    }
    Ok(told)
}

/// The trees of the files that have violations, of those that have a tree.
fn trees_of(
    alloc: Global,
    sources: &Sources<'_>,
    violations: &[Violation],
) -> Result<Vec<NamedTree>, AllocError> {
    let mut trees = Vec::new(alloc);
    for path in &paths_of(alloc, violations)? {
        if let Some(source) = sources.of_path(path) {
            if let Some(tree) = tree_of(alloc, source.text)? {
                let path = String::from_str(alloc, path)?;
                trees.push(NamedTree { path, tree })?;
            }
        }
    }
    Ok(trees)
}

/// The paths of the files that have violations.
fn paths_of(alloc: Global, violations: &[Violation]) -> Result<BTreeSet<&str>, AllocError> {
    let mut paths = BTreeSet::new(alloc);
    for violation in violations {
        paths.insert(violation.file.as_str())?;
    }
    Ok(paths)
}

/// A file that has violations, and what its tree declares.
#[derive(Drop)]
struct BrokenFile<'t, 's> {
    path: &'t str,
    tree: &'t FileTree,
    outline: Outline<'t>,
    statements: StatementParts<'s>,
}

/// Those of the files that have violations.
fn broken_files<'t, 's>(
    alloc: Global,
    sources: &Sources<'s>,
    trees: &'t [NamedTree],
    violations: &[Violation],
) -> Result<Vec<BrokenFile<'t, 's>>, AllocError> {
    let paths = paths_of(alloc, violations)?;
    let mut files = Vec::new(alloc);
    for each in trees {
        if paths.contains(each.path.as_str()) {
            files.push(BrokenFile {
                path: &each.path,
                tree: &each.tree,
                outline: Outline::of(alloc, &each.tree)?,
                statements: StatementParts::of(alloc, sources.text_of(&each.path).unwrap_or(""))?,
            })?;
        }
    }
    Ok(files)
}

/// What is declared in files, by their paths.
#[derive(Drop)]
struct PlacesByFile<'o, 's> {
    files: BTreeMap<&'o str, Places<'o, 's>>,
}

impl<'o, 's> PlacesByFile<'o, 's> {
    fn of(alloc: Global, files: &'o [BrokenFile<'_, 's>]) -> Result<Self, AllocError> {
        let mut places = BTreeMap::new(alloc);
        for file in files {
            places.insert(file.path, Places::of(alloc, file)?)?;
        }
        Ok(PlacesByFile { files: places })
    }

    /// The place of the statement that breaks the rule, where the tree of its file is at hand. So
    /// many before it are of the same name and kind.
    fn of_violation(&self, violation: &Violation, before: usize) -> Option<Place> {
        self.files
            .get(violation.file.as_str())?
            .of_violation(violation, before)
    }
}

/// How often a name was told that is another one's: each time it is one more statement that declares
/// it.
#[derive(Drop)]
struct NamesMet<'v> {
    times: BTreeMap<(&'v str, DeclaredKind, &'v str), usize>,
}

impl<'v> NamesMet<'v> {
    fn new(alloc: Global) -> Self {
        NamesMet {
            times: BTreeMap::new(alloc),
        }
    }

    /// How many statements of the file declare the name, as what the violation is of, before the
    /// one that the violation is of; 0 of violations of other rules. All that have a name are told
    /// but the first, in the order of the file.
    fn before(&mut self, violation: &'v Violation) -> Result<usize, AllocError> {
        let Rule::NameInUse { kind, first } = violation.rule else {
            return Ok(0);
        };
        let Some(declared) = kinds_named(kind).first() else {
            return Ok(0);
        };
        let file = violation.file.as_str();
        let holds_first = kind == first && violation.name.as_deref() == Some(file);
        let key = (file, *declared, violation.construct.as_str());
        let times = self.times.entry(key)?.or_insert(usize::from(holds_first));
        let before = *times;
        *times = before.saturating_add(1);
        Ok(before)
    }
}

/// What stands in a file, by the full names of what it declares and by the paths that it imports.
#[derive(Drop)]
struct Places<'o, 's> {
    others: StatementPlaces<'o>,
    declared: DeclarationPlaces,
    ranges: RangePlaces<'o>,
    reserved: ReservedPlaces<'o>,
    first_values: BTreeMap<&'o str, Place>,
    extends: &'o [Place],
    statements: &'o StatementParts<'s>,
}

impl<'o, 's> Places<'o, 's> {
    fn of(alloc: Global, file: &'o BrokenFile<'_, 's>) -> Result<Self, AllocError> {
        Ok(Places {
            others: StatementPlaces::of(alloc, file.tree)?,
            declared: DeclarationPlaces::of_outline(alloc, &file.outline)?,
            ranges: RangePlaces::of(alloc, &file.outline)?,
            reserved: ReservedPlaces::of(alloc, &file.outline)?,
            first_values: first_values(alloc, &file.outline)?,
            extends: &file.outline.extends,
            statements: &file.statements,
        })
    }

    /// The place of what breaks the rule in the statement that does.
    fn of_violation(&self, violation: &Violation, before: usize) -> Option<Place> {
        let statement = self.of_breach(violation, before)?;
        let name = violation.name.as_deref().unwrap_or("");
        Some(
            self.statements
                .place(statement, part_of(violation.rule), name),
        )
    }

    /// The place of the statement that breaks the rule: of a range its own, and else the one that
    /// declares what breaks it, behind so many of the same name and kind.
    fn of_breach(&self, violation: &Violation, before: usize) -> Option<Place> {
        let own = self.of_statement(violation);
        if own.is_some() {
            return own;
        }
        for kind in kinds_of(violation.rule) {
            let place = self.declared.nth_place(*kind, &violation.construct, before);
            if let (Some(place), Rule::ExtendeeNotMessage | Rule::ExtensionInProto3) = (
                place,
                violation.rule,
            ) {
                return Some(self.extend_around(place));
            }
            if place.is_some() {
                return place;
            }
        }
        None
    }

    /// Where the `extend` begins that has the extension at the place: the last before it.
    fn extend_around(&self, place: Place) -> Place {
        let before = self
            .extends
            .partition_point(|extend| begins_before(extend, &place));
        let begun = self.extends.get(..before).unwrap_or(&[]);
        begun.last().copied().unwrap_or(place)
    }

    /// The place of the statement, where that declares nothing.
    fn of_statement(&self, violation: &Violation) -> Option<Place> {
        let construct = violation.construct.as_str();
        match violation.rule {
            Rule::LiteImport | Rule::ImportUnused => {
                self.others.import(violation.name.as_ref()?)
            }
            Rule::ImportedTwice => self.others.repeated_import(violation.name.as_ref()?),
            Rule::NameInUse {
                kind: NamedKind::Package,
                ..
            } => self.others.package,
            Rule::RangeNotPositive { start } => self.ranges.starting(construct, start),
            Rule::RangesOverlap { start } => self.ranges.starting(construct, start),
            Rule::RangeEmpty { start } => self.ranges.empty(construct, start),
            Rule::ExtensionRangeTooLarge { end } => self.ranges.before(construct, end),
            Rule::NameReservedTwice => { self.reserved.second(construct, violation.name.as_ref()?) }
            Rule::FirstValueNotZero { .. } => self.first_values.get(construct).copied(),
            _ => None,
        }
    }
}

/// Whether the first place is before the second.
fn begins_before(first: &Place, second: &Place) -> bool {
    (first.line, first.col) < (second.line, second.col)
}

/// The places of the first values of enums, by the full names of these.
fn first_values<'o>(
    alloc: Global,
    outline: &'o Outline<'_>,
) -> Result<BTreeMap<&'o str, Place>, AllocError> {
    let mut places = BTreeMap::new(alloc);
    let mut begun: Option<&str> = None;
    for declared in &outline.declared {
        match declared.kind {
            DeclaredKind::Enum => begun = Some(declared.full.as_str()),
            DeclaredKind::EnumValue => {
                if let Some(full) = begun {
                    places.insert(full, declared.place)?;
                }
                begun = None;
            }
            _ => begun = None,
        }
    }
    Ok(places)
}

/// What a rule is of.
fn kinds_of(rule: Rule) -> &'static [DeclaredKind] {
    match rule {
        Rule::NameInUse { kind, .. } => kinds_named(kind),
        Rule::ValueInUse { .. } | Rule::ValueNamesAlike | Rule::ValueNamesAlikeProto2 => &[
            DeclaredKind::EnumValue,
        ],
        Rule::OneofWithoutFields => &[DeclaredKind::Oneof],
        Rule::LiteService => &[DeclaredKind::Service],
        Rule::MethodTypeNotMessage => &[DeclaredKind::Method],
        Rule::NestedTooDeep => &[DeclaredKind::Message],
        Rule::FirstValueNotZero { .. }
        | Rule::EnumWithoutValues
        | Rule::AliasesForbidden
        | Rule::AliasesWithoutNeed => &[DeclaredKind::Enum],
        Rule::ExtensionRangeInProto3
        | Rule::MessageSetInProto3
        | Rule::RangeNotPositive { .. }
        | Rule::RangeEmpty { .. }
        | Rule::ExtensionRangeTooLarge { .. }
        | Rule::RangesOverlap { .. }
        | Rule::NameReservedTwice => &[DeclaredKind::Message, DeclaredKind::Enum],
        Rule::RequiredExtension
        | Rule::ExtensionInProto3
        | Rule::ExtendeeNotMessage
        | Rule::LiteExtension => &[DeclaredKind::Extension],
        Rule::NumberReserved { .. } | Rule::NameReserved => {
            &[DeclaredKind::Field, DeclaredKind::EnumValue]
        }
        _ => &[DeclaredKind::Field, DeclaredKind::Extension],
    }
}

/// What of the statement a rule speaks of.
fn part_of(rule: Rule) -> Part {
    match rule {
        Rule::NumberInUse { .. }
        | Rule::NumberInUseElsewhere { .. }
        | Rule::NumberNotPositive { .. }
        | Rule::NumberTooLarge { .. }
        | Rule::NumberOfImplementation { .. }
        | Rule::ValueInUse { .. }
        | Rule::FirstValueNotZero { .. }
        | Rule::NumberReserved { .. }
        | Rule::NumberKeptForExtensions { .. }
        | Rule::NumberNotForExtensions { .. } => Part::Number,
        Rule::RequiredInProto3
        | Rule::GroupInProto3
        | Rule::RequiredExtension
        | Rule::PackedNotPackable
        | Rule::LazyNotMessage
        | Rule::JsTypeNotLarge
        | Rule::MapKey
        | Rule::ExtensionOfMessageSet
        | Rule::EnumOfProto2
        | Rule::MapValueNotZero => Part::Type,
        Rule::DefaultInProto3
        | Rule::DefaultOfRepeated
        | Rule::DefaultOfMessage
        | Rule::DefaultNotBool
        | Rule::NoValueOfName => Part::Default,
        Rule::DefaultNotNumber | Rule::DefaultOutOfRange | Rule::DefaultNegative => {
            Part::DefaultNumber
        }
        Rule::MethodTypeNotMessage => Part::MethodType,
        Rule::RangeNotPositive { start } => Part::RangeStart(start),
        Rule::RangeEmpty { start } => Part::RangeStart(start),
        Rule::RangesOverlap { start } => Part::RangeStart(start),
        Rule::ImportedTwice
        | Rule::ImportUnused
        | Rule::LiteImport
        | Rule::NameReservedTwice
        | Rule::NameInUse {
            kind: NamedKind::Package,
            ..
        } => Part::Whole,
        _ => Part::Name,
    }
}

/// As what something with a full name is declared: a package as nothing.
fn kinds_named(kind: NamedKind) -> &'static [DeclaredKind] {
    match kind {
        NamedKind::Package => &[],
        NamedKind::Message => &[DeclaredKind::Message],
        NamedKind::Field => &[DeclaredKind::Field],
        NamedKind::Oneof => &[DeclaredKind::Oneof],
        NamedKind::Enum => &[DeclaredKind::Enum],
        NamedKind::EnumValue => &[DeclaredKind::EnumValue],
        NamedKind::Extension => &[DeclaredKind::Extension],
        NamedKind::Service => &[DeclaredKind::Service],
        NamedKind::Method => &[DeclaredKind::Method],
    }
}

fn diagnostic_of(
    alloc: Global,
    origin: &str,
    place: Option<Place>,
    violation: &Violation,
    level: RuleLevel,
) -> Result<Diagnostic, AllocError>
    ensures { IfOk result (IsViolationTold level violation.now) }
{
    let rule = violation.rule;
    Ok(Diagnostic {
        file: String::from_str(alloc, origin)?,
        place,
        severity: severity_of(level, rule),
        code: String::from_str(alloc, rule.code())?,
        message: message_of(alloc, violation)?,
        help: help_of(alloc, violation)?,
    })
}

/// How bad it is that the rule is broken.
fn severity_of(level: RuleLevel, rule: Rule) -> Severity
    ensures { result ≡ severity_of level rule }
{
    match level {
        RuleLevel::Error => {
            if rule.is_warning() {
                Severity::Warning
            } else {
                Severity::Error
            }
        }
        RuleLevel::Warn | RuleLevel::Off => Severity::Warning,
    }
}

/// What is wrong with the construct, or with the file.
fn message_of(alloc: Global, violation: &Violation) -> Result<String, AllocError> {
    let construct = violation.construct.trim_start_matches('.');
    let rule = violation.rule;
    match &violation.name {
        Some(name) => {
            let name = name.trim_start_matches('.');
            if matches!(
                rule,
                Rule::ImportedTwice | Rule::ImportUnused | Rule::LiteImport
            ) {
                format!(in alloc; "{rule}: `{name}`")
            } else {
                format!(in alloc; "`{construct}`: {rule}: `{name}`")
            }
        }
        None => format!(in alloc; "`{construct}`: {rule}"),
    }
}

/// Who has it already.
fn help_of(alloc: Global, violation: &Violation) -> Result<Option<String>, AllocError> {
    match &violation.by {
        Some(by) => {
            let by = by.trim_start_matches('.');
            Ok(Some(format!(in alloc; "`{by}` has it already")?))
        }
        None => Ok(None),
    }
}
