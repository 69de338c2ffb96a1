//! Which violations of rules are told.

ghost use Rattle.std.specs.Prelude.{◌≡◌, IfOk, OnOk};
ghost use Rattle.protobuf_parse_command.specs.Checked.{AreRulesTold, AreTextRulesTold};

use crate::arguments::Arguments;
use protobuf_parse::{
    Check, FileDescriptorProto, FileReport, NamedKind, ProtoPathBuf, Rule, RunFault, UnreadFile,
    Violation, violations,
};
use protobuf_parse_diagnostics::{
    Diagnostic, NamedTree, RuleLevel, Sources, rule_diagnostics_by_trees, text_rule_diagnostics,
};
use protobuf_parse_recovery::{Reading, read_on};
use protobuf_parse_text_rules::{TextRule, text_violations};
use std::alloc::{AllocError, Global};
use std::collections::{BTreeMap, BTreeSet};
use std::slice;

/// What is held against the rules.
#[derive(Clone, Copy)]
pub struct RuleFiles<'a> {
    pub files: &'a [FileDescriptorProto],
    /// The trees of these files.
    pub trees: &'a [NamedTree],
    /// The proto paths of the inputs.
    pub inputs: &'a [ProtoPathBuf],
}

/// What is told of rules in all files, or where that is asked for in the inputs alone. The one error
/// is that memory is short.
pub fn told_rules(
    alloc: Global,
    arguments: &Arguments,
    sources: &Sources<'_>,
    held: &RuleFiles<'_>,
) -> Result<Vec<Diagnostic>, AllocError>
    ensures { IfOk result (λ told. AreRulesTold arguments.now.rules told.items) }
{
    let found = match arguments.rules {
        RuleLevel::Error | RuleLevel::Warn => told_violations(alloc, arguments, held)?,
        RuleLevel::Off => Vec::new(alloc),
    };
    rule_diagnostics_by_trees(alloc, sources, held.trees, &found, arguments.rules)
}

/// Those violations, in no order.
fn told_violations(
    alloc: Global,
    arguments: &Arguments,
    held: &RuleFiles<'_>,
) -> Result<Vec<Violation>, AllocError> {
    let mut all = violations_in(alloc, held.files)?;
    let inputs = paths_of(alloc, held.inputs)?;
    all.retain(|violation| {
        is_rule_on(violation.rule.code(), arguments)
            && (is_told_of(violation, arguments) || inputs.contains(violation.file.as_str()))
    });
    Ok(all)
}

/// Whether violations of the rule of that code are told.
pub fn is_rule_on(code: &str, arguments: &Arguments) -> bool {
    !arguments.rules_off.contains(code)
}

/// All violations in the files, in no order: of two messages of one name each has its own numbers.
/// The one error is that memory is short.
pub fn violations_in(
    alloc: Global,
    files: &[FileDescriptorProto],
) -> Result<Vec<Violation>, AllocError> {
    let mut all = violations(alloc, files)?;
    let seconds = Seconds::of(alloc, &all)?;
    all.retain(|violation| !seconds.speak_of(violation));
    for file in files {
        all.append(&mut seconds.numbers_in(alloc, file)?)?;
    }
    Ok(all)
}

/// Whether a violation is told of files that are no inputs: an import that nothing needs is for who
/// works on the file.
fn is_told_of(violation: &Violation, arguments: &Arguments) -> bool {
    !arguments.rules_of_files && !matches!(violation.rule, Rule::ImportUnused)
}

/// The proto paths of the inputs. The one error is that memory is short.
pub fn paths_of(alloc: Global, inputs: &[ProtoPathBuf]) -> Result<BTreeSet<&str>, AllocError> {
    let mut paths = BTreeSet::new(alloc);
    for name in inputs {
        paths.insert(name.as_path().to_str())?;
    }
    Ok(paths)
}

/// What is told of the rules of texts in all files of a check, or where that is asked for in the
/// inputs alone. A file that is not sound has a text too, and of one that has no tree what is left
/// without its faults. The one error is that memory is short.
pub fn told_texts(
    alloc: Global,
    arguments: &Arguments,
    sources: &Sources<'_>,
    check: &Check,
    inputs: &[ProtoPathBuf],
) -> Result<Vec<Diagnostic>, AllocError>
    ensures { IfOk result (λ told. AreTextRulesTold arguments.now.rules told.items) }
{
    let mut told = Vec::new(alloc);
    if matches!(arguments.rules, RuleLevel::Off) {
        return Ok(told);
    }
    let inputs = paths_of(alloc, inputs)?;
    for report in &check.files {
        let asked = TextsAsked::of(arguments, &inputs, &report.path);
        tell_texts(alloc, &mut told, asked, sources, report)?;
    }
    for file in &check.unread {
        let asked = TextsAsked::of(arguments, &inputs, &file.path);
        tell_rest(alloc, &mut told, asked, sources, file)?;
    }
    Ok(told)
}

/// Which rules of texts are told of a file.
#[derive(Clone, Copy)]
pub struct TextsAsked<'a> {
    pub arguments: &'a Arguments,
    is_input: bool,
}

impl<'a> TextsAsked<'a> {
    /// Of the file of this proto path.
    pub fn of(arguments: &'a Arguments, inputs: &BTreeSet<&str>, path: &str) -> Self
        ensures { result.arguments.now ≡ arguments.now }
    {
        TextsAsked {
            arguments,
            is_input: inputs.contains(path),
        }
    }

    /// Whether any is told of it.
    pub fn asks(&self) -> bool {
        self.is_input || !self.arguments.rules_of_files
    }

    /// Whether the rule is told of it: that a file has no `syntax` statement is for who works on it.
    pub fn has(&self, rule: TextRule) -> bool {
        let is_meant = self.is_input || !matches!(rule, TextRule::SyntaxMissing);
        self.asks() && is_meant && is_rule_on(rule.code(), self.arguments)
    }
}

/// Tells those of the file of the report.
fn tell_texts(
    alloc: Global,
    told: &mut Vec<Diagnostic>,
    asked: TextsAsked<'_>,
    sources: &Sources<'_>,
    report: &FileReport,
) -> Result<(), AllocError>
    ensures { AreTextRulesTold asked.entry.arguments.now.rules told.old.items
        → OnOk result (AreTextRulesTold asked.entry.arguments.now.rules told.new.items) }
{
    if !asked.asks() {
        return Ok(());
    }
    let Some(source) = sources.of_path(&report.path) else {
        return Ok(());
    };
    let mut found = text_violations(alloc, source.text, &report.tree)?;
    found.retain(|violation| asked.has(violation.rule));
    let level = asked.arguments.rules;
    told.append(&mut text_rule_diagnostics(alloc, source.origin, &found, level)?)?;
    Ok(())
}

/// Tells those of a text that has no tree, in what is left of it without its faults. An `extend`
/// may have had fields there.
fn tell_rest(
    alloc: Global,
    told: &mut Vec<Diagnostic>,
    asked: TextsAsked<'_>,
    sources: &Sources<'_>,
    file: &UnreadFile,
) -> Result<(), AllocError>
    ensures { AreTextRulesTold asked.entry.arguments.now.rules told.old.items
        → OnOk result (AreTextRulesTold asked.entry.arguments.now.rules told.new.items) }
{
    if !asked.asks() {
        return Ok(());
    }
    let RunFault::Parse(_, _) = &file.fault else {
        return Ok(());
    };
    let Some(source) = sources.of_path(&file.path) else {
        return Ok(());
    };
    let Reading { faults: _, rest } = read_on(alloc, source.text)?;
    let Some(rest) = rest else {
        return Ok(());
    };
    let mut found = text_violations(alloc, &rest.text, &rest.tree)?;
    found.retain(|violation| {
        !matches!(violation.rule, TextRule::ExtendWithoutFields) && asked.has(violation.rule)
    });
    let level = asked.arguments.rules;
    told.append(&mut text_rule_diagnostics(alloc, source.origin, &found, level)?)?;
    Ok(())
}

/// Messages whose full names are those of messages in other files before, by the paths of their own
/// files. As long as two have one name, the numbers of each are its own: those of the second are
/// held against one another alone.
#[derive(Drop)]
struct Seconds {
    messages: BTreeMap<String, BTreeSet<String>>,
}

impl Seconds {
    /// Those that these violations tell of.
    fn of(alloc: Global, all: &[Violation]) -> Result<Self, AllocError> {
        let mut messages: BTreeMap<String, BTreeSet<String>> = BTreeMap::new(alloc);
        for violation in all {
            if is_of_second_message(violation.rule) {
                let file = violation.file.clone()?;
                let message = violation.construct.clone()?;
                messages
                    .entry(file)?
                    .or_insert(BTreeSet::new(alloc))
                    .insert(message)?;
            }
        }
        Ok(Seconds { messages })
    }

    /// Whether the violation is that a number of such a message is in use.
    fn speak_of(&self, violation: &Violation) -> bool {
        if !is_of_number(violation.rule) {
            return false;
        }
        let Some(message) = &violation.name else {
            return false;
        };
        match self.messages.get(violation.file.as_str()) {
            Some(seconds) => seconds.contains(message.as_str()),
            None => false,
        }
    }

    /// The numbers in use of those in this file, the file by itself.
    fn numbers_in(
        &self,
        alloc: Global,
        file: &FileDescriptorProto,
    ) -> Result<Vec<Violation>, AllocError> {
        let Some(name) = &file.name else {
            return Ok(Vec::new(alloc));
        };
        if !self.messages.contains_key(name.as_str()) {
            return Ok(Vec::new(alloc));
        }
        let mut found = violations(alloc, slice::from_ref(file))?;
        found.retain(|violation| self.speak_of(violation));
        Ok(found)
    }
}

/// Whether it says that a number is in use.
fn is_of_number(rule: Rule) -> bool {
    matches!(
        rule,
        Rule::NumberInUse { .. } | Rule::NumberInUseElsewhere { .. }
    )
}

/// Whether it says that a message of another file has the name.
fn is_of_second_message(rule: Rule) -> bool {
    matches!(
        rule,
        Rule::NameInUse {
            kind: NamedKind::Message,
            first: NamedKind::Message,
        }
    )
}
