//! A linter that tells its own rule beside faults and violations.

use protobuf_parse::{
    FileDescriptorProto, FsReader, ProtoPathBuf, RunInput, RunLog, fs_resolver, google_files,
    run_inputs,
};
use protobuf_parse_diagnostics::{
    DeclarationPlaces, DeclaredKind, Diagnostic, RuleLevel, Severity, Sources, arrange,
    fault_diagnostic, rule_diagnostics,
};
use protobuf_parse_rules::violations;
use protobuf_parse_wire::{name_within, package_scope};
use std::alloc::{AllocError, Global};
use std::test::Fail;
use std::{fs, process};

/// A warning for each message of the file that has no options.
fn lint(
    alloc: Global,
    sources: &Sources<'_>,
    file: &FileDescriptorProto,
) -> Result<Vec<Diagnostic>, AllocError> {
    let path = match &file.name {
        Some(name) => name.as_str(),
        None => "",
    };
    let places = DeclarationPlaces::of(alloc, sources, path)?;
    let scope = package_scope(alloc, file)?;
    let mut told = Vec::new(alloc);
    for message in &file.message_type {
        if message.options.is_none() {
            let full = name_within(alloc, &scope, &message.name)?;
            told.push(Diagnostic {
                file: String::from_str(alloc, sources.origin_of(path))?,
                place: places.place(DeclaredKind::Message, &full),
                severity: Severity::Warning,
                code: String::from_str(alloc, "no-owner")?,
                message: format!(in alloc; "`{}` has no owner", message.name)?,
                help: Some(String::from_str(alloc, "set `option (owner)`")?),
            })?;
        }
    }
    Ok(told)
}

/// What is told of a run: its fault, or violations of rules and of the linter's own.
fn told(alloc: Global, log: &RunLog) -> Result<Vec<Diagnostic>, AllocError> {
    let sources = Sources::of_reads(alloc, &log.reads, google_files())?;
    let mut told = Vec::new(alloc);
    match &log.result {
        Ok(files) => {
            let found = violations(alloc, files)?;
            told.append(&mut rule_diagnostics(alloc, &sources, &found, RuleLevel::Error)?)?;
            for file in files {
                told.append(&mut lint(alloc, &sources, file)?)?;
            }
        }
        Err(fault) => told.push(fault_diagnostic(alloc, &sources, fault)?)?,
    }
    arrange(&mut told)?;
    Ok(told)
}

#[test]
fn linters_tell_their_own_rules(rt: HostRuntime) -> Result<(), Fail> {
    let alloc = rt.alloc();
    let own = process::id(rt.process());
    let path = format!(in alloc; "protobuf_parse_{own}_linted.proto")?;
    let text = "syntax = 'proto3';\npackage shop;\nmessage Item {\n  int32 a = 0;\n}\n";
    fs::write(&rt, path.as_str(), text)?;
    let resolver = fs_resolver(&rt, alloc, &[""])?;
    let mut inputs = Vec::new(alloc);
    inputs.push(RunInput::Named(ProtoPathBuf::from_path(alloc, &path)?))?;
    let log = run_inputs(
        alloc,
        &inputs,
        &resolver,
        &FsReader::new(&rt),
        google_files(),
    );
    fs::remove_file(&rt, path.as_str())?;
    let mut lines = String::new(alloc);
    for each in &told(alloc, &log)? {
        write!(lines, "{each}\n")?;
    }
    let want = format!(in alloc;
        "{path}:3:1: warning: `Item` has no owner; set `option (owner)` [no-owner]\n\
         {path}:4:13: error: `shop.Item.a`: the number 0 is not positive [C2]\n"
    )?;
    assert_eq!(rt; lines.as_str(), want.as_str());
    Ok(())
}
