//! A parser over real files: includes and inputs are added, and then it runs.

ghost use Rattle.std.specs.Prelude.{◌≡◌, IfOk, IfErr, OnOk, OnErr, List, [], ◌∷◌, ◌++◌, length};
ghost use Rattle.std.specs.Prelude.{filter, map, option_map, string_bytes};
ghost use Rattle.protobuf_parse_base.specs.PathViews.{path_buf_text};
ghost use Rattle.protobuf_parse_google.specs.Google.{google};
ghost use Rattle.protobuf_parse_run.specs.Run.{IsCaused, input_view, rows, shipped};
ghost use Rattle.protobuf_parse.specs.Includes.{part_views};
ghost use Rattle.protobuf_parse.specs.Folders.{MayFind};
ghost use Rattle.protobuf_parse.specs.NameSets.{HasNames};
ghost use Rattle.protobuf_parse.specs.Checking.{IsCheckOfInputs, TellsCheckFault};
ghost use Rattle.protobuf_parse.specs.Outcomes.{CheckedOverFolders};
ghost use Rattle.protobuf_parse_model.specs.Descriptors.{Text, file_view};
ghost use Rattle.protobuf_parse.specs.Parsers.{IsParsed, IsSameParser, IsSetOfInputs};
ghost use Rattle.protobuf_parse.specs.Parsers.{MayReadAnything, TellsFault};
ghost use Rattle.protobuf_parse.specs.Outcomes.{RanOverFolders, files_of_run};
ghost use Rattle.protobuf_parse.specs.SourceInfo.{AreFileInfos};
ghost use Rattle.protobuf_parse.specs.Parsers.{bundled_of, includes_of, inputs_at, inputs_of};
ghost use Rattle.protobuf_parse.specs.Parsers.{is_name_among, is_of_input};

use crate::parser::files::{FsReader, copy_texts, fs_resolver};
use crate::parser::includes::proto_paths_of;
use crate::parser::source_info::infos_of_files;
use protobuf_parse_base::proto_path::ProtoPathBuf;
use protobuf_parse_check::{Check, CheckLog, check_inputs};
use protobuf_parse_google::google_files;
use protobuf_parse_model::{FileDescriptorProto, FileDescriptorSet};
use protobuf_parse_run::{ReadEntry, RunFault, RunInput, RunLog, bundled_files, run_inputs};
use protobuf_parse_source_info::SourceCodeInfo;
use std::alloc::{AllocError, Global};
use std::collections::BTreeSet;
use std::rt::Files;

/// Parses files and checks their types. Includes are the folders where imports are looked for, and
/// inputs the files that are parsed, each of which resides in an include.
///
/// ```
/// let mut parser = Parser::new(rt.alloc());
/// parser.google_files();
/// parser.push_includes(&["schemas", "vendor"])?;
/// parser.push_input("schemas/shop/order.proto")?;
/// let parsed = parser.parse_and_typecheck(&rt)?;
/// for file in &parsed.file_descriptors {
///     print!(rt; "{}\n", file.name.as_deref().unwrap_or(""))?;
/// }
/// ```
#[derive(Debug, PartialEq, Drop)]
pub struct Parser {
    includes: Vec<String>,
    inputs: Vec<String>,
    google_files: bool,
}

/// What a run of a [`Parser`] gave.
#[derive(Debug, Drop)]
pub struct ParsedAndTypechecked {
    /// The proto path of each input, in order.
    pub relative_paths: Vec<ProtoPathBuf>,
    /// The descriptors of all files that the inputs reach, each once and after its imports.
    pub file_descriptors: Vec<FileDescriptorProto>,
    /// Which parser was used: `pure`.
    pub parser: String,
}

/// What a run of a [`Parser`] gave, with where all of it stands in the texts.
#[derive(Drop)]
pub struct ParsedWithSourceInfo {
    pub parsed: ParsedAndTypechecked,
    /// Of each of the descriptors, in their order, the places and the comments of what its file
    /// declares.
    pub source_info: Vec<SourceCodeInfo<'static>>,
}

impl Parser {
    /// A parser without includes and inputs, whose bundled files are
    /// [`bundled_files`](crate::bundled_files).
    pub fn new(alloc: Global) -> Self
        ensures includes { includes_of result ≡ [] }
        ensures inputs { inputs_of result ≡ [] }
        ensures bundled { bundled_of result ≡ shipped }
    {
        Parser {
            includes: Vec::new(alloc),
            inputs: Vec::new(alloc),
            google_files: false,
        }
    }

    /// Chooses this library's own parser, which is the only one. It changes nothing.
    pub fn pure(&mut self) -> &mut Self
        ensures same { result.now ≡ self.old }
        ensures same_reference { result.ghost_name ≡ self.entry.ghost_name }
    {
        self
    }

    /// Takes Google's files with all that they declare, [`google_files`](crate::google_files), as
    /// the bundled files, and answers the parser. A file that an include has counts before them.
    ///
    /// ```
    /// parser.google_files(); // `api.proto` and `FileDescriptorSet` are there, say
    /// ```
    pub fn google_files(&mut self) -> &mut Self
        ensures bundled { bundled_of result.now ≡ google }
        ensures includes { includes_of result.now ≡ includes_of self.old }
        ensures inputs { inputs_of result.now ≡ inputs_of self.old }
        ensures same_reference { result.ghost_name ≡ self.entry.ghost_name }
    {
        self.google_files = true;
        self
    }

    /// Adds an include. Where memory is short, which is the one error, nothing changes.
    ///
    /// ```
    /// parser.push_include("schemas")?;
    /// ```
    pub fn push_include(&mut self, include: &str) -> Result<(), AllocError>
        ensures includes { OnOk result
            (includes_of self.new ≡ includes_of self.old ++ include.now ∷ []) }
        ensures inputs { inputs_of self.new ≡ inputs_of self.old }
        ensures bundled { bundled_of self.new ≡ bundled_of self.old }
        ensures kept { OnErr result (IsSameParser self.old self.new) }
    {
        push_text(&mut self.includes, include)
    }

    /// [`Parser::push_include`], and answers the parser.
    pub fn include(&mut self, include: &str) -> Result<&mut Self, AllocError>
        ensures includes { IfOk result (λ p.
            includes_of p.now ≡ includes_of self.old ++ include.now ∷ []) }
        ensures inputs { IfOk result (λ p. inputs_of p.now ≡ inputs_of self.old) }
        ensures bundled { IfOk result (λ p. bundled_of p.now ≡ bundled_of self.old) }
        ensures same_reference { IfOk result (λ p. p.ghost_name ≡ self.entry.ghost_name) }
    {
        self.push_include(include)?;
        Ok(self)
    }

    /// Adds includes, in order, all or none. Where memory is short, which is the one error, nothing
    /// changes.
    pub fn push_includes(&mut self, includes: &[&str]) -> Result<(), AllocError>
        ensures includes { OnOk result
            (includes_of self.new ≡ includes_of self.old ++ part_views includes.now) }
        ensures inputs { inputs_of self.new ≡ inputs_of self.old }
        ensures bundled { bundled_of self.new ≡ bundled_of self.old }
        ensures kept { OnErr result (IsSameParser self.old self.new) }
    {
        push_texts(&mut self.includes, includes)
    }

    /// [`Parser::push_includes`], and answers the parser.
    pub fn includes(&mut self, includes: &[&str]) -> Result<&mut Self, AllocError>
        ensures includes { IfOk result (λ p.
            includes_of p.now ≡ includes_of self.old ++ part_views includes.now) }
        ensures inputs { IfOk result (λ p. inputs_of p.now ≡ inputs_of self.old) }
        ensures bundled { IfOk result (λ p. bundled_of p.now ≡ bundled_of self.old) }
        ensures same_reference { IfOk result (λ p. p.ghost_name ≡ self.entry.ghost_name) }
    {
        self.push_includes(includes)?;
        Ok(self)
    }

    /// Adds an input. Where memory is short, which is the one error, nothing changes.
    ///
    /// ```
    /// parser.push_input("schemas/shop/order.proto")?;
    /// ```
    pub fn push_input(&mut self, input: &str) -> Result<(), AllocError>
        ensures inputs { OnOk result
            (inputs_of self.new ≡ inputs_of self.old ++ input.now ∷ []) }
        ensures includes { includes_of self.new ≡ includes_of self.old }
        ensures bundled { bundled_of self.new ≡ bundled_of self.old }
        ensures kept { OnErr result (IsSameParser self.old self.new) }
    {
        push_text(&mut self.inputs, input)
    }

    /// [`Parser::push_input`], and answers the parser.
    pub fn input(&mut self, input: &str) -> Result<&mut Self, AllocError>
        ensures inputs { IfOk result (λ p.
            inputs_of p.now ≡ inputs_of self.old ++ input.now ∷ []) }
        ensures includes { IfOk result (λ p. includes_of p.now ≡ includes_of self.old) }
        ensures bundled { IfOk result (λ p. bundled_of p.now ≡ bundled_of self.old) }
        ensures same_reference { IfOk result (λ p. p.ghost_name ≡ self.entry.ghost_name) }
    {
        self.push_input(input)?;
        Ok(self)
    }

    /// Adds inputs, in order, all or none. Where memory is short, which is the one error, nothing
    /// changes.
    pub fn push_inputs(&mut self, inputs: &[&str]) -> Result<(), AllocError>
        ensures inputs { OnOk result
            (inputs_of self.new ≡ inputs_of self.old ++ part_views inputs.now) }
        ensures includes { includes_of self.new ≡ includes_of self.old }
        ensures bundled { bundled_of self.new ≡ bundled_of self.old }
        ensures kept { OnErr result (IsSameParser self.old self.new) }
    {
        push_texts(&mut self.inputs, inputs)
    }

    /// [`Parser::push_inputs`], and answers the parser.
    pub fn inputs(&mut self, inputs: &[&str]) -> Result<&mut Self, AllocError>
        ensures inputs { IfOk result (λ p.
            inputs_of p.now ≡ inputs_of self.old ++ part_views inputs.now) }
        ensures includes { IfOk result (λ p. includes_of p.now ≡ includes_of self.old) }
        ensures bundled { IfOk result (λ p. bundled_of p.now ≡ bundled_of self.old) }
        ensures same_reference { IfOk result (λ p. p.ghost_name ≡ self.entry.ghost_name) }
    {
        self.push_inputs(inputs)?;
        Ok(self)
    }

    /// Parses the inputs and all files that they import, and checks their types.
    ///
    /// All inputs get their proto paths before any file is read: the error is L3 or L11 of the
    /// first one that gets none. Then each input is read at its own path, and its imports are
    /// looked for in the includes and then among the bundled files: the errors are those of the
    /// run.
    ///
    /// ```
    /// let parsed = parser.parse_and_typecheck(&rt)?;
    /// let files = &parsed.file_descriptors; // each after what it imports
    /// ```
    pub fn parse_and_typecheck<R: Files + AllocGlobal>(
        &self,
        rt: &R,
    ) -> Result<ParsedAndTypechecked, RunFault>
        ensures parsed { IfOk result (IsParsed (bundled_of self.now)
            (includes_of self.now) (inputs_of self.now)) }
        ensures fault { IfErr result (TellsFault (bundled_of self.now)
            (includes_of self.now) (inputs_of self.now)) }
        ensures caused { IfErr result (λ f.
            IsCaused (MayFind (includes_of self.now)) MayReadAnything f) }
    {
        let alloc = rt.alloc();
        let names = proto_paths_of(alloc, &self.includes, &self.inputs)?;
        let files = self.run_over_folders(rt, &names)?;
        Ok(ParsedAndTypechecked {
            relative_paths: names,
            file_descriptors: files,
            parser: String::from_str(alloc, "pure")?,
        })
    }

    /// [`Parser::parse_and_typecheck`], and of each file where its constructs stand in the text, and
    /// which comments are theirs: what `protoc --include_source_info` has. The errors are the same.
    ///
    /// ```
    /// let ParsedWithSourceInfo { parsed, source_info } = parser.parse_with_source_info(&rt)?;
    /// for (file, info) in parsed.file_descriptors.iter().zip(&source_info) {
    ///     let locations = FileLocations::of(alloc, file, info)?;
    /// }
    /// ```
    pub fn parse_with_source_info<R: Files + AllocGlobal>(
        &self,
        rt: &R,
    ) -> Result<ParsedWithSourceInfo, RunFault>
        ensures parsed { IfOk result (λ p. IsParsed (bundled_of self.now)
            (includes_of self.now) (inputs_of self.now) p.parsed) }
        ensures infos { IfOk result (λ p. AreFileInfos
            (map file_view p.parsed.file_descriptors.items) p.source_info.items) }
        ensures fault { IfErr result (TellsFault (bundled_of self.now)
            (includes_of self.now) (inputs_of self.now)) }
        ensures caused { IfErr result (λ f.
            IsCaused (MayFind (includes_of self.now)) MayReadAnything f) }
    {
        let alloc = rt.alloc();
        let names = proto_paths_of(alloc, &self.includes, &self.inputs)?;
        let logged = self.run_with_reads(rt, &names)?;
        let LoggedRun { reads, files } = logged;
        let source_info = infos_of_files(alloc, &reads, self.bundled(), &files)?;
        let parsed = ParsedAndTypechecked {
            relative_paths: names,
            file_descriptors: files,
            parser: String::from_str(alloc, "pure")?,
        };
        Ok(ParsedWithSourceInfo {
            parsed,
            source_info,
        })
    }

    /// The descriptors of the inputs alone, in the order of [`Parser::parse_and_typecheck`], and
    /// its errors.
    ///
    /// ```
    /// for file in &parser.file_descriptor_set(&rt)?.file {
    ///     print!(rt; "{} messages\n", file.message_type.len())?;
    /// }
    /// ```
    pub fn file_descriptor_set<R: Files + AllocGlobal>(
        &self,
        rt: &R,
    ) -> Result<FileDescriptorSet, RunFault>
        ensures set { IfOk result (IsSetOfInputs (bundled_of self.now)
            (includes_of self.now) (inputs_of self.now)) }
        ensures fault { IfErr result (TellsFault (bundled_of self.now)
            (includes_of self.now) (inputs_of self.now)) }
        ensures caused { IfErr result (λ f.
            IsCaused (MayFind (includes_of self.now)) MayReadAnything f) }
    {
        let ParsedAndTypechecked {
            relative_paths,
            file_descriptors,
            parser: _,
        } = self.parse_and_typecheck(rt)?;
        let file = files_of_inputs(rt.alloc(), &relative_paths, file_descriptors)?;
        Ok(FileDescriptorSet { file })
    }

    /// Checks the inputs and all files that they reach, and tells all that is wrong in them: what
    /// can't be followed at each statement that asks for it, inputs that others shadow, and every
    /// fault of each file, at its place. Nothing ends a check but want of memory.
    ///
    /// All inputs get their proto paths before any file is read: the error is L3 or L11 of the
    /// first one that gets none.
    ///
    /// ```
    /// for report in &parser.check(&rt)?.files {
    ///     for fault in &report.faults {
    ///         let line = fault.place.line;
    ///         print!(rt; "{}:{line}: {fault}\n", report.path)?;
    ///     }
    /// }
    /// ```
    pub fn check<R: Files + AllocGlobal>(&self, rt: &R) -> Result<Check, RunFault>
        ensures told { IfOk result (IsCheckOfInputs (bundled_of self.now)
            (includes_of self.now) (inputs_of self.now)) }
        ensures fault { IfErr result (TellsCheckFault (includes_of self.now)
            (inputs_of self.now)) }
    {
        let names = proto_paths_of(rt.alloc(), &self.includes, &self.inputs)?;
        self.check_over_folders(rt, &names)
    }

    /// The result of the run over the inputs by these proto paths, with imports from the includes.
    fn run_over_folders<R: Files + AllocGlobal>(
        &self,
        rt: &R,
        names: &[ProtoPathBuf],
    ) -> Result<Vec<FileDescriptorProto>, RunFault>
        requires { length names.now ≡ length self.now.inputs.items }
        ensures ran { RanOverFolders (bundled_of self.now) (includes_of self.now)
            (inputs_of self.now) (map path_buf_text names.now) result }
        ensures caused { IfErr result (λ f.
            IsCaused (MayFind (includes_of self.now)) MayReadAnything f) }
    {
        files_alone(self.run_with_reads(rt, names))
    }

    /// The same, with what the run read.
    fn run_with_reads<R: Files + AllocGlobal>(
        &self,
        rt: &R,
        names: &[ProtoPathBuf],
    ) -> Result<LoggedRun, RunFault>
        requires { length names.now ≡ length self.now.inputs.items }
        ensures ran { RanOverFolders (bundled_of self.now) (includes_of self.now)
            (inputs_of self.now) (map path_buf_text names.now) (files_of_run result) }
        ensures caused { IfErr result (λ f.
            IsCaused (MayFind (includes_of self.now)) MayReadAnything f) }
    {
        let alloc = rt.alloc();
        let folders = text_slices(alloc, &self.includes)?;
        let resolver = fs_resolver(rt, alloc, &folders)?;
        let reader = FsReader::new(rt);
        let given = place_inputs(alloc, &self.inputs, names)?;
        with_reads(run_inputs(alloc, &given, &resolver, &reader, self.bundled()))
    }

    /// What the check of the inputs by these proto paths tells, with imports from the includes.
    fn check_over_folders<R: Files + AllocGlobal>(
        &self,
        rt: &R,
        names: &[ProtoPathBuf],
    ) -> Result<Check, RunFault>
        requires { length names.now ≡ length self.now.inputs.items }
        ensures checked { CheckedOverFolders (bundled_of self.now) (includes_of self.now)
            (inputs_of self.now) (map path_buf_text names.now) result }
    {
        let alloc = rt.alloc();
        let folders = text_slices(alloc, &self.includes)?;
        let resolver = fs_resolver(rt, alloc, &folders)?;
        let reader = FsReader::new(rt);
        let given = place_inputs(alloc, &self.inputs, names)?;
        let log = check_inputs(alloc, &given, &resolver, &reader, self.bundled());
        let CheckLog { reads: _, result } = log;
        match result {
            Ok(check) => Ok(check),
            Err(_) => Err(RunFault::Memory),
        }
    }

    /// The table of the bundled files.
    fn bundled(&self) -> &'static [(&'static str, &'static str)]
        ensures { rows result.now ≡ bundled_of self.now }
    {
        if self.google_files {
            google_files()
        } else {
            bundled_files()
        }
    }
}

/// What a run read, and the descriptors that it made.
#[derive(Drop)]
struct LoggedRun {
    reads: Vec<ReadEntry>,
    files: Vec<FileDescriptorProto>,
}

/// The descriptors of a run with its reads, or its fault.
fn with_reads(log: RunLog) -> Result<LoggedRun, RunFault>
    ensures { files_of_run result ≡ log.result }
{
    let RunLog {
        reads,
        meets: _,
        result,
    } = log;
    match result {
        Ok(files) => Ok(LoggedRun { reads, files }),
        Err(fault) => Err(fault),
    }
}

/// The descriptors without the reads, or the fault.
fn files_alone(run: Result<LoggedRun, RunFault>) -> Result<Vec<FileDescriptorProto>, RunFault>
    ensures { result ≡ files_of_run run }
{
    match run {
        Ok(LoggedRun { reads: _, files }) => Ok(files),
        Err(fault) => Err(fault),
    }
}

/// Adds a copy of the text, or leaves the texts as they were.
fn push_text(texts: &mut Vec<String>, text: &str) -> Result<(), AllocError>
    ensures added { OnOk result (map string_bytes texts.new.items
        ≡ map string_bytes texts.old.items ++ text.now ∷ []) }
    ensures kept { OnErr result (texts.new.items ≡ texts.old.items) }
{
    let copy = String::from_str(*texts.allocator(), text)?;
    texts.push(copy)?;
    Ok(())
}

/// Adds copies of the texts, or leaves them as they were.
fn push_texts(texts: &mut Vec<String>, others: &[&str]) -> Result<(), AllocError>
    ensures added { OnOk result (map string_bytes texts.new.items
        ≡ map string_bytes texts.old.items ++ part_views others.now) }
    ensures kept { OnErr result (texts.new.items ≡ texts.old.items) }
{
    let mut copies = copy_texts(*texts.allocator(), others)?;
    texts.append(&mut copies)?;
    Ok(())
}

/// The texts, lent.
fn text_slices<'a>(alloc: Global, texts: &'a [String]) -> Result<Vec<&'a str>, AllocError>
    ensures { IfOk result (λ v. part_views v.items ≡ map string_bytes texts.now) }
{
    let mut slices = Vec::with_capacity(alloc, texts.len())?;
    for text in texts {
        slices.push(text.as_str())?;
    }
    Ok(slices)
}

/// Each input at its own path, by its proto path.
fn place_inputs(
    alloc: Global,
    inputs: &[String],
    names: &[ProtoPathBuf],
) -> Result<Vec<RunInput>, AllocError>
    requires { length names.now ≡ length inputs.now }
    ensures { IfOk result (λ v. map input_view v.items
        ≡ inputs_at (map path_buf_text names.now) (map string_bytes inputs.now)) }
{
    let mut given = Vec::new(alloc);
    for i in 0..inputs.len() {
        let name = names[i].as_path().to_proto_path_buf(alloc)?;
        let fs_path = String::from_str(alloc, &inputs[i])?;
        given.push(RunInput::At { name, fs_path })?;
    }
    Ok(given)
}

/// Those of the files whose name is one of these proto paths, in order: of what a run or a check of
/// inputs has, the descriptors of the inputs alone. The one error is that memory is short.
#[tactic(auto, using(crate::proofs::Building::kept_one, crate::proofs::Building::left_one))]
pub fn files_of_inputs(
    alloc: Global,
    names: &[ProtoPathBuf],
    files: Vec<FileDescriptorProto>,
) -> Result<Vec<FileDescriptorProto>, AllocError>
    ensures { IfOk result (λ v.
        v.items ≡ filter (is_of_input (map path_buf_text names.now)) files.items) }
{
    let inputs = set_of_names(alloc, names)?;
    let mut kept = Vec::new(alloc);
    for file in files {
        if is_input(&inputs, &file.name) {
            kept.push(file)?;
        }
    }
    Ok(kept)
}

/// The names as a set.
fn set_of_names(alloc: Global, names: &[ProtoPathBuf]) -> Result<BTreeSet<String>, AllocError>
    ensures { IfOk result (λ s. HasNames s (map path_buf_text names.now)) }
{
    let mut set = BTreeSet::new(alloc);
    for name in names {
        set.insert(String::from_str(alloc, name.as_path().to_str())?)?;
    }
    Ok(set)
}

/// Whether the name is one of the set.
fn is_input(inputs: &BTreeSet<String>, name: &Option<String>) -> bool
    ensures { (names : List Text) → HasNames inputs.now names →
        result ≡ is_name_among names (option_map string_bytes name.now) }
{
    match name {
        Some(name) => inputs.contains(name.as_str()),
        None => false,
    }
}
