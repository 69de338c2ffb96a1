//! The loaded files: in the order in which they were loaded, and found by their paths.

ghost use Rattle.std.specs.Prelude.{◌≡◌, ◌++◌, ◌∷◌, ◌^◌, ◌<◌, [], length, slice_get, IfOk, OnErr};
ghost use Rattle.std.specs.Prelude.{option_map};
ghost use Rattle.std.specs.Option.{option_copied};
ghost use Rattle.protobuf_parse_run.specs.Loading.{file_at};
ghost use Rattle.protobuf_parse_run.specs.Loaded.{number_in};

use crate::loader::LoadedFile;
use std::alloc::{AllocError, Global};
use std::collections::BTreeMap;
use std::marker::Model;

/// How many files may be loaded: their numbers have four bytes.
const MOST: u32 = 2147483647;

/// The loaded files, each with its proto path, in the order in which they were loaded.
#[derive(Drop)]
pub struct LoadedFiles {
    entries: Vec<(String, LoadedFile)>,
    /// The number of the first file of each path. The map is ordered, since paths come from
    /// strangers, who could choose many with one hash.
    numbers: BTreeMap<String, u32>,
}

impl Model for LoadedFiles {
    ghost use Rattle.std.specs.Coded.{codes};
    ghost use Rattle.protobuf_parse_run.specs.contracts.loader.LoadedFile as file;
    ghost use Rattle.protobuf_parse_run.specs.Loaded.{LoadedList, HasSmallNumbers};

    ghost Value = { LoadedList };

    ghost coded = { Prim.hlevel (codes, file.the_row.coded) };

    ghost view = { λ a. record { entries = a.entries.items } };

    ghost invariant = { λ a. HasSmallNumbers a.numbers a.entries.items };
}

impl LoadedFiles {
    /// No files.
    pub fn new(alloc: Global) -> Self
        ensures { result.entries ≡ [] }
    {
        LoadedFiles {
            entries: Vec::new(alloc),
            numbers: BTreeMap::new(alloc),
        }
    }

    /// How many files there are.
    pub fn len(&self) -> u32
        ensures len { result ≡ length self.now.entries }
        ensures small { result < 2 ^ 31 }
    {
        self.entries.len() as u32
    }

    /// The path and the file with this number.
    pub fn at(&self, number: u32) -> Option<&(String, LoadedFile)>
        ensures { option_copied result ≡ slice_get self.now.entries number }
    {
        self.entries.get(number as usize)
    }

    /// The first file of this path, and its number.
    pub fn find(&self, path: &str) -> Option<(u32, &LoadedFile)>
        ensures number { option_map (λ f. f.0) result ≡ number_in path.now self.now.entries }
        ensures value { option_map (λ f. f.1.now) result ≡ file_at path.now self.now.entries }
    {
        let number = *self.numbers.get(path)?;
        let (_, file) = self.at(number)?;
        Some((number, file))
    }

    /// Adds a file behind the others, and gives its number. Where memory is short, nothing is
    /// added; it is for over 2147483647 files.
    pub fn add(&mut self, path: String, file: LoadedFile) -> Result<u32, AllocError>
        ensures number { IfOk result (λ number. number ≡ length self.old.entries) }
        ensures added { IfOk result
            (λ number. self.new.entries ≡ self.old.entries ++ (path, file) ∷ []) }
        ensures err { OnErr result (self.new.entries ≡ self.old.entries) }
    {
        let number = self.len();
        if number == MOST {
            return Err(AllocError);
        }
        let key = path.clone()?;
        self.entries.reserve(1)?;
        self.numbers.entry(key)?.or_insert(number);
        self.entries.push_reserved((path, file));
        Ok(number)
    }

    /// The paths and the files, in their order.
    pub fn into_entries(self) -> Vec<(String, LoadedFile)>
        ensures { result.items ≡ self.entries }
    {
        let LoadedFiles {
            entries,
            numbers: _,
        } = self;
        entries
    }
}
