//! Which of the loaded files a file reaches, sees and hands on, as ascending numbers.

ghost use Rattle.std.specs.Prelude.{◌≡◌, IfOk, slice_get};
ghost use Rattle.protobuf_parse_run.specs.declared.reach.Held.TheVariants as held_as;
ghost use Rattle.protobuf_parse_run.specs.Loading as loading;
ghost use Rattle.protobuf_parse_run.specs.Loading.{AreJoined, held_by};

use crate::loaded::LoadedFiles;
use crate::loader::LoadedFile;
use std::alloc::{AllocError, Global};

/// Which numbers of a loaded file.
#[derive(Clone, Copy)]
pub enum Held {
    /// Of the files that it reaches.
    Reach,
    /// Of the files that it hands on to those that import it.
    HandedOn,
}

/// The numbers of the files that a file reaches, sees and hands on, each list ascending and with
/// its own.
#[derive(Drop)]
pub struct Sights {
    pub reach: Vec<u32>,
    pub sight: Vec<u32>,
    pub handed_on: Vec<u32>,
}

/// The numbers of the files that a file imports, and of those that it imports publicly.
#[derive(Clone, Copy)]
pub struct ImportNumbers<'a> {
    pub all: &'a [u32],
    pub public: &'a [u32],
}

/// What the next file to be loaded reaches, sees and hands on, where its imports have these
/// numbers.
pub fn sights_of(
    alloc: Global,
    loaded: &LoadedFiles,
    imports: &ImportNumbers<'_>,
) -> Result<Sights, AllocError>
    ensures reach { IfOk result
        (λ s. AreJoined held_as.Reach loaded.now.entries imports.now.all.now s.reach.items) }
    ensures sight { IfOk result
        (λ s. AreJoined held_as.HandedOn loaded.now.entries imports.now.all.now s.sight.items) }
    ensures handed_on { IfOk result
        (λ s. AreJoined held_as.HandedOn loaded.now.entries imports.now.public.now
        s.handed_on.items) }
{
    let reach = joined(alloc, loaded, imports.all, Held::Reach)?;
    let sight = joined(alloc, loaded, imports.all, Held::HandedOn)?;
    let handed_on = joined(alloc, loaded, imports.public, Held::HandedOn)?;
    Ok(Sights {
        reach,
        sight,
        handed_on,
    })
}

/// The numbers that these files hold, and that of the next file, each once. The files' lists
/// ascend, so the sort merges them.
fn joined(
    alloc: Global,
    loaded: &LoadedFiles,
    files: &[u32],
    which: Held,
) -> Result<Vec<u32>, AllocError>
    ensures { IfOk result (λ v. AreJoined which loaded.now.entries files.now v.items) }
{
    let mut numbers = gathered(alloc, loaded, files, which)?;
    numbers.sort()?;
    numbers.dedup();
    numbers.shrink_to_fit();
    Ok(numbers)
}

/// The numbers that each of these files holds, one file after another, and then that of the next
/// file.
fn gathered(
    alloc: Global,
    loaded: &LoadedFiles,
    files: &[u32],
    which: Held,
) -> Result<Vec<u32>, AllocError>
    ensures { IfOk result (λ v. v.items ≡ held_by which loaded.now.entries files.now) }
{
    let mut numbers = Vec::new(alloc);
    for file in files {
        numbers.extend_from_slice(held_at(loaded, *file, which))?;
    }
    numbers.push(loaded.len())?;
    Ok(numbers)
}

/// The numbers that the file with this number holds.
fn held_at(loaded: &LoadedFiles, number: u32, which: Held) -> &[u32]
    ensures { result.now ≡ loading.held_at which (slice_get loaded.now.entries number) }
{
    match loaded.at(number) {
        Some((_, file)) => numbers_in(file, which),
        None => &[],
    }
}

/// Those numbers of a loaded file.
fn numbers_in(file: &LoadedFile, which: Held) -> &[u32]
    ensures { result.now ≡ loading.held which file.now }
{
    match which {
        Held::Reach => file.reach.as_slice(),
        Held::HandedOn => file.handed_on.as_slice(),
    }
}
