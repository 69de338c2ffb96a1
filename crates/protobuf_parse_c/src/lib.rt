//! `protobuf_parse` for C, and for all that can call C: a static library. `include/protobuf_parse.h`
//! has what C sees of it, and docs/c.md says how it is built, linked and called.
//!
//! What crosses are slices, which C passes as a pointer and a length, and structs of these and of
//! numbers. Nothing of the library's is kept between calls, so that each call is independent, and
//! several threads may call at once.
#![tactic(auto)]

mod compile;
mod copied;
mod handed;
mod imports;
mod infos;
mod shapes;
#[cfg(test)]
mod tests;
mod told;

ghost use Rattle.std.specs.Prelude.{◌≡◌, map, pos, take};
ghost use Rattle.protobuf_parse_c.specs.Handed.{file_bytes, text_bytes};
ghost use Rattle.protobuf_parse_c.specs.Answers.{IsCompiled};

use crate::compile::compiled;
use crate::copied::copy_answer;
use crate::imports::imported;
use crate::shapes::{PbFault, PbFile, PbSizes, PbSpan, PbText};
use std::alloc::Global;

/// The status of a call that did what it was asked for.
pub const DONE: i32 = 0;

/// That of a call that tells an error.
pub const REFUSED: i32 = 1;

/// That of a call for which there is too little room.
pub const NO_ROOM: i32 = 2;

/// That of a call for which there is too little memory.
pub const NO_MEMORY: i32 = 3;

/// The version of this interface: 1,000,000 for a major one, 1,000 for a minor one.
const VERSION: i32 = 1000;

/// The bit of `flags` by which files have their source info.
const SOURCE_INFO: u32 = 1;

/// Compiles the inputs and all that they reach.
///
/// `files` are all files that may be imported, by their proto paths; Google's, which the library
/// brings, may be left out. `inputs` are proto paths. With bit 0 of `flags` the files of the set have
/// their source info, as `protoc --include_source_info` writes it.
///
/// 0: `set` begins with a `FileDescriptorSet` of all files, imports first, and `faults` are warnings.
/// 1: `faults` tell errors. 2: a room is too small. 3: memory is short. `sizes` says how much of each
/// room is used, or with 2 is wanted; all of it is 0 with 3. With 2 and 3 nothing is written but
/// `sizes`. The texts of faults stand in `texts`.
#[unsafe(no_mangle)]
pub extern "C" fn protobuf_parse_compile(
    alloc: Global,
    files: &[PbFile<'_>],
    inputs: &[PbText<'_>],
    flags: u32,
    set: &mut [u8],
    texts: &mut [u8],
    faults: &mut [PbFault],
    sizes: &mut PbSizes,
) -> i32
    ensures set { result ≡ pos 0 → IsCompiled (map file_bytes files.now)
        (map text_bytes inputs.now) (take sizes.new.set set.new) }
    ensures no_room { result ≡ pos 2
        → (set.new ≡ set.old) × (texts.new ≡ texts.old) × (faults.new ≡ faults.old) }
    ensures no_memory { result ≡ pos 3
        → (set.new ≡ set.old) × (texts.new ≡ texts.old) × (faults.new ≡ faults.old) }
{
    match compiled(alloc, files, inputs, flags & SOURCE_INFO != 0) {
        Ok(answer) => copy_answer(&answer, set, texts, faults, sizes),
        Err(_) => {
            *sizes = PbSizes {
                set: 0,
                texts: 0,
                faults: 0,
            };
            NO_MEMORY
        }
    }
}

/// What the text of a file imports, in the order of its statements, so that whoever calls can bring
/// these files before it compiles.
///
/// 0: each of `imports` is a proto path that stands in `texts`. 1: the text has no tree, and
/// compiling it tells why. 2: a room is too small. 3: memory is short. `sizes` is used as by
/// [`protobuf_parse_compile`], with the imports in the place of faults.
#[unsafe(no_mangle)]
pub extern "C" fn protobuf_parse_imports(
    alloc: Global,
    text: &[u8],
    texts: &mut [u8],
    imports: &mut [PbSpan],
    sizes: &mut PbSizes,
) -> i32 {
    imported(alloc, text, texts, imports, sizes)
}

/// The version of the library: 1000 is 0.1.0.
#[unsafe(no_mangle)]
pub extern "C" fn protobuf_parse_version() -> i32
    ensures { result ≡ pos 1000 }
{
    VERSION
}
