//! The files of a check in which, and below which, nothing is wrong.

ghost use Rattle.std.specs.Prelude.{◌≡◌, IfOk, filter, map};
ghost use Rattle.protobuf_parse_command.specs.Sound.{descriptor_in, is_sound, tree_in};

use protobuf_parse::{FileDescriptorProto, FileReport, FileState};
use protobuf_parse_diagnostics::NamedTree;
use std::alloc::{AllocError, Global};

/// What is known of sound files, in the order of their reports.
#[derive(Drop)]
pub struct SoundFiles {
    pub files: Vec<FileDescriptorProto>,
    pub trees: Vec<NamedTree>,
}

/// The descriptors and the trees of those files that are sound.
#[tactic(auto, using(crate::proofs::Sounding::sound_one, crate::proofs::Sounding::other_one))]
pub fn sound_files(alloc: Global, reports: Vec<FileReport>) -> Result<SoundFiles, AllocError>
    ensures files { IfOk result (λ sound.
        sound.files.items ≡ map descriptor_in (filter is_sound reports.items)) }
    ensures trees { IfOk result (λ sound.
        sound.trees.items ≡ map tree_in (filter is_sound reports.items)) }
{
    let mut files = Vec::new(alloc);
    let mut trees = Vec::new(alloc);
    for report in reports {
        if is_sound(&report) {
            let FileReport {
                path,
                tree,
                descriptor,
                ..
            } = report;
            files.push(descriptor)?;
            trees.push(NamedTree { path, tree })?;
        }
    }
    Ok(SoundFiles { files, trees })
}

/// Whether nothing is wrong in the file, and in all that it reaches.
pub fn is_sound(report: &FileReport) -> bool
    ensures { result ≡ is_sound report.now }
{
    match report.state {
        FileState::Sound => true,
        FileState::HeldUp | FileState::Faulty => false,
    }
}
