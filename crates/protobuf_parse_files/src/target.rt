//! How a file is written, by what is seen of it.

ghost use Rattle.std.specs.Prelude.{◌≡◌, ◌≢◌, ◌↔◌, ℕ, bit_and, IsTrue, Option};
ghost use Rattle.protobuf_parse_files.specs.Target.{MayBeReplaced, IsReplaced, old_mode};
ghost use Rattle.protobuf_parse_files.specs.Target.{IsFolderAt, IsReadOnlyAt, IsWritable};

/// What stands at a path, links followed.
#[derive(Clone, Copy, Debug, PartialEq, Eq)]
pub enum Found {
    Nothing,
    Folder,
    /// A regular file: its mode, as `chmod` counts, and how many names it has.
    File { mode: u32, names: u64 },
    /// A device, a pipe, or the like.
    Other,
}

/// How a path leads there.
#[derive(Clone, Copy, Debug, PartialEq, Eq)]
pub enum Way {
    /// By names.
    Named,
    /// Through a link of `/proc`, to a file that is open already.
    Open,
    /// To the very file that standard output is.
    Output,
    /// To the very file that standard error is.
    Errors,
}

/// What is seen of a target.
#[derive(Clone, Copy, Debug, PartialEq, Eq)]
pub struct Seen {
    pub found: Found,
    pub way: Way,
    /// Whether its folder takes a new file, of the same owner as the one that is there.
    pub takes_files: bool,
}

/// Why a target is left as it is.
#[derive(Clone, Copy, Debug, PartialEq, Eq)]
pub enum Refusal {
    IsFolder,
    /// Nobody may write to it.
    ReadOnly,
}

/// How a target is written.
#[derive(Clone, Copy, Debug, PartialEq, Eq)]
pub enum How {
    /// To standard output.
    ToOutput,
    /// To standard error.
    ToErrors,
    /// A new file takes its place, of this mode; without one, of the usual mode.
    Replaced { mode: Option<u32> },
    /// It is opened as it stands, and written.
    InPlace,
    Refused(Refusal),
}

/// The bits of a mode that let somebody write.
const WRITE_BITS: u32 = 0o222;

/// Whether somebody may write to a file of this mode.
fn is_writable(mode: u32) -> bool
    ensures { IsTrue result ↔ IsWritable mode }
{
    mode & WRITE_BITS != 0
}

/// Whether a new file may take the place of what stands there, if its folder takes one: of nothing,
/// or of a file that has no other name and that somebody may write to.
pub fn may_be_replaced(found: Found, way: Way) -> bool
    ensures { IsTrue result ↔ MayBeReplaced found way }
{
    if way != Way::Named {
        return false;
    }
    match found {
        Found::Nothing => true,
        Found::File { mode, names } => names < 2 && is_writable(mode),
        Found::Folder | Found::Other => false,
    }
}

/// How a target is written. What stands there is replaced where that can be, so that the old file
/// stands or the new one; else it is written as it stands.
pub fn how_to_write(seen: &Seen) -> How
    // The standard streams are written to as they are.
    ensures output { (result ≡ How.ToOutput) ↔ (seen.now.way ≡ Way.Output) }
    ensures errors { (result ≡ How.ToErrors) ↔ (seen.now.way ≡ Way.Errors) }

    // A folder is left alone, and so is a file that nobody may write to.
    ensures folder { (result ≡ How.Refused Refusal.IsFolder) ↔ IsFolderAt seen.now }
    ensures read_only { (result ≡ How.Refused Refusal.ReadOnly) ↔ IsReadOnlyAt seen.now }

    // A new file has the mode of the old one.
    ensures replaced { (mode : Option ℕ) → (result ≡ How.Replaced mode)
        ↔ (IsReplaced seen.now × (mode ≡ old_mode seen.now.found)) }
{
    match seen.way {
        Way::Output => return How::ToOutput,
        Way::Errors => return How::ToErrors,
        Way::Named | Way::Open => {}
    }
    let replaced = seen.takes_files && may_be_replaced(seen.found, seen.way);
    match seen.found {
        Found::Folder => How::Refused(Refusal::IsFolder),
        Found::File { mode, names: _ } if !is_writable(mode) => How::Refused(Refusal::ReadOnly),
        Found::File { mode, names: _ } if replaced => How::Replaced { mode: Some(mode) },
        Found::Nothing if replaced => How::Replaced { mode: None },
        _ => How::InPlace,
    }
}
