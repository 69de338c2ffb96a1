//! Why there is no merged message.

ghost use Rattle.std.specs.Prelude.{◌≡◌};
ghost use Rattle.protobuf_parse_merged.specs.declared.fault.MergeError.TheVariants.{Memory};

use std::alloc::{AllocError, AllocFailed};
use thiserror::Error;

/// Why there is no merged message.
#[derive(Clone, Copy, Debug, PartialEq, Eq, Error)]
pub enum MergeError {
    #[error("out of memory")]
    Memory,
    /// A message or a group inside 101 others, the outermost one among them. What the decoder gives
    /// has none such.
    #[error("more than 100 messages stand inside one another")]
    TooDeep,
}

impl From<AllocError> for MergeError {
    ghost from_gives = { λ _ e. e ≡ Memory };

    fn from(_error: AllocError) -> MergeError {
        MergeError::Memory
    }
}

impl<T: Drop> From<AllocFailed<T>> for MergeError {
    ghost from_gives = { λ _ e. e ≡ Memory };

    fn from(_error: AllocFailed<T>) -> MergeError {
        MergeError::Memory
    }
}
