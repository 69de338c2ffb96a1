//! From where constructs are seen.

use protobuf_parse_model::Context;
use std::alloc::Global;

/// From where constructs are seen, and who says what their custom options become.
#[derive(Drop)]
pub struct Viewpoint<'a, 'c, C> {
    pub alloc: Global,
    pub context: Context<'a>,
    pub custom: &'c C,
}
