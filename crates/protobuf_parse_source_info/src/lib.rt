//! Where the constructs of a `.proto` file stand in its text, and which comments are theirs: what
//! `SourceCodeInfo` of `descriptor.proto` has. It is a pass of its own over the tokens of a text,
//! which the tree directs.
#![tactic(auto)]

mod counts;
mod found;
mod info;
mod laws;
mod locate;
mod token;
mod walker;

pub use info::{Location, SourceCodeInfo, Span, source_info};
pub use laws::tokens_have_points;
pub use protobuf_parse_comments::BytePlace;
