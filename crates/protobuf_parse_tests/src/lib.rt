//! Tests of what can't be a case: names and paths as values, descriptors made by hand, values of
//! entries, an index, and schemas that a caller holds in memory. Nothing but tests stands here;
//! those of runs over files are `protobuf_parse_run_tests`, and the tables of texts are cases of
//! `protobuf_parse_cases`.
#![tactic(auto)]

#[cfg(test)]
mod declared_names;
#[cfg(test)]
mod encoding;
#[cfg(test)]
mod filling;
#[cfg(test)]
mod hashing;
#[cfg(test)]
mod indexing;
#[cfg(test)]
mod linting;
#[cfg(test)]
mod listed;
#[cfg(test)]
mod names;
#[cfg(test)]
mod proto_path;
#[cfg(test)]
mod reading;
#[cfg(test)]
mod registry;
#[cfg(test)]
mod sets;
#[cfg(test)]
mod spellings;
