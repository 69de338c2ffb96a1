//! Tests of descriptor sets that are read: records, sets, the rules of sets, and descriptors as texts.
//! Nothing but tests stands here.
#![tactic(auto)]

#[cfg(test)]
mod proto_text;
#[cfg(test)]
mod records;
#[cfg(test)]
mod set_reader;
#[cfg(test)]
mod set_rules;
