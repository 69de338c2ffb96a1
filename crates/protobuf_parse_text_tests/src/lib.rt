//! Tests of what is read off one text: comments, places, faults behind the first one, rules of texts
//! and names, and paths of options. Nothing but tests stands here.
#![tactic(auto)]

#[cfg(test)]
mod comments;
#[cfg(test)]
mod expected;
#[cfg(test)]
mod locations;
#[cfg(test)]
mod name_rules;
#[cfg(test)]
mod option_paths;
#[cfg(test)]
mod recovery;
#[cfg(test)]
mod source_info;
#[cfg(test)]
mod text_rules;
