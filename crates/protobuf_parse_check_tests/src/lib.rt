//! Tests of checks: whole reports of small files, as a person works them out by the rules. Nothing
//! but tests stands here.
#![tactic(auto)]

#[cfg(test)]
mod chains;
#[cfg(test)]
mod customs;
#[cfg(test)]
mod cycles;
#[cfg(test)]
mod descriptors;
#[cfg(test)]
mod hidden;
#[cfg(test)]
mod inputs;
#[cfg(test)]
mod listing;
#[cfg(test)]
mod many;
#[cfg(test)]
mod missing;
#[cfg(test)]
mod reads;
#[cfg(test)]
mod repeats;
#[cfg(test)]
mod shelf;
#[cfg(test)]
mod states;
