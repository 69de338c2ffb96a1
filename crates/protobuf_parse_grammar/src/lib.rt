//! What grammars are written with: relations between lists of tokens and what they say, and readers
//! of lists of tokens, each with the laws that tie it to its relation. Everything here is a
//! definition or a law of `specs/`, for the contracts and proofs of the crates above; nothing runs.
#![tactic(auto)]
