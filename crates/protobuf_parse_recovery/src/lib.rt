//! Several faults of syntax of one text. The parser stops at the first; here the statement that
//! holds it is taken for blanks, and the text is parsed anew.
#![tactic(auto)]

mod faults;
mod laws;
mod masking;
mod statement;

pub use faults::{MOST_FAULTS, Reading, Rest, parse_faults, read_on};
pub use laws::{faults_are_of_the_text, places_stay};
pub use masking::mask;
