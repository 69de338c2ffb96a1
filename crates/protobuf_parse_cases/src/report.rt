//! Which cases of a file are as they should be.

use crate::cases::{Case, Row, cases_of};
use crate::notation::shown;
use anyhow::{Context, Result};
use std::alloc::{AllocError, Global};

/// What is printed for a file of cases.
#[derive(Drop)]
pub struct Report {
    pub text: String,
    /// Whether the file can be read, has rows, and each answer is the one that is wanted.
    pub is_well: bool,
}

/// What answers the runs of cases.
pub trait Answers {
    /// The answer of one run.
    fn answer(&self, alloc: Global, case: &Case, row: &Row) -> Result<Vec<u8>>;
}

/// The rows of the file whose answer is another than the one that is wanted, and how many are as
/// they should be.
pub fn report_of<A: Answers>(
    alloc: Global,
    name: &str,
    content: &[u8],
    answers: &A,
) -> Result<Report, AllocError> {
    let mut text = String::new(alloc);
    let cases = match cases_of(alloc, content) {
        Ok(cases) => cases,
        Err(error) => {
            write!(&mut text, "{name} can't be read: {error:#}\n")?;
            return Ok(Report {
                text,
                is_well: false,
            });
        }
    };
    let mut count = 0u64;
    let mut well = 0u64;
    for case in &cases {
        for row in &case.rows {
            count = count.saturating_add(1);
            if is_answered(alloc, &mut text, name, case, row, answers)? {
                well = well.saturating_add(1);
            }
        }
    }
    write!(&mut text, "{name}: {well} of {count}\n")?;
    Ok(Report {
        text,
        is_well: count > 0 && well == count,
    })
}

/// Whether the answer is the one that is wanted; if not, both are put to the text.
fn is_answered<A: Answers>(
    alloc: Global,
    text: &mut String,
    name: &str,
    case: &Case,
    row: &Row,
    answers: &A,
) -> Result<bool, AllocError> {
    let found = match answers.answer(alloc, case, row) {
        Ok(found) if found == row.wanted => return Ok(true),
        Ok(found) => shown(alloc, &found)?,
        Err(error) => format!(in alloc; "no answer: {error:#}")?,
    };
    let wanted = shown(alloc, &row.wanted)?;
    let line = row.line;
    let case = &case.name;
    write!(
        text,
        "{name}:{line}: {case}\nwanted: {wanted}\nfound: {found}\n"
    )?;
    Ok(false)
}
