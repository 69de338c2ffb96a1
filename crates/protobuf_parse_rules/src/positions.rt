//! Positions in a list, which numbers may name.

ghost use Rattle.std.specs.Prelude.{◌≡◌, ℕ, ℤ, ◌<◌, IfOk, List};
ghost use Rattle.protobuf_parse_rules.specs.Marks as spec;
ghost use Rattle.protobuf_parse_rules.specs.Marks.{Marks};
ghost use Rattle.protobuf_parse_rules.specs.Positions.{is_named};

use std::alloc::{AllocError, Global};

/// Of each of so many positions, whether one of the numbers names it.
pub fn marks_of(alloc: Global, numbers: &[i32], count: usize) -> Result<Vec<bool>, AllocError>
    ensures { IfOk result (λ marks. Marks numbers.now count marks.items) }
{
    let mut marks = vec![in alloc; false; count]?;
    'numbers: for number in numbers {
        match named_among(count, number) {
            Some(position) => {
                marks[position] = true;
            }
            None => {}
        }
    }
    Ok(marks)
}

/// The position that the number names, among so many.
fn named_among(count: usize, number: &i32) -> Option<usize>
    ensures { result ≡ spec.named_among count number.now }
{
    if *number >= 0 {
        let position = number.unsigned_abs() as usize;
        if position < count {
            Some(position)
        } else {
            None
        }
    } else {
        None
    }
}

/// Whether the position is marked.
pub fn is_marked(marks: &[bool], position: usize) -> bool
    ensures { (numbers : List ℤ) (count : ℕ) → Marks numbers count marks.now → position < count →
        result ≡ is_named numbers position }
{
    match marks.get(position) {
        Some(mark) => *mark,
        None => false,
    }
}
