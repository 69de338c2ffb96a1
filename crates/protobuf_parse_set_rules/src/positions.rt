//! Positions in lists.

ghost use Rattle.std.specs.Prelude.{◌≡◌, ℕ, List, IfOk, OnOk, bytes_eq, if◌then◌else◌};
ghost use Rattle.std.specs.Prelude.{Some, None, map, option_map, string_bytes};
ghost use Rattle.std.specs.Borrow.{Bor};
ghost use Rattle.protobuf_parse_model.specs.Descriptors.{Text};
ghost use Rattle.std.specs.Option.{option_or};
ghost use Rattle.protobuf_parse_set_rules.specs.Positions as spec;
ghost use Rattle.protobuf_parse_set_rules.specs.Held.{positions_view, texts_of};

use std::alloc::{AllocError, Global};
use std::collections::BTreeMap;

/// The positions of texts in a list: of those that are one, that of the first.
pub type Positions<'a> = BTreeMap<&'a str, usize>;

/// Those of these texts.
pub fn positions_of<'a>(alloc: Global, texts: &[&'a str]) -> Result<Positions<'a>, AllocError>
    ensures { IfOk result (λ m. positions_view m ≡ spec.position_in (texts_of texts.now)) }
{
    let mut positions = BTreeMap::new(alloc);
    'texts: for (position, text) in texts.iter().enumerate() {
        put(&mut positions, text, position)?;
    }
    Ok(positions)
}

/// The text has the position, unless it has one already.
fn put<'a>(positions: &mut Positions<'a>, text: &'a str, position: usize) -> Result<(), AllocError>
    ensures { OnOk result ((other : List ℕ) → positions_view positions.new other
        ≡ option_or (positions_view positions.old other)
        (if bytes_eq text.now other then Some position else None)) }
{
    match positions.get(text) {
        Some(_first) => Ok(()),
        None => {
            positions.insert(text, position)?;
            Ok(())
        }
    }
}

/// Whether the number is a position among so many.
pub fn is_position(count: usize, number: &i32) -> bool
    ensures { result ≡ spec.is_position count number.now }
{
    if *number >= 0 {
        (number.unsigned_abs() as usize) < count
    } else {
        false
    }
}

/// What stands at the position, if it is one.
pub fn text_at<'a>(texts: &'a [String], number: &i32) -> Option<&'a str>
    ensures { option_map (λ (t : Bor Text). t.now) result
        ≡ spec.at_index (map string_bytes texts.now) number.now }
{
    if *number >= 0 {
        match texts.get(number.unsigned_abs() as usize) {
            Some(text) => Some(text.as_str()),
            None => None,
        }
    } else {
        None
    }
}
