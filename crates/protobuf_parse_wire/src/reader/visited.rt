//! The messages that were entered, so that the fields of each are found by their numbers once.

ghost use Rattle.std.specs.Prelude.{OnOk};
ghost use Rattle.std.specs.Option.{option_copied};
ghost use Rattle.protobuf_parse_wire.specs.Reading.{ReaderGives};
ghost use Rattle.protobuf_parse_wire.specs.Indexed.{Remembers, entered_by, numbered};

use super::index::Index;
use super::numbers::{self, ByNumber};
use crate::fault::ReadFault;
use std::alloc::Global;
use std::collections::BTreeMap;
use std::rc::Rc;

/// The fields of messages by their numbers, under the names of the messages.
#[derive(Drop)]
pub struct Visited<'a> {
    pub by_name: BTreeMap<String, Rc<ByNumber<'a>>>,
}

/// No message was entered.
pub fn none<'a>(alloc: Global) -> Visited<'a>
    ensures { (index : Index) → Remembers index result }
{
    Visited {
        by_name: BTreeMap::new(alloc),
    }
}

/// The fields and the extensions of the one message that has the name, by their numbers.
pub fn enter<'a>(
    alloc: Global,
    index: &Index<'a>,
    visited: &mut Visited<'a>,
    name: Option<&str>,
) -> Result<Rc<ByNumber<'a>>, ReadFault>
    requires { Remembers index.now visited.old }
    ensures gives { ReaderGives (λ n. numbered n.value) result
        (entered_by index.now (option_copied name.entry)) }
    ensures kept { OnOk result (Remembers index.now visited.new) }
{
    let Some(name) = name else {
        return Err(ReadFault::UnknownMessage);
    };
    if let Some(numbers) = visited.by_name.get(name) {
        return Ok(numbers.clone()?);
    }
    let numbers = Rc::new(alloc, numbers::numbers_of(alloc, index, name)?)?;
    let key = String::from_str(alloc, name)?;
    visited.by_name.insert(key, numbers.clone()?)?;
    Ok(numbers)
}
