//! How many of many ranges have a number.

ghost use Rattle.std.specs.Prelude.{◌≡◌, ◌+◌, ◌++◌, [], ◌∷◌, ℤ, Bool, List, int_lt, nat_lt, OnOk};
ghost use Rattle.std.specs.Prelude.{IsSorted};
ghost use Rattle.std.specs.List.{count_by, list_any};
ghost use Rattle.std.specs.Ordering.{int_cmp};
ghost use Rattle.std.proofs.Props.{props};
ghost use Rattle.protobuf_parse_model.specs.Descriptors.{Range};
ghost use Rattle.protobuf_parse_rules.specs.Covers.{AreApart, AreEnds, begun, ended};
ghost use Rattle.protobuf_parse_rules.specs.Enums.{in_closed_range};
ghost use Rattle.protobuf_parse_rules.specs.Ranges.{in_range};

use std::alloc::{AllocError, Global};

/// The first and the last numbers of ranges that have any.
#[derive(Drop)]
pub struct Ends {
    pub firsts: Vec<i32>,
    pub lasts: Vec<i32>,
}

/// Those of no ranges.
pub fn no_ends(alloc: Global) -> Ends
    ensures { (has : ℤ → Range → Bool) → AreEnds has [] result.firsts.items result.lasts.items }
{
    Ends {
        firsts: Vec::new(alloc),
        lasts: Vec::new(alloc),
    }
}

/// One range more, which ends before its `end`.
pub fn add_open(ends: &mut Ends, start: &i32, end: &i32) -> Result<(), AllocError>
    ensures { OnOk result ((ranges : List Range)
        → AreEnds in_range ranges ends.old.firsts.items ends.old.lasts.items
        → AreEnds in_range (ranges ++ record { start = start.now; end = end.now } ∷ [])
        ends.new.firsts.items ends.new.lasts.items) }
{
    if is_below(start, end) {
        ends.firsts.push(*start)?;
        ends.lasts.push(*end - 1)?;
    }
    Ok(())
}

/// One range more, which ends at its `end`.
pub fn add_closed(ends: &mut Ends, start: &i32, end: &i32) -> Result<(), AllocError>
    ensures { OnOk result ((ranges : List Range)
        → AreEnds in_closed_range ranges ends.old.firsts.items ends.old.lasts.items
        → AreEnds in_closed_range (ranges ++ record { start = start.now; end = end.now } ∷ [])
        ends.new.firsts.items ends.new.lasts.items) }
{
    if !is_below(end, start) {
        ends.firsts.push(*start)?;
        ends.lasts.push(*end)?;
    }
    Ok(())
}

/// Whether the first number is below the second.
pub fn is_below(a: &i32, b: &i32) -> bool
    ensures { result ≡ int_lt a.now b.now }
{
    *a < *b
}

/// The first and the last numbers of ranges, each in ascending order.
#[derive(Drop)]
pub struct Cover {
    pub firsts: Vec<i32>,
    pub lasts: Vec<i32>,
    pub ghost firsts_rise: { IsSorted int_cmp firsts.items } by { Prim.hlevel props },
    pub ghost lasts_rise: { IsSorted int_cmp lasts.items } by { Prim.hlevel props },
    pub ghost apart: { AreApart firsts.items lasts.items } by { Prim.hlevel props },
}

impl Cover {
    /// That of the ranges that have these ends.
    pub fn of(ends: Ends) -> Cover
        requires { AreApart ends.firsts.items ends.lasts.items }
        ensures { (has : ℤ → Range → Bool) → (ranges : List Range)
            → AreEnds has ranges ends.firsts.items ends.lasts.items
            → AreEnds has ranges result.firsts.items result.lasts.items }
    {
        let Ends {
            mut firsts,
            mut lasts,
        } = ends;
        firsts.sort_unstable();
        lasts.sort_unstable();
        Cover { firsts, lasts }
    }

    /// Whether one of the ranges has the number.
    pub fn has(&self, number: &i32) -> bool
        ensures { (has : ℤ → Range → Bool) → (ranges : List Range)
            → AreEnds has ranges self.now.firsts.items self.now.lasts.items
            → result ≡ list_any (has number.now) ranges }
    {
        self.count(number) > 0
    }

    /// How many of the ranges have the number.
    pub fn count(&self, number: &i32) -> usize
        ensures { (has : ℤ → Range → Bool) → (ranges : List Range)
            → AreEnds has ranges self.now.firsts.items self.now.lasts.items
            → result ≡ count_by (has number.now) ranges }
    {
        let begun = self.begun(number);
        if begun == 0 {
            return 0;
        }
        begun - self.ended(number)
    }

    fn begun(&self, number: &i32) -> usize
        ensures { result ≡ begun number.now self.now.firsts.items }
    {
        self.firsts.partition_point(|first| !(*number < *first))
    }

    fn ended(&self, number: &i32) -> usize
        ensures { result ≡ ended number.now self.now.lasts.items }
    {
        self.lasts.partition_point(|last| *last < *number)
    }
}
