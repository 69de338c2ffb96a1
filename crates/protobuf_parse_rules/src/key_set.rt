//! Sets of keys.

ghost use Rattle.std.specs.Prelude.{◌≡◌, ℕ, IsSorted};
ghost use Rattle.std.specs.Ordering.{nat_cmp};
ghost use Rattle.std.proofs.Props.{props};
ghost use Rattle.protobuf_parse_rules.specs.Wanted.{has_key};

/// Keys in ascending order.
#[derive(Drop)]
pub struct KeySet {
    pub sorted: Vec<u64>,
    pub ghost rises: { IsSorted nat_cmp sorted.items } by { Prim.hlevel props },
}

impl KeySet {
    /// The keys, in any order.
    pub fn of(keys: Vec<u64>) -> KeySet
        ensures { (k : ℕ) → has_key result.sorted.items k ≡ has_key keys.items k }
    {
        let mut sorted = keys;
        sorted.sort_unstable();
        KeySet { sorted }
    }

    /// Whether the key is one of them.
    pub fn has(&self, key: u64) -> bool
        ensures { result ≡ has_key self.now.sorted.items key }
    {
        self.sorted.binary_search(&key).is_ok()
    }
}
