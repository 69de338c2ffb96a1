//! What is known of the files of a set.

ghost use Rattle.std.specs.Prelude.{ℕ, map};
ghost use Rattle.std.specs.Global.{Vec};
ghost use Rattle.protobuf_parse_set_rules.specs.Steps.{GoBack};

use crate::positions::Positions;
use crate::types::TypeName;

/// What is known of the files of a set.
#[derive(Drop)]
pub struct KnownSet<'p, 't> {
    /// The positions of the files, by their paths.
    pub paths: Positions<'p>,
    /// Of each file the positions of the files before it that it imports publicly.
    pub publics: Vec<Vec<usize>>,
    pub types: &'t [TypeName],
    /// The positions of the types, by their names.
    pub names: Positions<'t>,
    pub ghost back: { GoBack (map (λ (l : Vec ℕ). l.items) publics.items) },
}
