//! Ids as the keys of a map.
ghost use Rattle.std.specs.Prelude.{◌≡◌, nat_eq};
ghost use Rattle.std.specs.Cmp.{partial_equiv_from_equiv};
ghost use Rattle.std.specs.Cmp.Lexicographic.{pointwise, nat_list_eq_equiv};
ghost use Rattle.std.specs.Hash as fed;
ghost use Rattle.exposure_book.specs.IdKeys.{fed_alike};

use fix_orders::Id;
use std::hash::{Hash, Hasher};
use std::marker::Model;

/// An id that can be hashed. Contracts see the list of its bytes.
#[derive(Clone, Copy, Debug)]
pub(crate) struct IdKey {
    id: Id,
}

impl Model for IdKey {
    ghost use Rattle.std.specs.Prelude.{List, ℕ};

    ghost Value = { List ℕ };

    ghost view = { λ key. key.id };

    ghost inverse = { λ text. record { id = text } };
}

impl IdKey {
    /// This id as a key.
    pub fn new(id: &Id) -> IdKey
        ensures { result ≡ id.now }
    {
        IdKey { id: *id }
    }
}

// Two keys are equal where their texts are.
impl PartialEq for IdKey {
    ghost eq = { pointwise nat_eq };

    ghost laws = { partial_equiv_from_equiv nat_list_eq_equiv };

    fn eq(&self, other: &Self) -> bool {
        self.id == other.id
    }
}

impl Eq for IdKey {
    ghost laws = { nat_list_eq_equiv };
}

impl Hash for IdKey {
    ghost hash_input = { fed.slice fed.u8 };

    ghost respects_eq = { fed_alike.fed };

    fn hash<H: Hasher>(&self, state: &mut H) {
        self.id.bytes().hash(state);
    }
}
