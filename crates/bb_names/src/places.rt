//! The first place of each name in a list of names. The first counts, since a second one is a fault at its own place;
//! so one look into the map says of a name whether it is that second one.
ghost use Rattle.std.specs.Prelude.{◌≡◌, ◌++◌, ◌∷◌, [], ℕ, List, false, nat_lt, length, OnOk};
ghost use Rattle.std.specs.Option.{option_map_or};
ghost use Rattle.bb_names.specs.Inside.Indexed.{ArePlaces};

use bb_bits::{Name, NoMemory};
use indexmap::IndexMap;

pub(crate) type Places = IndexMap<Name, usize>;

pub(crate) fn note_place(places: &mut Places, name: &Name, place: usize) -> Result<(), NoMemory>
    ensures { (names : List (List ℕ)) → ArePlaces places.old.entries names → place ≡ length names
        → OnOk result (ArePlaces places.new.entries (names ++ name.now ∷ [])) }
{
    if !places.contains_key(name) {
        places.insert(name.clone()?, place)?;
    }
    Ok(())
}

pub(crate) fn is_before(first: Option<usize>, place: usize) -> bool
    ensures { result ≡ option_map_or (λ p. nat_lt p place) first false }
{
    match first {
        Some(first) => first < place,
        None => false,
    }
}
