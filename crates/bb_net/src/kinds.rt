//! Sharing classes (`kinds`): boxes of one class hold one table.
//!
//! Classes are numbered in the order in which they first appear, as a restricted growth string (Knuth, TAOCP 4A,
//! 7.2.1.5), since a partition has one such list. Two functions on lists carry all sharing: `spread` gives each box the
//! table of its class, and `shown` is what belongs to the first box of each class. So the value with tables, and when
//! tables fit or agree, keep one definition each, and a check mentions nothing else of classes.
//!
//! But for `own_kinds`, functions here do nothing; their contracts are the laws.

ghost use Rattle.std.specs.Prelude.{◌≡◌, ◌≢◌, ◌<◌, ◌≤◌, ◌⊎◌, ◌↔◌, ℕ, List, [], ◌∷◌, ◌++◌, length, map, take, All};
ghost use Rattle.std.specs.Prelude.{AllPairs, Contains, slice_index, IfOk};
ghost use Rattle.std.specs.List.{range_with_len, slice_index_or};
ghost use Rattle.bb_bits.specs.Tables.{TableBits};
ghost use Rattle.bb_net.specs.Netlists.{Netlist, Pins, box_at};
ghost use Rattle.bb_net.specs.Values.{table_at, FitBoxes};
ghost use Rattle.bb_net.specs.Completions.{table_bits};
ghost use Rattle.bb_net.specs.Conditions.{SomeTablesMakeEquivalent, NoTablesMakeEquivalent};
ghost use Rattle.bb_net.specs.Laws.KindLaws.{KindsAreOne, KindsGrowAgain, KindsGrowNew, KindsShowKeys, ModulesFit};
ghost use Rattle.bb_net.specs.Laws.KindLaws.{PlacesAreKinds, PlacesFit, ShownKeysDiffer};
ghost use Rattle.bb_net.specs.Kinds.{AreNumberedInOrder, AreKinds, FitKinds, IsFirstOfKind, first_places};
ghost use Rattle.bb_net.specs.Kinds.{representatives, per_box, SomeSharedTablesMakeEquivalent};
ghost use Rattle.bb_net.specs.Kinds.{NoSharedTablesMakeEquivalent};

use bb_bits::NoMemory;
use std::alloc::Global;

/// Each box in a class of its own, as where nothing is shared.
pub fn own_kinds(alloc: Global, count: u32) -> Result<Vec<u32>, NoMemory>
    ensures kinds { IfOk result (λ kinds. kinds.items ≡ range_with_len 0 count) }
{
    let mut kinds = Vec::with_capacity(alloc, count as usize)?;
    for kind in 0..count {
        kinds.push(kind)?;
    }
    Ok(kinds)
}

/// A list of keys has one list of classes, so these do not depend on how they were found.
pub fn keys_have_kinds()
    ensures some { (keys : List (List ℕ)) → (kinds : List ℕ) × AreKinds keys kinds }
    ensures one { KindsAreOne }
{}

/// A key after others has their class or the next one; the key of each class is at its number, and no key twice. Boxes
/// of one module may be of one class.
pub fn keys_are_shown()
    ensures again { KindsGrowAgain }
    ensures new { KindsGrowNew }
    ensures keys { KindsShowKeys }
    ensures differ { ShownKeysDiffer }
    ensures modules { ModulesFit }
{}

/// A new class has the number of the classes before it, and a box has as many pins as the first box of its class.
pub fn kinds_are_counted()
    ensures prefix { (kinds : List ℕ) (n : ℕ) → n ≤ length kinds → AreNumberedInOrder kinds
        → AreNumberedInOrder (take n kinds) }
    ensures new { (kinds : List ℕ) (b : ℕ) → AreNumberedInOrder kinds → b < length kinds → IsFirstOfKind kinds b
        → slice_index kinds b ≡ length (representatives (take b kinds) (take b kinds)) }
    ensures first { (kinds : List ℕ) (k : ℕ) → AreNumberedInOrder kinds → Contains kinds k
        → (b : ℕ) × (b < length kinds) × IsFirstOfKind kinds b × (slice_index kinds b ≡ k) }
    ensures inputs { (kinds : List ℕ) (boxes : List Pins) (b : ℕ) → FitKinds kinds boxes → b < length boxes
        → length (box_at (representatives kinds boxes) (slice_index kinds b)).ins ≡ length (box_at boxes b).ins }
    ensures outputs { (kinds : List ℕ) (boxes : List Pins) (b : ℕ) → FitKinds kinds boxes → b < length boxes
        → length (box_at (representatives kinds boxes) (slice_index kinds b)).outs ≡ length (box_at boxes b).outs }
{}

/// For each class, at its number, `shown` has what belongs to its first box.
pub fn kinds_are_shown<A>()
    ensures count { (kinds : List ℕ) (xs : List A) (k : ℕ) → AreNumberedInOrder kinds → length xs ≡ length kinds
        → (k < length (representatives kinds xs)) ↔ Contains kinds k }
    ensures first { (kinds : List ℕ) (xs : List A) (none : A) (b : ℕ) → AreNumberedInOrder kinds
        → length xs ≡ length kinds → b < length kinds → IsFirstOfKind kinds b
        → slice_index_or (representatives kinds xs) (slice_index kinds b) none ≡ slice_index_or xs b none }
    ensures again { (kinds : List ℕ) (xs : List A) (k : ℕ) (x : A) → length xs ≡ length kinds → Contains kinds k
        → representatives (kinds ++ k ∷ []) (xs ++ x ∷ []) ≡ representatives kinds xs }
    ensures new { (kinds : List ℕ) (xs : List A) (k : ℕ) (x : A) → length xs ≡ length kinds → (Contains kinds k → ⊥)
        → representatives (kinds ++ k ∷ []) (xs ++ x ∷ []) ≡ representatives kinds xs ++ x ∷ [] }
    ensures places { (xs : List A) → representatives (range_with_len 0 (length xs)) xs ≡ xs }
    ensures firsts { (kinds : List ℕ) (xs : List A) (none : A) → AreNumberedInOrder kinds → length xs ≡ length kinds
        → representatives kinds xs ≡ map (λ b. slice_index_or xs b none) (first_places kinds) }
    ensures there { (kinds : List ℕ) → AreNumberedInOrder kinds → All (λ b. b < length kinds) (first_places kinds) }
{}

/// Where all classes differ they are the numbers of the boxes: with at most one box, or where nothing is shared.
pub fn kinds_may_differ()
    ensures keys { (keys : List (List ℕ)) (kinds : List ℕ) → AreKinds keys kinds → AllPairs ◌≢◌ keys
        → AllPairs ◌≢◌ kinds }
    ensures one { (kinds : List ℕ) (boxes : List Pins) → FitKinds kinds boxes → length boxes ≤ 1 → AllPairs ◌≢◌ kinds }
    ensures places { (kinds : List ℕ) (boxes : List Pins) → FitKinds kinds boxes → AllPairs ◌≢◌ kinds
        → kinds ≡ range_with_len 0 (length boxes) }
    ensures own { PlacesAreKinds }
    ensures fit { PlacesFit }
    ensures spread { (tables : List TableBits) → per_box (range_with_len 0 (length tables)) tables ≡ tables }
{}

/// Tables of classes are tables of all boxes; the converse needs that boxes of one class have the same table.
pub fn tables_are_spread()
    ensures fit { (kinds : List ℕ) (boxes : List Pins) (tables : List TableBits) → FitKinds kinds boxes
        → FitBoxes tables (representatives kinds boxes) → FitBoxes (per_box kinds tables) boxes }
    ensures shown { (kinds : List ℕ) (boxes : List Pins) (tables : List TableBits) → FitKinds kinds boxes
        → FitBoxes tables boxes → FitBoxes (representatives kinds tables) (representatives kinds boxes) }
    ensures back { (kinds : List ℕ) (boxes : List Pins) (tables : List TableBits) → FitKinds kinds boxes
        → FitBoxes tables boxes
        → ((a b : ℕ) → a < length boxes → b < length boxes → slice_index kinds a ≡ slice_index kinds b
        → table_at tables a ≡ table_at tables b)
        → per_box kinds (representatives kinds tables) ≡ tables }
    ensures kept { (kinds : List ℕ) (boxes : List Pins) (tables : List TableBits) → FitKinds kinds boxes
        → length tables ≡ length (representatives kinds boxes)
        → representatives kinds (per_box kinds tables) ≡ tables }
    ensures at { (kinds : List ℕ) (tables : List TableBits) (b : ℕ) → b < length kinds
        → table_at (per_box kinds tables) b ≡ table_at tables (slice_index kinds b) }
    ensures held { (kinds : List ℕ) (tables : List TableBits) (boxes : List Pins) (b p : ℕ)
        → FitBoxes (per_box kinds tables) boxes → p < length (box_at boxes b).outs
        → (b < length kinds) × (slice_index kinds b < length tables) }
    ensures bits { (kinds : List ℕ) (boxes : List Pins) → table_bits (representatives kinds boxes) ≤ table_bits boxes }
{}

/// Some tables of classes agree, or none do. Sharing allows fewer contents, so the former implies that some tables of
/// boxes agree; where all classes differ, both say the same.
pub fn shared_tables_make_equivalent()
    ensures cases { (spec imp : Netlist) (kinds : List ℕ)
        → NoSharedTablesMakeEquivalent spec imp kinds ⊎ SomeSharedTablesMakeEquivalent spec imp kinds }
    ensures some { (spec imp : Netlist) (kinds : List ℕ) → FitKinds kinds imp.boxes
        → SomeSharedTablesMakeEquivalent spec imp kinds → SomeTablesMakeEquivalent spec imp }
    ensures none { (spec imp : Netlist) (kinds : List ℕ) → FitKinds kinds imp.boxes
        → NoTablesMakeEquivalent spec imp → NoSharedTablesMakeEquivalent spec imp kinds }
    ensures some_differ { (spec imp : Netlist) (kinds : List ℕ) → FitKinds kinds imp.boxes → AllPairs ◌≢◌ kinds
        → SomeSharedTablesMakeEquivalent spec imp kinds ↔ SomeTablesMakeEquivalent spec imp }
    ensures none_differ { (spec imp : Netlist) (kinds : List ℕ) → FitKinds kinds imp.boxes → AllPairs ◌≢◌ kinds
        → NoSharedTablesMakeEquivalent spec imp kinds ↔ NoTablesMakeEquivalent spec imp }
{}
