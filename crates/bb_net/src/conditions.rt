//! Laws that order the conditions under which no contents of the boxes work, from known and wrong outputs to no tables
//! at all.
//!
//! The conditions are stated on netlists, so that each check looks for one of them and knows nothing of designs. Each
//! comes with what holds where it does not: a check that finds nothing says something positive too. Functions here do
//! nothing; their contracts are the laws.

ghost use Rattle.std.specs.Prelude.{◌≡◌, ◌<◌, ◌≤◌, ◌^◌, ◌⊎◌, ℕ, Bool, List, length, All};
ghost use Rattle.bb_net.specs.Values.{flat};
ghost use Rattle.bb_bits.specs.Numbers.{number_of, bits_of};
ghost use Rattle.bb_bits.specs.Laws.RowLaws.{RowsHaveShape, BitsAreChosen, RowsHaveTable};
ghost use Rattle.bb_net.specs.Netlists.{Netlist, IsNetlist};
ghost use Rattle.bb_net.specs.Equivalence.{IsVector, AreBoxOutputs, IsRight, AllRight};
ghost use Rattle.bb_net.specs.Conditions.{IsKnownWrong, MayBeRight, IsAlwaysWrong, AlwaysSomeWrongAt, PinBits};
ghost use Rattle.bb_net.specs.Conditions.{ChoicesSuit, KnownWrongAmong, MayBeRightAmong, IsFirstHit};
ghost use Rattle.bb_net.specs.Conditions.{KnownWrongSomewhere, MayBeRightEverywhere, OneAlwaysWrong};
ghost use Rattle.bb_net.specs.Conditions.{EachSometimesRight, SomeAlwaysWrong, AllRightTogether, SomeChoicesSuit};
ghost use Rattle.bb_net.specs.Conditions.{NoChoicesSuit, SomeTablesMakeEquivalent, NoTablesMakeEquivalent};

use bb_bits::{
    number_is_below, number_spelled, number_spelled_once, rows_are_chosen, rows_are_tables,
    rows_have_shape,
};

/// Each condition is at least as strong as the next one, so what shows one shows those after it too.
pub fn conditions_weaken()
    ensures patterns { (spec imp : Netlist) (patterns : List (List Bool)) → All (IsVector imp) patterns
        → KnownWrongAmong spec imp patterns → KnownWrongSomewhere spec imp }
    ensures known { (spec imp : Netlist) → KnownWrongSomewhere spec imp → OneAlwaysWrong spec imp }
    ensures one { (spec imp : Netlist) → OneAlwaysWrong spec imp → SomeAlwaysWrong spec imp }
    ensures some { (spec imp : Netlist) → IsNetlist imp → SomeAlwaysWrong spec imp → NoChoicesSuit spec imp }
    ensures choices { (spec imp : Netlist) → IsNetlist imp → NoChoicesSuit spec imp → NoTablesMakeEquivalent spec imp }
{
    laws_of_tables();
}

/// With one box there is no nesting, so the check by choices already gives its table.
pub fn choices_are_tables()
    ensures found { (spec imp : Netlist) → IsNetlist imp → length imp.boxes ≤ 1 → SomeChoicesSuit spec imp
        → SomeTablesMakeEquivalent spec imp }
    ensures none { (spec imp : Netlist) → IsNetlist imp → length imp.boxes ≤ 1 → NoTablesMakeEquivalent spec imp
        → NoChoicesSuit spec imp }
{
    laws_of_tables();
}

/// The first hit is at the first such pattern, and there at the first such output.
pub fn hit_or_none()
    ensures { (spec imp : Netlist) (patterns : List (List Bool))
        → ((x : List Bool) × (j : ℕ) × IsFirstHit spec imp patterns x j) ⊎ MayBeRightAmong spec imp patterns }
{}

/// Excluded middle for the conditions, in a logic that has none: each holds, or the fact stated beside it does.
pub fn conditions_hold_or_not()
    ensures known { (spec imp : Netlist) → KnownWrongSomewhere spec imp ⊎ MayBeRightEverywhere spec imp }
    ensures one { (spec imp : Netlist) → OneAlwaysWrong spec imp ⊎ EachSometimesRight spec imp }
    ensures some { (spec imp : Netlist) → SomeAlwaysWrong spec imp ⊎ AllRightTogether spec imp }
    ensures choices { (spec imp : Netlist) → NoChoicesSuit spec imp ⊎ SomeChoicesSuit spec imp }
    ensures tables { (spec imp : Netlist) → NoTablesMakeEquivalent spec imp ⊎ SomeTablesMakeEquivalent spec imp }
{}

/// The same for one vector, and for one choice of bits at the pins.
pub fn vectors_hold_or_not()
    ensures known { (spec imp : Netlist) (x : List Bool) (j : ℕ) → IsKnownWrong spec imp x j ⊎ MayBeRight spec imp x j }
    ensures one { (spec imp : Netlist) (x : List Bool) (j : ℕ)
        → IsAlwaysWrong spec imp x j ⊎ ((z : List Bool) × AreBoxOutputs imp z × IsRight spec imp x (flat imp x z) j) }
    ensures some { (spec imp : Netlist) (x : List Bool)
        → AlwaysSomeWrongAt spec imp x
        ⊎ ((z : List Bool) × AreBoxOutputs imp z × AllRight spec imp x (flat imp x z)) }
    ensures suit { (spec imp : Netlist) (chosen : List PinBits)
        → ChoicesSuit spec imp chosen ⊎ (ChoicesSuit spec imp chosen → ⊥) }
{}

fn laws_of_tables()
    ensures shape { RowsHaveShape }
    ensures chosen { BitsAreChosen }
    ensures table { RowsHaveTable }
    ensures below { (bits : List Bool) → number_of bits < 2 ^ length bits }
    ensures width { (n number : ℕ) → length (bits_of n number) ≡ n }
    ensures spelled { (bits : List Bool) → bits_of (length bits) (number_of bits) ≡ bits }
{
    rows_have_shape();
    rows_are_chosen();
    rows_are_tables();
    number_is_below();
    number_spelled();
    number_spelled_once();
}
