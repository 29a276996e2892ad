//! The law of the miter's clauses, as the contract of an empty function.

ghost use Rattle.bb_expand.specs.Inside.FreeClauses.{ModelsDiffer, ModelsAreDifferences, FreeVariablesAreWithin};

use crate::laws::{expansions_and_tables, laws_below};

/// The miter has a model exactly where the netlists differ at some vector, and a model's first bits are such a vector.
pub fn models_are_differences()
    ensures first { ModelsDiffer }
    ensures models { ModelsAreDifferences }
    ensures within { FreeVariablesAreWithin }
{
    laws_below();
    expansions_and_tables();
}
