//! Laws of the one recursion over expressions. A definition by the form of an expression is a record of cases that see
//! operands as plain lists, each with its own result. The toolchain's fold of a declared type was weighed against it:
//! it runs over vectors that know their capacity, while a text means plain syntax, and it gives a case the results of
//! the operands alone, while a value needs an operand's own width too.
//!
//! The laws hold at every type of result, functions too, so they are proved as terms beside the recursion; the
//! functions here have them for every two types of the code.

ghost use Rattle.bb_ast.specs.Laws.FoldLaws.{SeesOperands, SeesWords, SeesArms, SeesParts};

/// A case of a chain sees its operands in order, each with its own result; so a definition by cases can map over a
/// plain list.
#[tactic(auto, using(crate::specs::Laws::FoldLaws::sees_operands))]
pub fn operands_are_seen<C, A>()
    ensures { SeesOperands C A }
{}

/// The same of operators on words.
#[tactic(auto, using(crate::specs::Laws::FoldLaws::sees_words))]
pub fn words_are_seen<C, A>()
    ensures { SeesWords C A }
{}

/// The same of the conditions of a conditional and their values.
#[tactic(auto, using(crate::specs::Laws::FoldLaws::sees_arms))]
pub fn arms_are_seen<C, A>()
    ensures { SeesArms C A }
{}

/// The same of the parts of a concatenation or replication.
#[tactic(auto, using(crate::specs::Laws::FoldLaws::sees_parts))]
pub fn parts_are_seen<C, A>()
    ensures { SeesParts C A }
{}
