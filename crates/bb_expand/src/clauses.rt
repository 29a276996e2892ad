//! Tseitin clauses of gates. Both directions of each gate are emitted, and not only the one that its polarity needs:
//! the count of clauses is part of the contract and must not depend on who reads a cell. An or is an and of negations,
//! so the two share their clauses.

ghost use Rattle.std.specs.Prelude.{◌≡◌, ◌+◌, ◌∷◌, ◌++◌, [], not, OnOk};
ghost use Rattle.bb_cnf.specs.Clauses.{positive, negated, lists_of};
ghost use Rattle.bb_expand.specs.Expansions.{having};

use bb_bits::NoMemory;
use bb_cnf::Lit;
use smallvec::SmallVec;

pub(crate) fn having(var: u32, bit: bool) -> Lit
    ensures { result ≡ having var bit }
{
    Lit { var, neg: !bit }
}

pub(crate) fn yes(var: u32) -> Lit
    ensures { result ≡ positive var }
{
    having(var, true)
}

pub(crate) fn no(var: u32) -> Lit
    ensures { result ≡ negated var }
{
    having(var, false)
}

pub(crate) fn push(clauses: &mut Vec<SmallVec<Lit, 4>>, lits: &[Lit]) -> Result<(), NoMemory>
    ensures { OnOk result (lists_of clauses.new.items ≡ lists_of clauses.old.items ++ lits.now ∷ []) }
{
    let clause = SmallVec::from_slice(*clauses.allocator(), lits)?;
    clauses.push(clause)?;
    Ok(())
}

pub(crate) fn push_not(clauses: &mut Vec<SmallVec<Lit, 4>>, y: u32, a: u32) -> Result<(), NoMemory>
    ensures { OnOk result (lists_of clauses.new.items ≡ lists_of clauses.old.items
        ++ (positive y ∷ positive a ∷ []) ∷ (negated y ∷ negated a ∷ []) ∷ []) }
{
    push(clauses, &[yes(y), yes(a)])?;
    push(clauses, &[no(y), no(a)])
}

// The literals of `y`, `a` and `b` are positive where `sign` is true, else negative; so one function gives and and or.
pub(crate) fn push_and(
    clauses: &mut Vec<SmallVec<Lit, 4>>,
    sign: bool,
    y: u32,
    a: u32,
    b: u32,
) -> Result<(), NoMemory>
    ensures { OnOk result (lists_of clauses.new.items ≡ lists_of clauses.old.items
        ++ (having y (not sign) ∷ having a sign ∷ []) ∷ (having y (not sign) ∷ having b sign ∷ [])
        ∷ (having y sign ∷ having a (not sign) ∷ having b (not sign) ∷ []) ∷ []) }
{
    push(clauses, &[having(y, !sign), having(a, sign)])?;
    push(clauses, &[having(y, !sign), having(b, sign)])?;
    push(
        clauses,
        &[having(y, sign), having(a, !sign), having(b, !sign)],
    )
}

pub(crate) fn push_xor(
    clauses: &mut Vec<SmallVec<Lit, 4>>,
    y: u32,
    a: u32,
    b: u32,
) -> Result<(), NoMemory>
    ensures { OnOk result (lists_of clauses.new.items ≡ lists_of clauses.old.items
        ++ (negated y ∷ positive a ∷ positive b ∷ []) ∷ (negated y ∷ negated a ∷ negated b ∷ [])
        ∷ (positive y ∷ negated a ∷ positive b ∷ []) ∷ (positive y ∷ positive a ∷ negated b ∷ []) ∷ []) }
{
    push(clauses, &[no(y), yes(a), yes(b)])?;
    push(clauses, &[no(y), no(a), no(b)])?;
    push(clauses, &[yes(y), no(a), yes(b)])?;
    push(clauses, &[yes(y), yes(a), no(b)])
}

// No clause for t = e: it is implied, and would only help propagation.
pub(crate) fn push_mux(
    clauses: &mut Vec<SmallVec<Lit, 4>>,
    y: u32,
    c: u32,
    t: u32,
    e: u32,
) -> Result<(), NoMemory>
    ensures { OnOk result (lists_of clauses.new.items ≡ lists_of clauses.old.items
        ++ (negated c ∷ negated t ∷ positive y ∷ []) ∷ (negated c ∷ positive t ∷ negated y ∷ [])
        ∷ (positive c ∷ negated e ∷ positive y ∷ []) ∷ (positive c ∷ positive e ∷ negated y ∷ []) ∷ []) }
{
    push(clauses, &[no(c), no(t), yes(y)])?;
    push(clauses, &[no(c), yes(t), no(y)])?;
    push(clauses, &[yes(c), no(e), yes(y)])?;
    push(clauses, &[yes(c), yes(e), no(y)])
}
