//! Literals as numbers, which index marks and lists. Marks say which literals are false. A literal and its negation may
//! both be false, since an addition to a proof makes all its literals false; so one mark a literal, and not one value a
//! variable.

use bb_cnf::Lit;

/// Twice the variable, and one more where the literal is negated, so that the lowest bit negates.
#[derive(Clone, Copy, Debug, PartialEq, Eq)]
pub(crate) struct Code(pub(crate) u32);

impl Code {
    /// No literal, since variables count from 1. It ends a copy and is never marked.
    pub(crate) const NOTHING: Code = Code(0);

    /// A second value that is no literal: it differs from `NOTHING`, which ends a copy.
    pub(crate) const OTHER: Code = Code(1);

    pub(crate) fn of(lit: Lit) -> Code {
        Code(lit.var.saturating_mul(2).saturating_add(lit.neg as u32))
    }

    #[inline(always)]
    pub(crate) fn negation(self) -> Code {
        Code(self.0 ^ 1)
    }
}

#[inline(always)]
pub(crate) fn is_false(marks: &[bool], code: Code) -> bool {
    match marks.get(code.0 as usize) {
        Some(mark) => *mark,
        None => false,
    }
}

#[inline(always)]
pub(crate) fn is_true(marks: &[bool], code: Code) -> bool {
    is_false(marks, code.negation()) && !is_false(marks, code)
}

/// Codes beyond the marks are passed over.
#[inline(always)]
pub(crate) fn mark(marks: &mut [bool], code: Code, is_false: bool) {
    if (code.0 as usize) < marks.len() {
        marks[code.0 as usize] = is_false;
    }
}
