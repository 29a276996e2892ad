//! Expressions as words. Each level of operators and each conditional has its own parentheses, so that a table shows
//! how an expression is grouped.

use bb_ast::{Expr, Op, WordOp};
use bb_bits::Name;
use std::alloc::AllocError;

pub(crate) fn print_name(out: &mut String, name: &Name) -> Result<(), AllocError> {
    for b in name.bytes() {
        out.push(char::from(*b))?;
    }
    Ok(())
}

fn print_bits(out: &mut String, bits: &[bool]) -> Result<(), AllocError> {
    out.push_str("'")?;
    for bit in bits {
        out.push_str(if *bit { "1" } else { "0" })?;
    }
    Ok(())
}

/// Parentheses around the operators of each level and around each conditional.
#[cycle(print)]
pub(crate) fn print(out: &mut String, e: &Expr) -> Result<(), AllocError> {
    match e {
        Expr::Net(name) => print_name(out, name),
        Expr::Bit(name, i) => {
            print_name(out, name)?;
            write!(out, "[{}]", *i)
        }
        Expr::Part(name, i, j) => {
            print_name(out, name)?;
            write!(out, "[{}:{}]", *i, *j)
        }
        Expr::Sized(bits) => print_bits(out, bits),
        Expr::Plain(n) => write!(out, "{n}"),
        Expr::Not(k, inner) => {
            write!(out, "~{k} ")?;
            print(out, inner)
        }
        Expr::Fold(op, inner) => {
            write!(out, "{op:?} ")?;
            print(out, inner)
        }
        Expr::Words(first, rest) => {
            out.push_str("(")?;
            print(out, first)?;
            print_words(out, rest)?;
            out.push_str(")")
        }
        Expr::Chain(first, rest) => {
            out.push_str("(")?;
            print(out, first)?;
            print_operands(out, rest)?;
            out.push_str(")")
        }
        Expr::Cond(arms, last) => {
            out.push_str("(")?;
            print_arms(out, arms)?;
            print(out, last)?;
            out.push_str(")")
        }
        Expr::Concat(parts) => {
            out.push_str("{")?;
            print_parts(out, parts)?;
            out.push_str("}")
        }
        Expr::Repeat(k, parts) => {
            write!(out, "{k}{{")?;
            print_parts(out, parts)?;
            out.push_str("}")
        }
    }
}

#[cycle(print)]
fn print_operands(out: &mut String, operands: &[(Op, Expr)]) -> Result<(), AllocError> {
    for (op, e) in operands {
        write!(out, " {op:?} ")?;
        print(out, e)?;
    }
    Ok(())
}

#[cycle(print)]
fn print_words(out: &mut String, operands: &[(WordOp, Expr)]) -> Result<(), AllocError> {
    for (op, e) in operands {
        write!(out, " {op:?} ")?;
        print(out, e)?;
    }
    Ok(())
}

#[cycle(print)]
fn print_arms(out: &mut String, arms: &[(Expr, Expr)]) -> Result<(), AllocError> {
    for (condition, value) in arms {
        print(out, condition)?;
        out.push_str(" ? ")?;
        print(out, value)?;
        out.push_str(" : ")?;
    }
    Ok(())
}

#[cycle(print)]
pub(crate) fn print_parts(out: &mut String, parts: &[Expr]) -> Result<(), AllocError> {
    for e in parts {
        print(out, e)?;
        out.push_str(",")?;
    }
    Ok(())
}

pub(crate) fn print_optional(out: &mut String, e: &Option<Expr>) -> Result<(), AllocError> {
    match e {
        Some(e) => print(out, e),
        None => out.push_str("-"),
    }
}
