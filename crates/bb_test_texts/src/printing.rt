//! Sources as words: modules with their items, in the order of the text. Trees are compared as texts: in code each
//! element of what is expected would cost proof.

use crate::expression_printing::{print, print_name, print_optional, print_parts};
use bb_ast::{Body, Call, Conns, Dir, Expr, GateCall, Head, Item, Module, Port, PortKind, Range};
use bb_bits::Name;
use bb_parse::source;
use std::alloc::{AllocError, Global};
use std::process::Abort;
use std::test::Fail;

fn print_range(out: &mut String, range: Option<Range>) -> Result<(), AllocError> {
    match range {
        Some(range) => {
            let left = range.left;
            let right = range.right;
            write!(out, "[{left}:{right}] ")
        }
        None => Ok(()),
    }
}

fn print_port(out: &mut String, port: Port) -> Result<(), AllocError> {
    out.push_str(if port.dir == Dir::Input {
        "in "
    } else {
        "out "
    })?;
    match port.kind {
        Some(PortKind::Wire) => out.push_str("wire ")?,
        Some(PortKind::Reg) => out.push_str("reg ")?,
        None => {}
    }
    print_range(out, port.range)
}

fn print_names(out: &mut String, names: &[Name]) -> Result<(), AllocError> {
    for name in names {
        print_name(out, name)?;
        out.push_str(",")?;
    }
    Ok(())
}

fn print_named(out: &mut String, all: &[(Name, Option<Expr>)]) -> Result<(), AllocError> {
    for (name, e) in all {
        print_name(out, name)?;
        out.push_str("=")?;
        print_optional(out, e)?;
        out.push_str(",")?;
    }
    Ok(())
}

fn print_places(out: &mut String, all: &[Option<Expr>]) -> Result<(), AllocError> {
    for e in all {
        print_optional(out, e)?;
        out.push_str(",")?;
    }
    Ok(())
}

fn print_assignments(out: &mut String, all: &[(Expr, Expr)]) -> Result<(), AllocError> {
    for (left, right) in all {
        print(out, left)?;
        out.push_str("=")?;
        print(out, right)?;
        out.push_str(",")?;
    }
    Ok(())
}

fn print_gates(out: &mut String, all: &[GateCall]) -> Result<(), AllocError> {
    for gate in all {
        if let Some(name) = &gate.name {
            print_name(out, name)?;
        }
        out.push_str("(")?;
        print_parts(out, gate.terms.as_slice())?;
        out.push_str(")")?;
    }
    Ok(())
}

fn print_calls(out: &mut String, all: &[Call]) -> Result<(), AllocError> {
    for call in all {
        print_name(out, &call.name)?;
        out.push_str("(")?;
        match &call.conns {
            Conns::Order(places) => print_places(out, places)?,
            Conns::Named(named) => print_named(out, named)?,
        }
        out.push_str(")")?;
    }
    Ok(())
}

fn print_item(out: &mut String, item: &Item) -> Result<(), AllocError> {
    let line = item.line;
    write!(out, "{line} ")?;
    match &item.body {
        Body::Ports(port, names) => {
            print_port(out, *port)?;
            print_names(out, names)
        }
        Body::Nets(range, nets) => {
            out.push_str("wire ")?;
            print_range(out, *range)?;
            print_named(out, nets)
        }
        Body::Regs(range, names) => {
            out.push_str("reg ")?;
            print_range(out, *range)?;
            print_names(out, names)
        }
        Body::Supply(high, range, names) => {
            out.push_str(if *high { "one " } else { "zero " })?;
            print_range(out, *range)?;
            print_names(out, names)
        }
        Body::Assign(all) => print_assignments(out, all),
        Body::Gates(gate, all) => {
            write!(out, "{gate:?} ")?;
            print_gates(out, all)
        }
        Body::Calls(name, all) => {
            print_name(out, name)?;
            out.push_str(" ")?;
            print_calls(out, all)
        }
        Body::Always(always) => {
            out.push_str(if always.falling { "fall " } else { "rise " })?;
            print(out, &always.clock)?;
            out.push_str(" ")?;
            print(out, &always.left)?;
            out.push_str("=")?;
            print(out, &always.right)
        }
    }
}

fn print_heads(out: &mut String, heads: &[Head]) -> Result<(), AllocError> {
    for head in heads {
        if let Some(port) = head.decl {
            print_port(out, port)?;
        }
        print_name(out, &head.name)?;
        out.push_str(",")?;
    }
    Ok(())
}

fn print_items(out: &mut String, items: &[Item]) -> Result<(), AllocError> {
    for item in items {
        out.push_str("; ")?;
        print_item(out, item)?;
    }
    Ok(())
}

fn print_modules(out: &mut String, modules: &[Module]) -> Result<(), AllocError> {
    for module in modules {
        let line = module.line;
        write!(out, "<{line} ")?;
        print_name(out, &module.name)?;
        out.push_str(" ")?;
        print_heads(out, &module.heads)?;
        print_items(out, &module.items)?;
        out.push_str(">")?;
    }
    Ok(())
}

pub(crate) fn printed(rt: &impl Abort, alloc: Global, text: &[u8]) -> Result<String, Fail> {
    let mut out = String::new(alloc);
    assert!(rt; text.len() <= 33_554_432);
    let tokens = bb_lex::tokens(alloc, text)?;
    let source = source(alloc, &tokens, text)?;
    print_modules(&mut out, &source.modules)?;
    Ok(out)
}
