//! The names of scopes and bits: instance names from the top down, joined by dots, and the index of a bit where its net
//! has a range.
//!
//! A path is read off from its end upwards, since a scope knows only the scope that contains it. So recursion writes
//! the outer names first; it goes as deep as the hierarchy, whose levels are bounded before.

ghost use Rattle.std.specs.Prelude.{◌≡◌, ◌<◌, ◌++◌, Some, decimal, length, map, slice_get, IfOk, OnOk};
ghost use Rattle.bb_names.specs.Inside.Checked.{module_facts, syntax, IsChecked};
ghost use Rattle.bb_names.specs.Ranges.{range_width};
ghost use Rattle.bb_blast.specs.declared.placed.Placed.{Placed};
ghost use Rattle.bb_design.specs.Hierarchy.{Path, Design, Scope};
ghost use Rattle.bb_design.specs.NetBits.{Bit, net_order};
ghost use Rattle.bb_elab.specs.Inside.PlacedPaths.{IsPathAt, AreRooted};
ghost use Rattle.bb_blast.specs.Inside.Placements.{IsScopeAt, ArePlaced, AreTemplated};
ghost use Rattle.bb_design.specs.Texts.{path_prefix, path_text, index_text, net_bit_text, bit_text, pin_text};

use crate::bit_places::{net_of_bit, scope_of_bit};
use bb_ast::Range;
use bb_bits::{Name, NoMemory};
use bb_blast::laws::laws_of_modules;
use bb_blast::{ModuleTemplate, Placed};
use bb_design::laws::laws_of_designs;
use bb_names::{Checked, CheckedModule, NetInfo};
use std::alloc::Global;

#[cycle(prefix)]
fn add_prefix(placed: &[Placed], scope: usize, text: &mut Vec<u8>) -> Result<(), NoMemory>
    requires rooted { AreRooted placed.now }
    requires there { scope < length placed.now }
    ensures { (path : Path) → IsPathAt placed.now scope path
        → OnOk result (text.new.items ≡ text.old.items ++ path_prefix path) }
{
    laws_of_designs();
    let at = &placed[scope];
    if let Some(instance) = &at.instance {
        add_prefix(placed, instance.scope as usize, text)?;
        text.extend_from_slice(instance.name.bytes())?;
        text.push(b'.')?;
    }
    Ok(())
}

fn add_path(placed: &[Placed], scope: usize, text: &mut Vec<u8>) -> Result<(), NoMemory>
    requires rooted { AreRooted placed.now }
    requires there { scope < length placed.now }
    ensures path { (path : Path) → IsPathAt placed.now scope path
        → OnOk result (text.new.items ≡ text.old.items ++ path_text path) }
{
    laws_of_designs();
    let at = &placed[scope];
    if let Some(instance) = &at.instance {
        add_prefix(placed, instance.scope as usize, text)?;
        text.extend_from_slice(instance.name.bytes())?;
    }
    Ok(())
}

/// Without a dot at the end; empty for the top.
pub(crate) fn path_name(alloc: Global, placed: &[Placed], scope: u32) -> Result<Name, NoMemory>
    requires design { (d : Design) × ArePlaced d placed.now }
    requires there { scope < length placed.now }
    ensures name { IfOk result (λ n.
        (d : Design) → ArePlaced d placed.now → (s : Scope) → IsScopeAt d scope s → n ≡ path_text s.path) }
{
    let mut text = Vec::new(alloc);
    add_path(placed, scope as usize, &mut text)?;
    Name::of(alloc, &text)
}

fn add_number(alloc: Global, number: u32, text: &mut Vec<u8>) -> Result<(), NoMemory>
    ensures digits { OnOk result (text.new.items ≡ text.old.items ++ decimal number) }
{
    let digits = format!(in alloc; "{number}")?;
    text.extend_from_slice(digits.as_bytes())?;
    Ok(())
}

// The leftmost bit is at place 0, in ranges of either direction; a net without a range has no index.
fn add_index(
    alloc: Global,
    range: Option<Range>,
    place: u32,
    text: &mut Vec<u8>,
) -> Result<(), NoMemory>
    requires within { place < range_width range }
    ensures index { OnOk result (text.new.items ≡ text.old.items ++ index_text range place) }
{
    if let Some(range) = range {
        let index = if range.left <= range.right {
            range.left + place
        } else {
            range.left - place
        };
        text.push(b'[')?;
        add_number(alloc, index, text)?;
        text.push(b']')?;
    }
    Ok(())
}

fn add_net_bit(alloc: Global, net: &NetInfo, place: u32, text: &mut Vec<u8>) -> Result<(), NoMemory>
    requires within { place < range_width net.now.range }
    ensures bit { OnOk result (text.new.items ≡ text.old.items ++ net_bit_text net.now.name net.now.range place) }
{
    text.extend_from_slice(net.name.bytes())?;
    add_index(alloc, net.range, place, text)
}

fn scope_of_module(checked: &Checked, module: usize) -> &CheckedModule
    requires there { «module» < length checked.now }
    ensures there { slice_get checked.now «module» ≡ Some (module_facts result.now) }
    ensures checked { IsChecked checked.now }
{
    &checked.modules()[module]
}

pub(crate) fn module_name(
    alloc: Global,
    checked: &Checked,
    placed: &[Placed],
    scope: u32,
) -> Result<Name, NoMemory>
    requires design { (d : Design) × (d.text ≡ map syntax checked.now) × ArePlaced d placed.now }
    requires there { scope < length placed.now }
    ensures name { IfOk result (λ n. (d : Design) → d.text ≡ map syntax checked.now → ArePlaced d placed.now
        → (s : Scope) → IsScopeAt d scope s → n ≡ s.source.name) }
{
    laws_of_modules();
    let at = &placed[scope as usize];
    let module = scope_of_module(checked, at.module);
    Name::of(alloc, module.module.name.bytes())
}

fn template_of_module(templates: &[ModuleTemplate], module: usize) -> &ModuleTemplate
    requires there { «module» < length templates.now }
    ensures there { slice_get templates.now «module» ≡ Some result.now }
{
    &templates[module]
}

fn add_pin(
    alloc: Global,
    checked: &Checked,
    placed: &[Placed],
    templates: &[ModuleTemplate],
    number: u32,
    text: &mut Vec<u8>,
) -> Result<(), NoMemory>
    requires design { (d : Design) × (d.text ≡ map syntax checked.now) × ArePlaced d placed.now
        × AreTemplated d placed.now templates.now × (number < length (net_order d)) }
    ensures pin { (d : Design) → d.text ≡ map syntax checked.now → ArePlaced d placed.now
        → AreTemplated d placed.now templates.now → (b : Bit) → slice_get (net_order d) number ≡ Some b
        → OnOk result (text.new.items ≡ text.old.items ++ pin_text d b) }
{
    laws_of_designs();
    laws_of_modules();
    let scope = scope_of_bit(placed, number);
    let at = &placed[scope];
    let module = scope_of_module(checked, at.module);
    let template = template_of_module(templates, at.module);
    let local = number - at.first;
    let k = net_of_bit(&module.nets, &template.starts, local);
    let net = &module.nets[k];
    let place = local - template.starts[k];
    add_net_bit(alloc, net, place, text)
}

/// With the path of its scope.
pub(crate) fn bit_name(
    alloc: Global,
    checked: &Checked,
    placed: &[Placed],
    templates: &[ModuleTemplate],
    number: u32,
) -> Result<Name, NoMemory>
    requires design { (d : Design) × (d.text ≡ map syntax checked.now) × ArePlaced d placed.now
        × AreTemplated d placed.now templates.now × (number < length (net_order d)) }
    ensures name { IfOk result (λ n. (d : Design) → d.text ≡ map syntax checked.now → ArePlaced d placed.now
        → AreTemplated d placed.now templates.now → (b : Bit) → slice_get (net_order d) number ≡ Some b
        → n ≡ bit_text d b) }
{
    let scope = scope_of_bit(placed, number);
    let mut text = Vec::new(alloc);
    add_prefix(placed, scope, &mut text)?;
    add_pin(alloc, checked, placed, templates, number, &mut text)?;
    Name::of(alloc, &text)
}

/// A pin goes by its name in the module, so boxes of one module have pins of the same names.
pub(crate) fn pin_name(
    alloc: Global,
    checked: &Checked,
    placed: &[Placed],
    templates: &[ModuleTemplate],
    number: u32,
) -> Result<Name, NoMemory>
    requires design { (d : Design) × (d.text ≡ map syntax checked.now) × ArePlaced d placed.now
        × AreTemplated d placed.now templates.now × (number < length (net_order d)) }
    ensures name { IfOk result (λ n. (d : Design) → d.text ≡ map syntax checked.now → ArePlaced d placed.now
        → AreTemplated d placed.now templates.now → (b : Bit) → slice_get (net_order d) number ≡ Some b
        → n ≡ pin_text d b) }
{
    let mut text = Vec::new(alloc);
    add_pin(alloc, checked, placed, templates, number, &mut text)?;
    Name::of(alloc, &text)
}
