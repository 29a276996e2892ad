//! What the declarations of one name say together. The first declaration gives the range and says whether the name is
//! an instance; the first that has a direction or a kind gives that, and an instance has neither. So `wire [3:0] a;`
//! and then `input [7:0] a;` is a port declared with two ranges, and not a header without a direction. Later
//! declarations are needed only to find a second one too many, so a summary of fixed size suffices in place of the
//! list.
ghost use Rattle.std.specs.Prelude.{◌≡◌, ◌++◌, ◌∷◌, [], ℕ, List, Option, Some, ◌&&◌, not, is_some, if◌then◌else◌, OnOk};
ghost use Rattle.std.specs.Prelude.{IfOk};
ghost use Rattle.std.specs.Map.{lookup};
ghost use Rattle.std.specs.List.{list_any};
ghost use Rattle.bb_bits.specs.Names.{same_name};
ghost use Rattle.bb_ast.specs.Syntax.{PlainModule};
ghost use Rattle.bb_names.specs.Declarations.{Declaration, port_declaration, net_declaration, instance_declaration};
ghost use Rattle.bb_names.specs.Declarations.{is_port, supply_kind, net_kind};
ghost use Rattle.bb_names.specs.Faults.{clashes, declares_supply};
ghost use Rattle.bb_names.specs.Inside.Summaries.{named, has_other, leaves_no_room, Reports, IsSummary, Describes};

use crate::net::NetKind;
use bb_ast::{Dir, Port, PortKind, Range};
use bb_bits::{Name, NoMemory};
use indexmap::IndexMap;

/// One declaration of a name: a direction, a kind or both, or an instance.
#[derive(Clone, Copy)]
pub(crate) struct DeclaredAs {
    pub dir: Option<Dir>,
    pub kind: Option<NetKind>,
    pub range: Option<Range>,
    pub instance: bool,
}

/// A later declaration needs to know only whether one of the earlier ranges differs from its own. Ranges are compared
/// as written: none and `[0:0]` differ.
#[derive(Clone, Copy)]
pub(crate) enum Ranges {
    NoRange,
    Same(Option<Range>),
    Different,
}

#[derive(Clone, Copy)]
pub(crate) struct Summary {
    /// Of the first declaration.
    pub range: Option<Range>,
    pub instance: bool,
    /// Of the first declaration that has one.
    pub dir: Option<Dir>,
    /// Of the first declaration that has one.
    pub kind: Option<NetKind>,
    /// Whether any of them declares an instance.
    pub instances: bool,
    /// Of those that are no supply: a port that is a supply is a fault of its role, whatever its range.
    pub ranges: Ranges,
}

pub(crate) type Declared = IndexMap<Name, Summary>;

impl DeclaredAs {
    pub(crate) fn port(port: Port) -> DeclaredAs
        ensures { (n : List ℕ) → named n result ≡ port_declaration port n }
    {
        DeclaredAs {
            dir: Some(port.dir),
            kind: port.kind.map(net_kind_of),
            range: port.range,
            instance: false,
        }
    }

    pub(crate) fn net(kind: NetKind, range: Option<Range>) -> DeclaredAs
        ensures { (n : List ℕ) → named n result ≡ net_declaration kind range n }
    {
        DeclaredAs {
            dir: None,
            kind: Some(kind),
            range,
            instance: false,
        }
    }

    pub(crate) fn instance() -> DeclaredAs
        ensures { (n : List ℕ) → named n result ≡ instance_declaration n }
    {
        DeclaredAs {
            dir: None,
            kind: None,
            range: None,
            instance: true,
        }
    }

    pub(crate) fn is_supply(self) -> bool
        ensures { (n : List ℕ) → result ≡ declares_supply (named n self) }
    {
        matches!(self.kind, Some(NetKind::Zero | NetKind::One))
    }
}

fn net_kind_of(kind: PortKind) -> NetKind
    ensures { result ≡ net_kind kind }
{
    match kind {
        PortKind::Wire => NetKind::Wire,
        PortKind::Reg => NetKind::Reg,
    }
}

pub(crate) fn supply_kind_of(high: bool) -> NetKind
    ensures { result ≡ supply_kind high }
{
    if high { NetKind::One } else { NetKind::Zero }
}

impl Ranges {
    fn with(self, range: Option<Range>) -> Ranges
        ensures { (all : List (Option Range)) → Reports self all → Reports result (all ++ range ∷ []) }
    {
        match self {
            Ranges::NoRange => Ranges::Same(range),
            Ranges::Same(first) if first == range => self,
            _ => Ranges::Different,
        }
    }

    fn has_other(self, range: Option<Range>) -> bool
        ensures { result ≡ has_other self range }
    {
        match self {
            Ranges::NoRange => false,
            Ranges::Same(first) => first != range,
            Ranges::Different => true,
        }
    }
}

pub(crate) fn summary_of(declared: &Declared, name: &Name) -> Option<Summary>
    ensures { result ≡ lookup (same_name name.now) declared.now.entries }
{
    declared.get(name).copied()
}

fn ranges_with(ranges: Ranges, d: DeclaredAs) -> Ranges
    ensures { (n : List ℕ) (all : List (Option Range)) → Reports ranges all
        → Reports result (all ++ (if declares_supply (named n d) then [] else d.range ∷ [])) }
{
    if d.is_supply() {
        ranges
    } else {
        ranges.with(d.range)
    }
}

fn joined(earlier: Option<Summary>, d: DeclaredAs) -> Summary
    ensures { (n : List ℕ) (all : List Declaration) → IsSummary n all earlier
        → IsSummary n (all ++ named n d ∷ []) (Some result) }
{
    match earlier {
        None => Summary {
            range: d.range,
            instance: d.instance,
            dir: d.dir,
            kind: d.kind,
            instances: d.instance,
            ranges: ranges_with(Ranges::NoRange, d),
        },
        Some(s) => Summary {
            range: s.range,
            instance: s.instance,
            dir: s.dir.or(d.dir),
            kind: s.kind.or(d.kind),
            instances: s.instances || d.instance,
            ranges: ranges_with(s.ranges, d),
        },
    }
}

/// Adds a declaration, and gives what was known of the name before.
///
/// Most names are declared once. So the name is inserted as if it were new, and the summary is replaced only where
/// there was one: one access to the map for each such name.
pub(crate) fn declare_next(
    declared: &mut Declared,
    name: &Name,
    d: DeclaredAs,
) -> Result<Option<Summary>, NoMemory>
    ensures earlier { IfOk result (λ earlier. earlier ≡ lookup (same_name name.now) declared.old.entries) }
    ensures declared { (all : List Declaration) → Describes declared.old.entries all
        → OnOk result (Describes declared.new.entries (all ++ named name.now d ∷ [])) }
{
    let earlier = declared.insert(name.clone()?, joined(None, d))?;
    if earlier.is_some() {
        declared.insert(name.clone()?, joined(earlier, d))?;
    }
    Ok(earlier)
}

pub(crate) fn declare(declared: &mut Declared, name: &Name, d: DeclaredAs) -> Result<(), NoMemory>
    ensures { (all : List Declaration) → Describes declared.old.entries all
        → OnOk result (Describes declared.new.entries (all ++ named name.now d ∷ [])) }
{
    declare_next(declared, name, d)?;
    Ok(())
}

fn is_second<T: Copy>(earlier: Option<T>, later: Option<T>) -> bool
    ensures { result ≡ (is_some earlier && is_some later) }
{
    earlier.is_some() && later.is_some()
}

fn is_other_range(port: bool, s: Summary, d: DeclaredAs) -> bool
    ensures { (n : List ℕ) → result ≡ (port && (not (declares_supply (named n d)) && has_other s.ranges d.range)) }
{
    if !port || d.is_supply() {
        return false;
    }
    s.ranges.has_other(d.range)
}

/// "A second time" counts in text order: of a kind and a direction that do not fit, the later statement is at fault.
fn is_too_many(port: bool, s: Summary, d: DeclaredAs) -> bool
    ensures { (n : List ℕ) → result ≡ leaves_no_room port (named n d) s }
{
    if is_second(s.dir, d.dir) || is_second(s.kind, d.kind) || s.instances || d.instance {
        return true;
    }
    is_other_range(port, s, d)
}

pub(crate) fn is_clash(port: bool, earlier: Option<Summary>, d: DeclaredAs) -> bool
    ensures { (m : PlainModule) (n : List ℕ) (all : List Declaration) → port ≡ is_port m n → IsSummary n all earlier
        → result ≡ list_any (λ x. clashes m x (named n d)) all }
{
    match earlier {
        Some(s) => is_too_many(port, s, d),
        None => false,
    }
}
