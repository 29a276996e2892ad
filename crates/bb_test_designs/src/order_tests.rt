//! Cells in any order, through public calls. The list is made by hand, since what is tested is an alias before its
//! cell.

use bb_net::{Cell, Loose, LooseCell, order};
use std::test::Fail;

// The alias comes before its cell: an input, an alias of a complement, and that complement; the output is the alias.
#[test]
fn a_copy_is_where_its_cell_is(rt: HostRuntime) -> Result<(), Fail> {
    let cells = [
        LooseCell::Const(false),
        LooseCell::Const(true),
        LooseCell::Input(0),
        LooseCell::Copy(4),
        LooseCell::Not(2),
    ];
    let outs = vec![in rt.alloc(); 3]?;
    let loose = Loose::of(1, cells.to_vec(rt.alloc())?, Vec::new(rt.alloc()), outs);
    let ordered = order(&loose)?;
    assert_eq!(rt; ordered.net.cells().len(), 4);
    assert_eq!(rt; ordered.net.cells()[3], Cell::Not(2));
    assert_eq!(rt; ordered.net.outs(), [3].as_slice());
    Ok(())
}
