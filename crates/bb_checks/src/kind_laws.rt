//! The laws of sharing classes of boxes on which laws of reports rest, gathered once: laws of reports, of tables and of
//! isomorphic pairs all need them.

ghost use Rattle.bb_checks.specs.Inside.KindLaws.{KindLaws};

use bb_net::{
    BoxName, BoxPins, kinds_are_shown, kinds_may_differ, shared_tables_make_equivalent,
    tables_are_spread,
};

pub(crate) fn kind_laws()
    ensures { KindLaws }
{
    kinds_are_shown::<BoxPins>();
    kinds_are_shown::<BoxName>();
    kinds_may_differ();
    tables_are_spread();
    shared_tables_make_equivalent();
}
