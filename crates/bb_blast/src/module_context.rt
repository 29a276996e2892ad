//! What is passed down while a template is made, as borrowed records: each function takes one argument instead of
//! three.

use bb_names::Checked;

/// `starts` has for each net the number of its first bit.
#[derive(Clone, Copy)]
pub(crate) struct ModuleContext<'a> {
    pub checked: &'a Checked,
    pub module: u32,
    pub starts: &'a [u32],
}

/// `instance` is its number in the module, `target` the index of the module that it instantiates, and `starts` has the
/// first bits of that module's nets.
#[derive(Clone, Copy)]
pub(crate) struct InstanceContext<'a> {
    pub instance: u32,
    pub target: u32,
    pub starts: &'a [u32],
}

/// `modules` has the callee of each instance, by index; `starts` has the first bits of each module's nets.
#[derive(Clone, Copy)]
pub(crate) struct Targets<'a> {
    pub modules: &'a [usize],
    pub starts: &'a [Vec<u32>],
}
