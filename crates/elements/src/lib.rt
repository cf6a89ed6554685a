// One element of a field at a time, by tables that are made once for the field: its square, its trace, whether it is normal, and the ones of its
// table. The last two are read off through a reference, which is one normal element whose basis is built.
#![tactic(auto)]

mod deciding;
mod modulus;
mod reference;
mod squares;
mod tables;
mod traces;
mod units;
mod upper;
mod windows;

pub use modulus::Modulus;
pub use reference::Reference;
pub use squares::Squares;
pub use upper::Tables;
