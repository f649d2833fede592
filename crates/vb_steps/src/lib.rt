// Machines that make one call of the outside a step, and the one function that makes it.
#![tactic(auto)]

mod driver;
mod due;
mod machine;
mod making;

pub use driver::step;
pub use due::{Due, Got};
pub use machine::Machine;
