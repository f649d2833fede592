// The data places of a disk: which of them the committed and the next view use, and which is free.
#![tactic(auto)]

mod settle;
mod space;
mod users;

pub use space::Space;
pub use users::Users;

#[cfg(test)]
mod tests;
