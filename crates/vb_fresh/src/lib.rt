// A new store on a disk in memory, mounted: what a folder begins with that has no disk yet.
#![tactic(auto)]

mod fresh;

pub use fresh::mount_new;

#[cfg(test)]
mod tests;
