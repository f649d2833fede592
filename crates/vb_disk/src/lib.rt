// Disks: what one may do, what a crash may leave of it, and a disk in memory that does just that.
#![tactic(auto)]

mod after_crash;
mod cell;
mod cells;
mod crash;
mod crash_checks;
mod crashing;
mod disk;
mod disk_error;
mod log_file;
mod memory_calls;
mod memory_crash;
mod memory_disk;
mod memory_log;
mod misses;
mod moments;
mod oldest;
mod table;

pub use after_crash::crash_leaves_a_disk;
pub use cell::Cell;
pub use crash::{CrashRefused, DamageRefused, MissRefused, Pick, Side, Tear};
pub use disk::Disk;
pub use disk_error::DiskError;
pub use log_file::{LogError, LogFile};
pub use memory_disk::MemoryDisk;
pub use memory_log::MemoryLog;
pub use moments::{no_call, no_sync, one_call};
pub use oldest::Oldest;

#[cfg(test)]
mod tests;
