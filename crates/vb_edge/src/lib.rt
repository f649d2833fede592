// Disks and logs kept in real files. This is the edge: nobody tells what a file holds, and no proof says that a
// real disk behaves as a disk is said to.
#![tactic(auto)]

mod file_disk;
mod file_log;
mod late_file;

pub use file_disk::FileDisk;
pub use file_log::FileLog;

#[cfg(test)]
mod tests;
