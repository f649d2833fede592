// Whole devices that list no failure: over them each event of a folder is answered as it is due.
#![tactic(auto)]

mod laws;

pub use laws::{faultless_devices_answer, whole_disks_show_no_damage, whole_disks_stay_whole};
