// Stores: a folder's tree on a disk, how one is made and recovered, and the view of its committed state.
#![tactic(auto)]

mod beside;
mod clear_disks;
mod clear_mounts;
mod empty_stores;
mod file_bytes;
mod format_error;
mod formatting;
mod geometry;
mod hurt_reads;
mod known_views;
mod map_page;
mod map_reads;
mod mended_heads;
mod mount;
mod mount_homes;
mod mount_machine;
mod mount_maps;
mod mount_parts;
mod mount_phase;
mod mount_reading;
mod mount_stage;
mod mount_steps;
mod mounts_beside;
mod new_homes;
mod next_index;
mod next_laws;
mod next_places;
mod node_blocks;
mod one_of;
mod recovered_stores;
mod same_stores;
mod settled_stores;
mod surveys;
mod used_places;
mod view;
mod whole;

pub use beside::a_recovery_goes_on_beside_damage;
pub use clear_disks::a_crash_leaves_a_clear_disk;
pub use clear_mounts::{a_mount_leaves_a_clear_disk, a_sync_leaves_a_clear_disk};
pub use empty_stores::{
    a_format_leaves_an_empty_store, an_empty_store_can_be_viewed, an_empty_store_is_shown,
    an_empty_store_recovers_the_empty_tree,
};
pub use file_bytes::what_is_read_is_what_the_pages_hold;
pub use format_error::FormatError;
pub use formatting::format;
pub use hurt_reads::hurt_places_keep_the_metadata_or_are_found;
pub use known_views::{
    a_commit_recovers_the_old_view_or_the_new_one, a_format_leaves_the_empty_view,
    a_store_at_rest_recovers_its_view,
};
pub use mended_heads::a_mended_head_keeps_what_may_be_recovered;
pub use mount::Mount;
pub use mounts_beside::{a_mount_goes_on_beside_damage, a_mount_hands_on_what_it_knows};
pub use next_laws::{a_next_index_can_be_viewed, a_plan_over_a_view_can_be_committed};
pub use one_of::{
    a_clear_disk_recovers_one_of_its_views, a_view_of_a_disk_stays, what_may_be_recovered_stays,
};
pub use recovered_stores::{
    each_crash_of_a_mount_leaves_the_metadata, homes_tell_what_the_blocks_told,
};
pub use same_stores::{the_same_pages_recover_the_same_tree, the_same_store_has_the_same_metadata};
pub use settled_stores::{a_store_at_rest_is_settled_for_a_view, what_is_read_leads_to_a_view};
pub use vb_plan::{Plan as CommitPlan, PlanPage};
pub use view::{Mounted, View};

#[cfg(test)]
mod damage_tests;
#[cfg(test)]
mod forged_tests;
#[cfg(test)]
mod mount_tests;
#[cfg(test)]
mod next_tests;
#[cfg(test)]
mod tests;
