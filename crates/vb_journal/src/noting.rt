// Slots of images, as a recovery notes them.
ghost use Rattle.std.specs.Prelude.{◌≡◌, ◌+◌, ◌<◌, ◌≤◌, true, None, if◌then◌else◌, vec_capacity, vec_len, OnOk, OnErr};
ghost use Rattle.vb_journal.specs.Notes.{slots_with};
ghost use Rattle.vb_journal.specs.Recovering.{images_by};
ghost use Rattle.vb_journal.specs.Recovers.{last_of};

use crate::recover_stage::RecoverStage;
use std::alloc::AllocError;
use vb_block::get_u32;

/// Makes room for the slot of an image, where one is to be read.
pub(crate) fn make_room(slots: &mut Vec<u32>, reads_image: bool) -> Result<(), AllocError>
    ensures items { slots.new.items ≡ slots.old.items }
    ensures len { vec_len slots.new ≡ vec_len slots.old }
    ensures ok { OnOk result (reads_image ≡ true → vec_len slots.new < vec_capacity slots.new) }
    ensures err { OnErr result (reads_image ≡ true) }
{
    if !reads_image {
        return Ok(());
    }
    slots.reserve(1)
}

/// Adds the slot of the image that was read, where one was. There is room for it.
pub(crate) fn note_slot(slots: &mut Vec<u32>, reads_image: bool, stage: &RecoverStage)
    requires { reads_image ≡ true → vec_len slots.old < vec_capacity slots.old }
    ensures slots { slots.new.items ≡ slots_with slots.old.items (if reads_image then last_of (images_by stage.now) else None) }
    ensures len { vec_len slots.new ≤ (if reads_image then vec_len slots.old + 1 else vec_len slots.old) }
{
    if !reads_image {
        return;
    }
    if let Some(image) = stage.last_image() {
        let _ = slots.push(get_u32(image, 0));
    }
}
