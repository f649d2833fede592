// The view of a tree all of whose blocks were read.
ghost use Rattle.std.specs.Prelude.{◌≡◌, None, IfOk, IfErr};

use crate::mount_parts::Whole;
use crate::view::{View, space_of};
use std::alloc::Global;

/// The view of a tree that was read. For want of memory it hands the tree back.
pub(crate) fn view_of(alloc: Global, whole: Whole) -> Result<View, Whole>
    ensures head { IfOk result (λ view. view.head ≡ whole.head) }
    ensures index { IfOk result (λ view. view.index ≡ whole.index) }
    ensures none_begun { IfOk result (λ view. view.next ≡ None) }
    ensures stands { IfErr result (λ left. left ≡ whole) }
{
    match space_of(alloc, &whole.head, &whole.index) {
        Ok(space) => {
            let Whole {
                head,
                index,
                place: _,
            } = whole;
            Ok(View::with_space(head, index, space))
        }
        Err(_) => Err(whole),
    }
}
