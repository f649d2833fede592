// Why a recovery ended.
ghost use Rattle.std.specs.Prelude.{◌≡◌, ◌≢◌, ℕ, List, false};
ghost use Rattle.vb_journal.specs.Recoveries.{is_retried};
ghost use Rattle.vb_journal.specs.declared.recover_error.RecoverError.TheVariants.{Damaged};

use crate::RecoverError;

/// Why a recovery ended, and no fault. Damage has two digests that differ.
#[derive(Clone, Copy)]
pub(crate) struct Refusal {
    pub(crate) error: RecoverError,
    ghost ends: { is_retried error ≡ false },
    ghost differ: { (place : ℕ) (kept found : List ℕ) → error ≡ Damaged place kept found → kept ≢ found },
}
