// A recovery beside damage: what may be recovered stays, whatever is damaged while it goes on.
ghost use Rattle.std.specs.Prelude.{◌≡◌, ℕ, Bool, List};
ghost use Rattle.vb_disk.specs.Crashes.{damaged, MayCrashTo};
ghost use Rattle.vb_disk.specs.States.{DiskState, IsDiskState};
ghost use Rattle.vb_journal.specs.declared.recover_error.RecoverError.{RecoverError};
ghost use Rattle.vb_journal.specs.RecoverViews.{call_in, next, AtAsk, AtRefused, Reads, RecoverView};
ghost use Rattle.vb_steps.specs.Calls.{after, answer_of, MayFailTo};
ghost use Rattle.vb_store.specs.Beside.{HasReason, IsBeside};
ghost use Rattle.vb_store.specs.OneOf.{RecoversOneOf, TreeView};

/// While a store is recovered from a disk, at each stage, the same views may be recovered from it, and none besides:
/// after damage of any place, after the call that is due, and after one that failed. So they may after a crash, which
/// leaves what one before the call or after it leaves. A refusal has its reason at that moment.
pub fn a_recovery_goes_on_beside_damage()
    ensures begins { (views : List TreeView) (made : Bool) (d : DiskState) → RecoversOneOf views made d → IsBeside views made AtAsk d }
    ensures damage { (views : List TreeView) (made : Bool) (view : RecoverView) (d : DiskState) (place : ℕ) (page : List ℕ)
        → IsBeside views made view d → IsBeside views made view (damaged d place page) }
    ensures call { (views : List TreeView) (made : Bool) (view : RecoverView) (d : DiskState) → IsDiskState d
        → IsDiskState (after d (call_in view)) → Reads view (answer_of d (call_in view)) → IsBeside views made view d
        → IsBeside views made (next view (answer_of d (call_in view))) (after d (call_in view)) }
    ensures failed { (views : List TreeView) (made : Bool) (view : RecoverView) (d left : DiskState) → MayFailTo (call_in view) d left
        → IsBeside views made view d → IsBeside views made view left }
    ensures crash { (views : List TreeView) (made : Bool) (view : RecoverView) (d new : DiskState) → IsBeside views made view d
        → MayCrashTo d new → RecoversOneOf views made new }
    ensures refused { (views : List TreeView) (made : Bool) (why : RecoverError) (d : DiskState) → IsBeside views made (AtRefused why) d
        → HasReason made why d }
{}
