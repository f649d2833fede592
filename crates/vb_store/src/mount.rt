// A mount: the recovery of a store's journal, and the reads of its nodes and map pages, one call of the disk at a time.
ghost use Rattle.std.specs.Prelude.{is_some, ◌≡◌, ◌≢◌, ◌≤◌, ℕ, Bool, List, Some, None, IfOk, IfErr, IsSome};
ghost use Rattle.vb_cause.specs.Causes.{HasCause, UsesFailures};
ghost use Rattle.vb_steps.specs.Steps.{CallsOnce};
ghost use Rattle.vb_disk.specs.States.{DiskState, IsDiskState};
ghost use Rattle.vb_journal.specs.Recovering.{MakesCall, SeenStays};
ghost use Rattle.vb_store.specs.Mounts.{blocks_of_mount, due_of_mount, mount_calls, mount_calls_left, mount_phase, ready_view, relied_on, AnswersMount, HasMountEnded, IsAheadOfMount, IsMounting, MakesNext, MountsOn, MountStandsAfter};
ghost use Rattle.vb_disk.specs.Within.{CrashesWithin};
ghost use Rattle.vb_journal.specs.RecoveryCalls.{Falls};
ghost use Rattle.vb_steps.specs.Disks.{disk_view};
ghost use Rattle.vb_store.specs.MountFalls.{most_mount_calls};
ghost use Rattle.vb_store.specs.MountSteps.{MountSteps};
ghost use Rattle.vb_store.specs.MountsBeside.{IsMountedBeside, KeepsBeside};
ghost use Rattle.vb_store.specs.OneOf.{RecoversOneOf, TreeView};
ghost use Rattle.vb_store.specs.Views.{HasNoneBegun, IsView};

use crate::Mounted;
use crate::mount_phase::{JournalPhase, MountPhase};
use std::alloc::Global;
use vb_disk::Disk;
use vb_journal::{Ahead, Recover, RecoverError};
use vb_steps::step;

/// A mount of the store on a disk. Each step makes one call of the disk.
#[derive(Drop)]
pub struct Mount<D> {
    alloc: Global,
    disk: D,
    phase: MountPhase,
}

impl<D> Mount<D> {
    ghost use Rattle.std.specs.Borrow.{sem};
    ghost use Rattle.vb_store.specs.MountLends.{lends_disk};

    /// A mount that begins.
    pub fn start(alloc: Global, disk: D) -> Mount<D>
        ensures disk { result.disk ≡ disk }
        ensures blocks { blocks_of_mount (mount_phase result) ≡ 0 }
        ensures relied { relied_on (mount_phase result) ≡ 0 }
        ensures known { (begun : DiskState) → IsDiskState begun → IsMounting (mount_phase result) begun begun }
        ensures calls { (begun : DiskState) → mount_calls_left (mount_phase result) begun begun ≡ mount_calls begun }
        ensures beside { (views : List TreeView) (made : Bool) (d : DiskState) → RecoversOneOf views made d
            → IsMountedBeside views made (mount_phase result) d }
    {
        let recover = Recover::start(alloc);
        let phase = MountPhase::Recovering(JournalPhase { recover });
        Mount { alloc, disk, phase }
    }

    /// Ends the mount, and gives the disk back.
    pub fn into_disk(self) -> D
        ensures { result ≡ self.disk }
    {
        self.disk
    }

    /// Lends the disk. The mount goes on with what is left of it, which has to be as large as the mount saw it.
    pub fn disk(&mut self) -> &mut D
        ensures* writes_back { sem 𝓛 (lends_disk D.row self.entry result) }
        ensures disk { result.now ≡ self.old.disk }
    {
        &mut self.disk
    }
}

impl<D: Disk> Mount<D> {
    /// The disk, and the view of the store that stands on it. No next view is begun.
    pub fn finish(self) -> Mounted<D>
        requires { IsSome (ready_view (mount_phase self)) }
        ensures disk { result.disk ≡ self.disk }
        ensures view { ready_view (mount_phase self) ≡ Some result.view }
        ensures shown { IsView result.view }
        ensures none_begun { HasNoneBegun result.view }

        // The disk has all blocks of the store, as each step keeps it.
        ensures blocks { relied_on (mount_phase self) ≤ D.seen self.disk → result.view.head.blocks ≤ D.seen result.disk }
    {
        let Mount { disk, phase, .. } = self;
        match phase {
            MountPhase::Ready(ready) => Mounted {
                disk,
                view: ready.view,
            },
            _ => unreachable!(),
        }
    }

    /// Makes the next call of the disk. After a fault and for want of memory the next step makes the same call again;
    /// after another error it gives the same answer, and makes none.
    pub fn step(&mut self) -> Result<Ahead, RecoverError>
        requires { blocks_of_mount (mount_phase self.old) ≤ D.seen self.old.disk }
        ensures calls { MakesCall (due_of_mount (mount_phase self.old)) (D.told self.old.disk) (D.told self.new.disk) result }
        ensures ahead { IfOk result (λ ahead. IsAheadOfMount ahead (mount_phase self.new)) }
        ensures error { IfErr result (MountStandsAfter (mount_phase self.old) (mount_phase self.new)) }
        ensures again { (error : RecoverError) → HasMountEnded (mount_phase self.old) error → result ≡ Err error }
        ensures cause { HasCause RecoverError.DiskFault (D.faults self.old.disk) (D.faults self.new.disk) result }
        ensures left { UsesFailures RecoverError.DiskFault (D.failures_left self.old.disk) (D.failures_left self.new.disk) result }

        // It makes the call that is due and no other: none at the end, and for want of memory none or that one.
        ensures called { CallsOnce RecoverError.Memory (is_some (due_of_mount (mount_phase self.old))) (D.calls self.old.disk) (D.calls self.new.disk) result }
        ensures differ { (place : ℕ) (kept found : List ℕ) → result ≡ Err (RecoverError.Damaged place kept found) → kept ≢ found }
        ensures seen { SeenStays (due_of_mount (mount_phase self.old)) (D.seen self.old.disk) (D.seen self.new.disk) }
        ensures blocks { blocks_of_mount (mount_phase self.new) ≤ D.seen self.new.disk }
        ensures relied { relied_on (mount_phase self.old) ≤ D.seen self.old.disk → relied_on (mount_phase self.new) ≤ D.seen self.new.disk }

        // Ready comes with the metadata of what reads gave when the mount began, and a refusal where they are refused so.
        ensures answer { (begun d : DiskState) → D.told self.old.disk ≡ Some d → IsMounting (mount_phase self.old) begun d
            → AnswersMount begun (mount_phase self.new) result }

        // It made the first of the calls that are left, by what reads gave when the mount began.
        ensures list { (begun d next : DiskState) → D.told self.old.disk ≡ Some d → D.told self.new.disk ≡ Some next
            → IsMounting (mount_phase self.old) begun d
            → MakesNext (due_of_mount (mount_phase self.old)) (mount_calls_left (mount_phase self.old) begun d) (mount_calls_left (mount_phase self.new) begun next) result }

        // From the first sync on each crash within the step leaves the metadata, and a clear disk stays clear.
        ensures crash { MountsOn (mount_phase self.old) (mount_phase self.new) (D.told self.old.disk) (D.told self.new.disk) }
        ensures within { CrashesWithin (D.told self.old.disk) (D.told self.new.disk) }

        // What is known beside damage stays so: the same views may be recovered, and one that is ready is one of them.
        ensures keeps { KeepsBeside (mount_phase self.old) (mount_phase self.new) (D.told self.old.disk) (D.told self.new.disk) }

        // So steps come to an end, over disks that tell nothing too.
        ensures falls { Falls (due_of_mount (mount_phase self.old)) (most_mount_calls (mount_phase self.old)) (most_mount_calls (mount_phase self.new)) result }

        // All of it as one relation, for callers to cite.
        ensures steps { MountSteps (mount_phase self.old) (mount_phase self.new)
            (disk_view (D.told self.old.disk) (D.seen self.old.disk) (D.faults self.old.disk) (D.failures_left self.old.disk) (D.calls self.old.disk))
            (disk_view (D.told self.new.disk) (D.seen self.new.disk) (D.faults self.new.disk) (D.failures_left self.new.disk) (D.calls self.new.disk)) result }
    {
        let alloc = self.alloc;
        match step(alloc, &mut self.phase, &mut self.disk) {
            Ok(()) => self.phase.answer(),
            Err(error) => Err(RecoverError::from(error)),
        }
    }
}
