// What is done to a disk in memory from outside: crashes and silent damage.
use crate::crash_checks::{check_picks, check_tears, first_miss_at, is_miss_at};
use crate::crashing::{copies, pick_all, tear_all};
use crate::{CrashRefused, DamageRefused, MemoryDisk, MissRefused, Pick, Side, Tear};
use vb_block::Page;

impl MemoryDisk {
    ghost use Rattle.std.specs.Prelude.{◌≡◌, [], OnOk, OnErr};
    ghost use Rattle.vb_disk.specs.Crashes.{crashed, crash_refusal, damaged, damage_refusal, AnswersCrash, AnswersDamage, AnswersMiss, MayCrashTo};
    ghost use Rattle.vb_disk.specs.Memory.{state_of, calls_of, failures_of, faults_of, IsUntouched};

    /// Crashes: each place keeps the candidate of its first pick, or else the oldest or newest one, and reads as
    /// the page of its first tear, or else as before. No call is to fail any more.
    pub fn crash(&mut self, rest: Side, picks: &[Pick], torn: &[Tear]) -> Result<(), CrashRefused>
        ensures answer { AnswersCrash (crash_refusal (state_of self.old) picks.now torn.now) result }
        ensures ok { OnOk result (state_of self.new ≡ crashed rest picks.now torn.now (state_of self.old)) }
        ensures failures { OnOk result (failures_of self.new ≡ []) }
        ensures faults { OnOk result (faults_of self.new ≡ faults_of self.old) }
        ensures calls { calls_of self.new ≡ calls_of self.old }
        ensures err { OnErr result (IsUntouched self.old self.new) }

        // It is one of the crashes that a disk may have.
        ensures may_come { OnOk result (MayCrashTo (state_of self.old) (state_of self.new)) }
    {
        check_picks(&self.table, picks)?;
        check_tears(&self.table, torn)?;
        let pages = copies(self.table.alloc, torn)?;
        tear_all(&mut self.table, torn, pages);
        pick_all(&mut self.table, picks);
        self.table.settle(rest);
        self.fails.clear();
        Ok(())
    }

    /// Damages a place silently: it reads as this page from now on, until it is written.
    pub fn damage(&mut self, place: u32, page: Page) -> Result<(), DamageRefused>
        ensures answer { AnswersDamage (damage_refusal (state_of self.old) place page) result }
        ensures ok { OnOk result (state_of self.new ≡ damaged (state_of self.old) place page) }
        ensures failures { OnOk result (failures_of self.new ≡ failures_of self.old) }
        ensures faults { OnOk result (faults_of self.new ≡ faults_of self.old) }
        ensures calls { calls_of self.new ≡ calls_of self.old }
        ensures err { OnErr result (IsUntouched self.old self.new) }
    {
        if place >= self.table.size {
            return Err(DamageRefused::NoSuchPlace { place });
        }
        if !is_miss_at(&self.table, place, &page) {
            return Err(DamageRefused::NotAMiss { place });
        }
        self.table.damage(place, page)?;
        Ok(())
    }

    /// The page of 4,096 equal bytes that is a miss at a place: of byte 0xEE, or else of the next one downwards.
    pub fn miss(&self, place: u32) -> Result<Page, MissRefused>
        ensures { AnswersMiss (state_of self.now) place result }
    {
        if place >= self.table.size {
            return Err(MissRefused::NoSuchPlace { place });
        }
        let mut page = Page::zero(self.table.alloc)?;
        if first_miss_at(&self.table, place, &mut page) {
            Ok(page)
        } else {
            Err(MissRefused::AllTaken { place })
        }
    }
}
