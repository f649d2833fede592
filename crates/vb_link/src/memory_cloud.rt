// A cloud in memory behind a link that fails where it was told to.
ghost use Rattle.std.specs.Prelude.{◌≡◌};
ghost use Rattle.vb_cloud.specs.Valid.{IsCloudState};
ghost use Rattle.vb_link.specs.Props.{IsCloudState-prop};

use std::alloc::{AllocError, Global};
use vb_cause::{Failures, raised};
use vb_cloud::{Cloud, clouds_go_on};

/// A cloud in memory, and the calls of its link that are to fail.
#[derive(Drop)]
pub struct MemoryCloud {
    pub(crate) alloc: Global,
    pub(crate) cloud: Cloud,
    pub(crate) calls: u64,
    pub(crate) sends: u64,
    pub(crate) faults: u64,
    pub(crate) fails: Failures<bool>,
    ghost sound: { IsCloudState cloud } by { IsCloudState-prop cloud },
}

impl MemoryCloud {
    ghost use Rattle.std.specs.Prelude.{◌≡◌, ◌<◌, ◌≤◌, [], length, IsSome, OnOk, OnErr};
    ghost use Rattle.vb_cause.specs.Failing.{due_of, with_failure, passed};
    ghost use Rattle.vb_cause.specs.Faults.{counted, HasRisen};
    ghost use Rattle.vb_cloud.specs.Machine.{new_cloud};
    ghost use Rattle.vb_link.specs.Memory.{cloud_of, link_calls_of, link_sends_of, link_failures_of, link_faults_of};

    /// A new cloud, of whose link no call fails. None was made yet. It takes no memory.
    pub fn new(alloc: Global) -> MemoryCloud
        ensures cloud { cloud_of result ≡ new_cloud }
        ensures failures { link_failures_of result ≡ [] }
        ensures faults { link_faults_of result ≡ 0 }
        ensures calls { link_calls_of result ≡ 0 }
        ensures sends { link_sends_of result ≡ 0 }
    {
        clouds_go_on();
        MemoryCloud {
            alloc,
            cloud: Cloud::new(alloc),
            calls: 0,
            sends: 0,
            faults: 0,
            fails: Failures::new(alloc),
        }
    }

    /// Lets a call fail, counted from 1 from now on. With `after`, a message is applied all the same. A call 0 is none.
    pub fn fail_call(&mut self, nth: u32, after: bool) -> Result<(), AllocError>
        ensures ok { OnOk result (link_failures_of self.new ≡ with_failure (link_failures_of self.old) nth after) }
        ensures err { OnErr result (link_failures_of self.new ≡ link_failures_of self.old) }
        ensures cloud { cloud_of self.new ≡ cloud_of self.old }
        ensures faults { link_faults_of self.new ≡ link_faults_of self.old }
        ensures calls { link_calls_of self.new ≡ link_calls_of self.old }
        ensures sends { link_sends_of self.new ≡ link_sends_of self.old }
    {
        self.fails.add(nth, after)
    }

    /// Lets no call fail.
    pub fn clear_fails(&mut self)
        ensures failures { link_failures_of self.new ≡ [] }
        ensures cloud { cloud_of self.new ≡ cloud_of self.old }
        ensures faults { link_faults_of self.new ≡ link_faults_of self.old }
        ensures calls { link_calls_of self.new ≡ link_calls_of self.old }
        ensures sends { link_sends_of self.new ≡ link_sends_of self.old }
    {
        self.fails.clear();
    }

    /// The cloud, to be looked at without a call.
    pub fn cloud(&self) -> &Cloud
        ensures { result.now ≡ cloud_of self.now }
    {
        &self.cloud
    }

    // Lets a call pass that fails or is refused.
    pub(crate) fn count_fault(&mut self)
        ensures failures { link_failures_of self.new ≡ passed (link_failures_of self.old) }
        ensures faults { link_faults_of self.new ≡ counted (link_faults_of self.old) }
        ensures kept { link_faults_of self.old ≤ link_faults_of self.new }
        ensures risen { HasRisen (link_faults_of self.old) (link_faults_of self.new) }
        ensures left { length (link_failures_of self.new) ≤ length (link_failures_of self.old) }
        ensures used { IsSome (due_of (link_failures_of self.old)) → length (link_failures_of self.new) < length (link_failures_of self.old) }
        ensures cloud { cloud_of self.new ≡ cloud_of self.old }
        ensures calls { link_calls_of self.new ≡ link_calls_of self.old }
        ensures sends { link_sends_of self.new ≡ link_sends_of self.old }
    {
        self.fails.pass();
        self.faults = raised(self.faults);
    }
}
