// A law of clouds, the contract of a function that does nothing.
ghost use Rattle.std.specs.Prelude.{List};
ghost use Rattle.vb_msg.specs.declared.message.Msg.{Msg};
ghost use Rattle.vb_cloud.specs.Machine.{CloudState, new_cloud, cloud_after};
ghost use Rattle.vb_cloud.specs.Rising.{RisesTo};
ghost use Rattle.vb_cloud.specs.Valid.{IsCloudState};

/// Whatever messages come, the state stays one that a cloud can have, the shown epoch never falls, and equal epochs
/// show equal views. It does nothing.
#[tactic(auto, using(crate::proofs::Rises::rising))]
pub fn clouds_go_on()
    ensures new { IsCloudState new_cloud }
    ensures valid { (k : CloudState) (messages : List Msg) → IsCloudState k → IsCloudState (cloud_after k messages) }
    ensures rises { (k : CloudState) (messages : List Msg) → IsCloudState k → RisesTo k (cloud_after k messages) }
{}
