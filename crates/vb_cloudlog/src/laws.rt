// A law of logs, the contract of a function that does nothing.
ghost use Rattle.std.specs.Prelude.{◌≡◌, ◌++◌, ℕ, List, length, Some, Ok, Err};
ghost use Rattle.vb_msg.specs.Frames.{frame, frames_of};
ghost use Rattle.vb_msg.specs.declared.message.Msg.{Msg};
ghost use Rattle.vb_cloud.specs.Machine.{CloudState, new_cloud, cloud_step};
ghost use Rattle.vb_cloud.specs.declared.refusal.CloudRefusal.{CloudRefusal};
ghost use Rattle.vb_cloudlog.specs.Loads.{cloud_in};
ghost use Rattle.vb_cloudlog.specs.Messages.{Partial, Wrong, opening_of};
ghost use Rattle.vb_cloudlog.specs.Replays.{fed, moved, replay_of, ReplayState};
ghost use Rattle.vb_cloudlog.specs.Streams.{through};
ghost use Rattle.vb_cloudlog.specs.declared.stop.Stop.{Stop};

/// A log of the frames of messages that a new cloud takes, and then less than a frame, is the cloud that they leave.
/// Where what follows is wrong, or the frame of a message that is refused, a reader stops there. A reader that is fed two
/// pieces is the one that is fed both at once, so it is of no matter how a log is cut into pieces. It does nothing.
#[tactic(auto, using(crate::proofs::WholeLogs::whole_logs))]
pub fn logs_are_their_frames()
    ensures taken { (bytes rest : List ℕ) (ms : List Msg) (k : CloudState) → bytes ≡ frames_of ms ++ rest → through new_cloud ms ≡ Ok k
        → opening_of rest ≡ Partial → cloud_in bytes ≡ Some k }
    ensures pieces { (r : ReplayState) (first second : List ℕ) → fed r (first ++ second) ≡ fed (fed r first) second }
    ensures wrong { (bytes rest : List ℕ) (ms : List Msg) (k : CloudState) → bytes ≡ frames_of ms ++ rest → through new_cloud ms ≡ Ok k
        → opening_of rest ≡ Wrong → (replay_of bytes).stop ≡ Some (Stop.BadFrame (moved 0 (length (frames_of ms)))) }
    ensures refused { (bytes more : List ℕ) (ms : List Msg) (m : Msg) (k : CloudState) (refusal : CloudRefusal) → bytes ≡ frames_of ms ++
        (frame m ++ more)
        → through new_cloud ms ≡ Ok k → cloud_step k m ≡ Err refusal
        → (replay_of bytes).stop ≡ Some (Stop.OutOfOrder (moved 0 (length (frames_of ms))) refusal) }
{}
