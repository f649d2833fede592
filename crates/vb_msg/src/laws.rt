// Laws of frames, each the contract of a function that does nothing.
ghost use Rattle.std.specs.Prelude.{◌≡◌, ◌<◌, ℕ, List, ◌++◌, length, take, Err};
ghost use Rattle.vb_msg.specs.declared.frame_error.FrameError.{FrameError};
ghost use Rattle.vb_msg.specs.declared.message.Msg.{Msg};
ghost use Rattle.vb_msg.specs.Frames.{frame, frames_of, front_of, AreFrames};

/// No frame begins another: the same bytes begin with the frame of one message. It does nothing.
#[tactic(auto, using(crate::proofs::FrameLaws::frame_laws))]
pub fn frames_tell_their_messages()
    ensures { (a b : Msg) (xs ys : List ℕ) → frame a ++ xs ≡ frame b ++ ys → (a ≡ b) × (xs ≡ ys) }
{}

/// Less than a frame asks for more bytes. It does nothing.
#[tactic(auto, using(crate::proofs::FrameLaws::frame_laws))]
pub fn fronts_of_frames_are_short()
    ensures { (m : Msg) (n : ℕ) → n < length (frame m) → front_of (take n (frame m)) ≡ Err FrameError.Short }
{}

/// The whole frames of some bytes are of one list of messages, with one rest; and where whole frames stand in front of
/// other bytes, the messages of both follow each other. It does nothing.
#[tactic(auto, using(crate::proofs::FrameLaws::frame_laws))]
pub fn bytes_hold_one_list_of_messages()
    ensures one { (bytes rest other : List ℕ) (messages others : List Msg) →
        AreFrames bytes messages rest → AreFrames bytes others other → (messages ≡ others) × (rest ≡ other) }
    ensures more { (bytes rest : List ℕ) (before messages : List Msg) →
        AreFrames bytes messages rest → AreFrames (frames_of before ++ bytes) (before ++ messages) rest }
{}
