// Why no message was read.
use std::alloc::AllocError;
use thiserror::Error;

/// Why bytes don't begin with a message.
#[derive(Clone, Copy, Debug, PartialEq, Eq, Error)]
pub enum FrameError {
    /// No frame begins so, whatever follows.
    #[error("no frame begins so")]
    BadFrame,
    /// A frame may begin so, and more bytes are wanted.
    #[error("the frame goes on past these bytes")]
    Short,
    #[error("no memory was found")]
    Memory,
}

impl From<AllocError> for FrameError {
    ghost use Rattle.std.specs.Prelude.{◌≡◌};
    ghost use Rattle.vb_msg.specs.declared.frame_error.FrameError.TheVariants.{Memory};

    ghost from_gives = { λ _ error. error ≡ Memory };

    fn from(_error: AllocError) -> FrameError {
        FrameError::Memory
    }
}
