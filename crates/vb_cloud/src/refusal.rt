// Why a cloud refuses a message.
use std::alloc::AllocError;
use thiserror::Error;

/// Why a cloud refused what it was sent. It gives the first reason that applies, and stays as it was.
#[derive(Clone, Copy, Debug, PartialEq, Eq, Error)]
pub enum CloudRefusal {
    /// The cloud has an id.
    #[error("the cloud has an id")]
    Claimed,
    /// There is no draft, or it is of another epoch than the one that is to be published.
    #[error("there is no draft of that epoch")]
    NoDraft,
    /// An object stands where none may, or still grows where it has to be sealed.
    #[error("an object stands where none may")]
    ObjectOpen,
    /// No object stands, or none grows, where one has to.
    #[error("there is no object to take")]
    NoObject,
    /// The object would have this many bytes, more than 44,433,408.
    #[error("an object of {length} bytes would be longer than 44,433,408")]
    TooLarge { length: u64 },
    /// The parent is neither the root nor a folder of the draft.
    #[error("the parent is no folder of the draft")]
    BadParent,
    /// The path stands in the draft.
    #[error("the draft has an entry of that path")]
    Twice,
    /// The draft has 65,535 entries.
    #[error("the draft has 65,535 entries")]
    TooMany,
    /// The epoch isn't greater than the published one.
    #[error("epoch {asked} isn't later than {published}, which is published")]
    NotLater { published: u64, asked: u64 },
    /// No file that is shown has this path.
    #[error("no such file is shown")]
    NoSuchEntry,
    #[error("no memory was found")]
    Memory,
}

impl From<AllocError> for CloudRefusal {
    ghost use Rattle.std.specs.Prelude.{◌≡◌};
    ghost use Rattle.vb_cloud.specs.declared.refusal.CloudRefusal.TheVariants.{Memory};

    ghost from_gives = { λ _ refusal. refusal ≡ Memory };

    fn from(_error: AllocError) -> CloudRefusal {
        CloudRefusal::Memory
    }
}
