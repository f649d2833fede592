// The folder over its devices: it keeps its tree on a disk, and publishes it to a cloud behind a link.
#![tactic(auto)]

mod calls;
mod commits;
mod folder;
mod folder_error;
mod freezes;
mod greeting;
mod naming;
mod start_error;
mod starting;
mod uploads;

pub use folder::Folder;
pub use folder_error::FolderError;
pub use start_error::{StartError, StartRefused};
pub use vb_folder::{FreezeError, NoView, UploadStep};
pub use vb_journal::CommitStep;
