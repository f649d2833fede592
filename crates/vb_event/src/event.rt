// What can happen to a folder.
use vb_tree::Op;

/// One call on a folder.
#[derive(Debug, Drop)]
pub enum FolderEvent {
    /// A writer's operation.
    Call { writer: u32, op: Op },
    /// A freeze, by a writer or by 0, the program.
    Freeze { by: u32 },
    /// One step of the commit that is on.
    CommitStep,
    /// One step of the upload of the committed view.
    UploadStep,
    /// The frozen view is given up.
    DropView,
    /// A writer ends.
    End { writer: u32 },
}
