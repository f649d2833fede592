// What a step of an upload answers.

/// What a step of an upload did. One of `Upload` answers Sent or Published.
#[derive(Clone, Copy, Debug, PartialEq, Eq)]
pub enum UploadStep {
    /// A message was sent, and it wasn't the last.
    Sent,
    /// A file was sent as one that is published already.
    Kept,
    /// The view of this epoch is published.
    Published { epoch: u64 },
    /// The cloud was asked, and shows another epoch than the one in doubt.
    Asked,
    /// There is nothing to send.
    Nothing,
}
