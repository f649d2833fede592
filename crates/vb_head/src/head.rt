// What a head says.
use vb_block::{Digest, FolderId, Why};

/// What a store is doing.
#[derive(Clone, Copy, Debug, PartialEq, Eq)]
pub enum State {
    /// The homes of the nodes hold the committed state.
    Closed,
    /// The first `count` images of the journal are yet to be put over the homes.
    Opened { count: u32 },
    /// The store is being made, and holds nothing that can be read.
    Rebuilding,
}

/// What a head says of its store.
#[derive(Clone, Copy, Debug, PartialEq, Eq)]
pub struct Head {
    /// The folder that the store holds.
    pub id: FolderId,
    /// How many places the store has.
    pub blocks: u32,
    /// How many nodes it has.
    pub nodes: u32,
    /// Rises with each head that is written. The greater one of two heads counts.
    pub sequence: u64,
    /// The last committed epoch.
    pub epoch: u64,
    pub state: State,
}

/// What a page reads as, where a head is due.
#[derive(Clone, Copy, Debug, PartialEq, Eq)]
pub enum HeadRead {
    /// A head.
    Good(Head),
    /// The head of a store, one of whose fields fails this check.
    Bad(Why),
    /// A sealed block that is no head of this version.
    Alien,
    /// The last 32 bytes, `kept`, aren't the SHA-256 of those before them, `found`.
    Unsealed { kept: Digest, found: Digest },
    /// Zeros alone.
    Blank,
}
