// What writers are to do: a list of lines for each.
use vb_list::Items;
use vb_tree::Op;

/// One line of a writer's script.
#[derive(Debug, Drop)]
pub enum Line {
    /// An operation on the live folder.
    Perform { op: Op },
    /// A freeze of the folder.
    Freeze,
}

/// A list of lines.
pub type Lines = Items<Line>;

/// A writer's number, and its lines in order.
#[derive(Debug, Drop)]
pub struct WriterScript {
    pub writer: u32,
    pub lines: Lines,
}

/// The writers' scripts, in the order of their sections.
pub type Scripts = Items<WriterScript>;
