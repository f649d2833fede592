// What a script says.
use vb_geometry::Geometry;
use vb_hist::Scripts;

/// What a script is for, which says which lines it may have.
#[derive(Clone, Copy, Debug, PartialEq, Eq)]
pub enum Form {
    /// It is played in a new world: it may have a disk and a schedule.
    Rehearse,
    /// It is run on a disk that is there: it has neither.
    Run,
}

/// What a script says: its disk, where it names one, and its writers in the order of their sections.
#[derive(Debug, Drop)]
pub struct Script {
    pub disk: Option<Geometry>,
    pub writers: Scripts,
}
