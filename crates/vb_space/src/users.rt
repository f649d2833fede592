// Who uses a place.
ghost use Rattle.std.specs.Prelude.{◌≡◌};

/// The views that use a place.
#[derive(Clone, Copy, Debug, PartialEq, Eq)]
pub enum Users {
    Neither,
    Committed,
    Next,
    Both,
}

impl Users {
    ghost use Rattle.vb_space.specs.Free.{has_committed, is_neither, settled};

    /// Whether the committed view uses the place.
    pub fn has_committed(self) -> bool
        ensures { result ≡ has_committed self }
    {
        matches!(self, Users::Committed | Users::Both)
    }

    /// Whether no view uses the place.
    pub fn is_neither(self) -> bool
        ensures { result ≡ is_neither self }
    {
        matches!(self, Users::Neither)
    }

    /// Once the next view is the committed one and no next one is begun.
    pub fn settled(self) -> Users
        ensures { result ≡ settled self }
    {
        match self {
            Users::Neither | Users::Committed => Users::Neither,
            Users::Next | Users::Both => Users::Committed,
        }
    }
}
