// The ends of a word as they are shown.
ghost use Rattle.std.specs.Prelude.{◌≡◌};
ghost use Rattle.display.specs.Ends.{sign_of, width_of};

/// What stands just before a word's first mark and just behind its last: nothing; a wall, where a row ends there; or a seam, where a ring that is shown as
/// a line is cut and goes on at the other end.
#[derive(Clone, Copy, Debug, PartialEq, Eq)]
pub enum Ends {
    Hidden,
    Walls,
    Seam,
}

impl Ends {
    /// The sign that stands there, if one does.
    pub fn sign(self) -> &'static str
        ensures { result.now ≡ sign_of self }
    {
        match self {
            Ends::Hidden => "",
            Ends::Walls => "|",
            Ends::Seam => ":",
        }
    }

    /// How many signs wide that is.
    pub fn width(self) -> usize
        ensures { result ≡ width_of self }
    {
        match self {
            Ends::Hidden => 0,
            Ends::Walls | Ends::Seam => 1,
        }
    }
}
