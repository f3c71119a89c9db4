// Who is told how far the report of a rule file is.

use strengthen::watch::{Unwatched, Watch};

/// Is told which claim the file's helpers are tried for, and then what the search for it does.
pub trait Progress: Watch {
    fn begin(&mut self, name: &str);
}

impl Progress for Unwatched {
    fn begin(&mut self, _name: &str) {}
}
