// How many claims a search judges.

use strengthen::watch::{Event, Watch};

/// How many claims were judged.
#[derive(Drop)]
pub struct Tally {
    pub judged: u64,
}

impl Watch for Tally {
    fn note(&mut self, event: Event) {
        if event == Event::Judged {
            self.judged = self.judged.saturating_add(1);
        }
    }
}
