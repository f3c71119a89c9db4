// How far a search is, on standard error, where that is a terminal: one line that is overwritten.

use rule_report::progress::Progress;
use std::io::IsTerminal;
use strengthen::watch::{Event, Watch};

/// The line, and what it tells: the claim for which the file's helpers are tried, and how many choices are left, where that is known. Where no terminal shows
/// it, nothing is written; that it cannot be written is no reason to stop.
#[derive(Drop)]
pub struct Line<'r> {
    rt: &'r HostRuntime,
    shown: bool,
    name: Option<String>,
    left: Option<u64>,
}

impl<'r> Line<'r> {
    pub fn new(rt: &'r HostRuntime) -> Line<'r> {
        Line {
            rt,
            shown: rt.stderr().is_terminal(),
            name: None,
            left: None,
        }
    }

    fn write(&self) {
        if let (Some(name), Some(left)) = (&self.name, self.left) {
            let choices = if left == 1 { "choice" } else { "choices" };
            let _ = eprint!(self.rt; "\r\x1b[K{name}: {left} {choices} left");
        }
    }

    /// Clears the line, so that something can stand in its place.
    pub fn clear(&self) {
        if self.shown {
            let _ = eprint!(self.rt; "\r\x1b[K");
        }
    }
}

impl Watch for Line<'_> {
    fn note(&mut self, event: Event) {
        if !self.shown {
            return;
        }
        match event {
            Event::Choices(left) => self.left = left,
            Event::Passed => self.left = self.left.map(|left| left.saturating_sub(1)),
            Event::Judged => self.write(),
        }
    }
}

impl Progress for Line<'_> {
    fn begin(&mut self, name: &str) {
        self.left = None;
        if self.shown {
            self.name = String::from_str(self.rt.alloc(), name).ok();
        }
    }
}
