//! What is done so far, as a line on standard error.

use std::time::{Clock, Duration, Instant};

/// How long a line stands before the next one is shown, in milliseconds.
const PAUSE: u128 = 1000;

/// What is counted.
#[derive(Clone, Copy, Debug, PartialEq, Eq)]
pub enum Content {
    /// Lines that are read: their number is shown beside their bytes.
    Lines,
    /// Bytes that are read, without lines.
    Binary,
    /// Steps of work that reads nothing.
    Steps,
}

/// Counts what was read, or the steps of work, and shows it on standard error at most once a second.
#[derive(Drop)]
pub struct Meter<R> {
    rt: R,
    content: Content,
    bytes: u64,
    lines: u64,
    steps: u64,
    began: Option<Instant>,
    shown: Option<Instant>,
}

/// The whole number in a second, of so many in so long.
fn rate(count: u64, time: Duration) -> u64 {
    count / time.as_secs().max(1)
}

impl<R: Clock + Eprint> Meter<R> {
    /// With nothing counted.
    pub fn new(rt: R, content: Content) -> Meter<R> {
        let began = Instant::now(&rt).ok();
        Meter {
            rt,
            content,
            bytes: 0,
            lines: 0,
            steps: 0,
            began,
            shown: began,
        }
    }

    /// Counts bytes and the lines that end in them, and shows all that was counted where a second has passed.
    pub fn count(&mut self, bytes: &[u8]) {
        self.bytes = self.bytes.saturating_add(bytes.len() as u64);
        if self.content == Content::Lines {
            let ends = bytes.iter().filter(|byte| **byte == b'\n').count();
            self.lines = self.lines.saturating_add(ends as u64);
        }
        self.show_late();
    }

    /// Counts a step, and shows how many were counted where a second has passed.
    pub fn step(&mut self) {
        self.steps = self.steps.saturating_add(1);
        self.show_late();
    }

    // Shows what was counted, unless it was shown within the last second.
    fn show_late(&mut self) {
        let Ok(now) = Instant::now(&self.rt) else {
            return;
        };
        let (Some(began), Some(shown)) = (self.began, self.shown) else {
            return;
        };
        if now.duration_since(shown).as_millis() < PAUSE {
            return;
        }
        self.shown = Some(now);
        let time = now.duration_since(began);
        // Each line takes the place of the one before: the codes go to its start and erase it.
        let _ = match self.content {
            Content::Lines => eprint!(self.rt;
                "\r\x1b[K{} lines, {} bytes, {} bytes a second",
                self.lines,
                self.bytes,
                rate(self.bytes, time)
            ),
            Content::Binary => eprint!(self.rt;
                "\r\x1b[K{} bytes, {} bytes a second",
                self.bytes,
                rate(self.bytes, time)
            ),
            Content::Steps => eprint!(self.rt;
                "\r\x1b[K{} steps, {} steps a second",
                self.steps,
                rate(self.steps, time)
            ),
        };
    }

    /// Whether a line was shown.
    pub fn has_shown(&self) -> bool {
        self.shown != self.began
    }
}
