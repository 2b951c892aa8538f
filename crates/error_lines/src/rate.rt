//! Lines that are not said too often.
use crate::line::tell;
use std::fmt::{self, Display, Formatter, Write};
use std::time::{Clock, Duration, Instant};

/// How long the same failure is not said again, in seconds.
const PAUSE: u64 = 60;

/// When one kind of failure was said last, and how often it came since then.
#[derive(Drop)]
pub struct Rate {
    said: Option<Instant>,
    unsaid: u64,
}

/// A reason, and how often it was left out before.
#[derive(Drop)]
struct Counted<'a, D> {
    why: &'a D,
    unsaid: u64,
}

impl<'a, D: Display> Display for Counted<'a, D> {
    fn fmt<W: Write>(&self, f: &mut Formatter<W>) -> fmt::Result {
        self.why.fmt(f)?;
        if self.unsaid > 0 {
            write!(f, " ({} more since the last line)", self.unsaid)?;
        }
        Ok(())
    }
}

impl Rate {
    /// Nothing was said yet.
    pub fn new() -> Rate {
        Rate {
            said: None,
            unsaid: 0,
        }
    }

    /// Says it, unless it was said within the last minute: then it is counted, and the next line says how often.
    pub fn tell<R: Clock + Eprint, D: Display>(&mut self, rt: &R, what: &str, whom: &str, why: &D) {
        let Ok(now) = Instant::now(rt) else {
            return;
        };
        let pause = Duration::from_secs(PAUSE);
        if self
            .said
            .is_some_and(|said| now.duration_since(said) < pause)
        {
            self.unsaid = self.unsaid.saturating_add(1);
            return;
        }
        let unsaid = self.unsaid;
        tell(rt, what, whom, &Counted { why, unsaid });
        self.said = Some(now);
        self.unsaid = 0;
    }
}
