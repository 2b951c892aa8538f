//! A gate before the lock, for threads that would else stand in its line one behind another.
use std::hint::spin_loop;
use std::sync::Wait;
use std::sync::atomic::AtomicU64;
use std::sync::atomic::Ordering::SeqCst;

/// How often a thread looks before it sleeps.
const LOOKS: u32 = 1_000;

/// At most one thread is within. Nothing that is proved rests on it: it only spares waiting.
#[derive(Drop)]
pub(crate) struct Gate {
    // 0 where nobody is within, 1 where somebody is, 2 where somebody may sleep besides.
    word: AtomicU64,
}

impl Gate {
    pub(crate) fn new() -> Gate {
        Gate {
            word: AtomicU64::new(0),
        }
    }

    fn try_take(&self) -> bool {
        self.word.load(SeqCst) == 0 && self.word.compare_exchange(0, 1, SeqCst, SeqCst).is_ok()
    }

    /// Goes in: whoever comes first, and not in the order in which they came.
    pub(crate) fn enter(&self, rt: &impl Wait) {
        for _ in 0..LOOKS {
            if self.try_take() {
                return;
            }
            spin_loop();
        }
        for _ in rt.forever() {
            if self.word.swap(2, SeqCst) == 0 {
                return;
            }
            self.word.park(rt, 2);
        }
        unreachable!()
    }

    /// Goes out, and wakes one where some may sleep.
    pub(crate) fn leave(&self) {
        if self.word.swap(0, SeqCst) == 2 {
            self.word.wake_one();
        }
    }
}
