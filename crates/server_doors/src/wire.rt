//! What the two ends of a connection share.
use mio::net::TcpStream;
use std::alloc::Global;
use std::sync::Arc;
use std::sync::atomic::{AtomicBool, Ordering};

/// A connection's socket, of which no call waits.
#[derive(Drop)]
pub(crate) struct Wire {
    pub(crate) stream: TcpStream,
    /// Some of a response waits until the client takes it.
    full: AtomicBool,
}

/// A hold of a connection's socket, which is closed with the last one.
pub(crate) type Hold = Arc<Wire, Global>;

impl Wire {
    pub(crate) fn new(stream: TcpStream) -> Wire {
        Wire {
            stream,
            full: AtomicBool::new(false),
        }
    }

    /// Whether some of a response waits.
    pub(crate) fn is_full(&self) -> bool {
        self.full.load(Ordering::SeqCst)
    }

    pub(crate) fn set_full(&self, full: bool) {
        self.full.store(full, Ordering::SeqCst);
    }
}
