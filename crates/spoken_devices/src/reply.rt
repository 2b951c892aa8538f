//! A reply that is none.

use feed_receiver::read_receipt;
use news_types::Name;
use record_lines::read_kept;
use std::fmt::{self, Display, Formatter, Write};

/// How many of its bytes are shown.
const SHOWN: usize = 80;

/// Whether these bytes are a receipt of this receiver, or what a standby replies.
pub(crate) fn is_reply(subscriber: &Name, bytes: &[u8]) -> bool {
    match read_receipt(bytes) {
        Some((name, _)) => name == *subscriber,
        None => read_kept(bytes).is_some(),
    }
}

/// What came in place of a reply: its first 80 bytes, each that is no visible character of ASCII as `\xNN`.
#[derive(Clone, Copy)]
pub(crate) struct NoReply<'a> {
    pub(crate) bytes: &'a [u8],
}

impl Display for NoReply<'_> {
    fn fmt<W: Write>(&self, f: &mut Formatter<W>) -> fmt::Result {
        if self.bytes.is_empty() {
            return f.write_str("it closed the connection without a receipt");
        }
        f.write_str("what came in place of a receipt: ")?;
        for byte in self.bytes.iter().take(SHOWN) {
            match *byte {
                b' '..=b'~' => f.write_char(char::from(*byte))?,
                other => write!(f, "\\x{other:02x}")?,
            }
        }
        Ok(())
    }
}
