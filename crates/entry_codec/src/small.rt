//! The records of the acts that take no memory.

ghost use Rattle.std.specs.Prelude.{◌≡◌, ◌≤◌, ℕ, List, length};
ghost use Rattle.entry_codec.specs.Spelling.{entry_bytes, framed};
ghost use Rattle.entry_codec.specs.Fits.{Fits};
ghost use Rattle.entry_codec.specs.Formed.{IsFormedAct, IsEntry};
ghost use Rattle.entry_codec.specs.Answers.{IsSmall};

use byte_formats::SmallBytes;
use news_types::{Act, Entry};
use std::marker::Model;

/// The record of an advance, an attempt, a receipt or a halt; a contract sees it as its bytes.
#[derive(Drop)]
pub struct SmallRecord {
    bytes: SmallBytes<64>,
}

impl Model for SmallRecord {
    ghost Value = { List ℕ };

    ghost view = { λ r. r.bytes };
}

impl SmallRecord {
    /// The bytes.
    pub fn as_slice(&self) -> &[u8]
        ensures { result.now ≡ self.now }
    {
        self.bytes.as_slice()
    }
}

/// The record of an entry that is an advance, an attempt, a receipt or a halt: four bytes of
/// length, the entry's bytes, and the next gate, 0.
pub fn encode_small(entry: &Entry) -> SmallRecord
    requires fits { Fits entry.now }
    requires small { IsSmall entry.now.act }
    ensures bytes { result ≡ framed (entry_bytes entry.now) }

    // It is read again.
    ensures entry { IsEntry entry.now }
{
    let payload = small_payload(entry);
    let payload = payload.as_slice();
    let mut bytes: SmallBytes<64> = SmallBytes::new();
    bytes.push_slice(&(payload.len() as u32).to_be_bytes());
    bytes.push_slice(payload);
    bytes.push_slice(&[0]);
    SmallRecord { bytes }
}

/// The bytes of such an entry.
fn small_payload(entry: &Entry) -> SmallBytes<64>
    requires small { IsSmall entry.now.act }
    ensures bytes { result ≡ entry_bytes entry.now }
    ensures form { IsFormedAct entry.now.act }
    ensures few { length result ≤ 46 }
{
    let mut payload: SmallBytes<64> = SmallBytes::new();
    payload.push_slice(&entry.moment.to_be_bytes());
    match &entry.act {
        Act::Advance => {
            payload.push_slice(&[1]);
            payload
        }
        Act::Attempt { subscriber, k } => {
            payload.push_slice(&[2]);
            payload.push_name(subscriber);
            payload.push_slice(&k.to_be_bytes());
            payload
        }
        Act::Receipt { subscriber, n } => {
            payload.push_slice(&[3]);
            payload.push_name(subscriber);
            payload.push_slice(&n.to_be_bytes());
            payload
        }
        Act::Halt => {
            payload.push_slice(&[4]);
            payload
        }
        Act::Ingest { .. } | Act::Request { .. } => unreachable!(),
    }
}
