//! The header of a log, and its bytes.
ghost use Rattle.std.specs.Prelude.{◌≡◌, ◌-◌, ◌++◌, [], ◌∷◌, None, IsTrue, length, replicate};
ghost use Rattle.news_types.specs.Names.{is_name};
ghost use Rattle.news_journal.specs.Log.{header_bytes};
ghost use Rattle.news_journal.specs.Damage.{header_damage};

use news_types::Name;
use uuid::Uuid;

/// What a log is for.
#[derive(Clone, Copy, PartialEq, Eq)]
pub enum Header {
    /// The entries of the newsroom with this identifier.
    Room { store: Uuid },
    /// The frames that the receiver of this name took.
    Receiver { name: Name },
}

/// The edition that a new log is given.
const EDITION: u8 = 2;

/// The bytes of a name, and zeros behind them.
fn padded(name: &Name) -> [u8; 32]
    ensures form { IsTrue (is_name name.now) }
    ensures bytes { result ≡ name.now ++ replicate (32 - length name.now) 0 }
{
    let name = name.as_bytes();
    let mut bytes = [0; 32];
    bytes[..name.len()].copy_from_slice(name);
    bytes
}

fn store_bytes(store: &Uuid) -> [u8; 16]
    ensures { result ≡ store.now }
{
    *store.as_bytes()
}

impl Header {
    /// What stands behind the first byte of a log without records: the rest of the header, and a closed gate.
    pub(crate) fn behind_first(&self) -> [u8; 64]
        ensures bytes { 78 ∷ result ≡ header_bytes self.now ++ 0 ∷ [] }
        ensures form { header_damage (header_bytes self.now) ≡ None }
    {
        let mut bytes = [0; 64];
        bytes[..7].copy_from_slice(b"EWSDESK");
        bytes[7] = EDITION;
        match self {
            Header::Room { store } => {
                bytes[8] = 1;
                bytes[15..31].copy_from_slice(&store_bytes(store));
            }
            Header::Receiver { name } => {
                bytes[8] = 2;
                bytes[31..63].copy_from_slice(&padded(name));
            }
        }
        bytes
    }

    /// The 64 bytes of a new log's header.
    pub(crate) fn bytes(&self) -> [u8; 64]
        ensures { result ≡ header_bytes self.now }
    {
        let behind = self.behind_first();
        let mut bytes = [b'N'; 64];
        bytes[1..].copy_from_slice(&behind[..63]);
        bytes
    }
}
