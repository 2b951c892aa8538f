//! A list of records that outlives a crash, and what a failed append leaves in doubt.
ghost use Rattle.std.specs.Prelude.{◌≡◌, ◌≤◌, ◌+◌, ◌^◌, ◌++◌, [], ◌∷◌, length, OnOk, OnErr};
ghost use Rattle.news_io.specs.Keeper.{IsFramed, payload_of, AppendCalls, AppendCounts, IsFullExactly, DoubtsAfter, BeforeOrAfter, KeeperMeaning, KeeperGains};
ghost use Rattle.news_io.specs.declared.keeper.AppendFault.TheVariants.{Fault};

use crate::Failed;

/// Why a record was not kept.
#[derive(Clone, Copy, Debug, PartialEq, Eq)]
pub enum AppendFault {
    /// A device has failed: the list is as before, and a crash may leave it with the payload at its end.
    Fault,
    /// The record would pass the limit.
    Full {
        /// The bytes in use.
        size: u64,
        /// The payload's length.
        length: u64,
    },
}

impl From<Failed> for AppendFault {
    ghost from_gives = { λ _ e. e ≡ Fault };

    fn from(_: Failed) -> Self {
        AppendFault::Fault
    }
}

/// A list of records that outlives a crash.
pub trait Keeper {
    /// What the keeper means.
    ghost keeper: { KeeperMeaning Self };

    /// The bytes in use.
    fn size(&self) -> u64
        ensures { result ≡ keeper.used self.now };

    /// Adds a record at the list's end: four bytes of length (big-endian), the payload, and a byte 0.
    /// `limit` is the most bytes that may be in use then. After a failure of either kind the list and the bytes in use are as before.
    fn append(&mut self, framed: &[u8], limit: u64) -> Result<(), AppendFault>
        requires framed { IsFramed framed.now }
        requires limit { limit ≤ 2 ^ 30 }
        ensures full { IsFullExactly (keeper.used self.old) limit framed.now result }
        ensures used { OnOk result (keeper.used self.new ≡ keeper.used self.old + length framed.now) }
        ensures used_err { OnErr result (keeper.used self.new ≡ keeper.used self.old) }
        ensures count { AppendCounts (keeper.faults self.old) (keeper.faults self.new) result }
        ensures calls { AppendCalls (keeper.calls self.old) (keeper.calls self.new) (keeper.most_calls self.old) result }
        ensures label { keeper.label self.new ≡ keeper.label self.old }
        ensures told { keeper.tells self.old → keeper.tells self.new }
        ensures kept { keeper.tells self.old → OnOk result (keeper.list self.new ≡ keeper.list self.old ++ payload_of framed.now ∷ []) }
        ensures same { keeper.tells self.old → OnErr result (keeper.list self.new ≡ keeper.list self.old) }
        ensures doubts { keeper.tells self.old → DoubtsAfter (keeper.doubts self.old) (keeper.doubts self.new) (payload_of framed.now) result }
        // Each moment of the call leaves what the state before it allows, or the state after it.
        ensures crash { keeper.tells self.old → KeeperGains keeper self.old self.new
            (BeforeOrAfter (keeper.list self.old) (keeper.doubts self.old) (keeper.list self.new) (keeper.doubts self.new)) };
}
