//! The way to the receivers.
ghost use Rattle.std.specs.Prelude.{◌≡◌, ◌≤◌, ◌++◌, ◌∷◌, [], length, take, IsTrue, IfOk, OnOk, OnErr};
ghost use Rattle.news_types.specs.Names.{is_in};
ghost use Rattle.news_io.specs.Faults.{Counts};
ghost use Rattle.news_io.specs.Link.{IsReply, Sent, Said, Nothing, LinkMeaning};

use crate::Failed;
use news_types::Name;

/// A link to the receivers of some subscribers.
pub trait Link {
    /// What the link means.
    ghost link: { LinkMeaning Self };

    /// The subscribers that it serves, which no call changes.
    fn names(&self) -> &[Name]
        ensures { result.now ≡ link.serves self.now };

    /// Sends a frame to a subscriber's receiver. A frame whose sending failed doesn't count as sent.
    fn send(&mut self, subscriber: &Name, frame: &[u8]) -> Result<(), Failed>
        requires { IsTrue (is_in subscriber.now (link.serves self.old)) }
        ensures serves { link.serves self.new ≡ link.serves self.old }
        ensures sent { link.tells self.old → OnOk result (link.sent self.new ≡ link.sent self.old ++ (subscriber.now, frame.now) ∷ []) }
        ensures lost { link.tells self.old → OnErr result (link.sent self.new ≡ link.sent self.old) }
        ensures said { link.tells self.old → link.said self.new ≡ link.said self.old }
        ensures step { link.tells self.old → OnOk result (link.step self.old self.new (Sent subscriber.now frame.now)) }
        ensures still { link.tells self.old → OnErr result (link.step self.old self.new Nothing) }
        ensures told { link.tells self.old → link.tells self.new }
        ensures count { Counts (link.faults self.old) (link.faults self.new) result };

    /// Reads a subscriber's reply, to a line feed, to the end of the reply or to 128 bytes, and gives its length.
    fn receipt(&mut self, subscriber: &Name, into: &mut [u8; 128]) -> Result<usize, Failed>
        requires { IsTrue (is_in subscriber.now (link.serves self.old)) }
        ensures serves { link.serves self.new ≡ link.serves self.old }
        ensures within { IfOk result (λ n. n ≤ 128) }
        ensures reply { IfOk result (λ n. IsReply (take n into.new)) }
        ensures said { link.tells self.old → IfOk result (λ n. link.said self.new ≡ link.said self.old ++ (subscriber.now, take n into.new) ∷ []) }
        ensures silent { link.tells self.old → OnErr result (link.said self.new ≡ link.said self.old) }
        ensures sent { link.tells self.old → link.sent self.new ≡ link.sent self.old }
        ensures step { link.tells self.old → IfOk result (λ n. link.step self.old self.new (Said subscriber.now (take n into.new))) }
        ensures still { link.tells self.old → OnErr result (link.step self.old self.new Nothing) }
        ensures told { link.tells self.old → link.tells self.new }
        ensures count { Counts (link.faults self.old) (link.faults self.new) result };
}
