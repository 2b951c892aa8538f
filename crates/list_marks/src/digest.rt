//! The digest of the first entries of a list.
ghost use Rattle.std.specs.Prelude.{◌≡◌, ◌<◌, ◌++◌, ℕ, List, length, map, All};
ghost use Rattle.std.specs.List.{flat_map};
ghost use Rattle.sha2.specs.Hashers.{Holds256};
ghost use Rattle.sha2.specs.Sha256.{sha256};
ghost use Rattle.news_types.specs.History.{History};
ghost use Rattle.byte_formats.specs.Spelling.{text};
ghost use Rattle.news_room.specs.Log.{OpensTo};
ghost use Rattle.news_room.specs.Opening.{bytes_of};
ghost use Rattle.list_marks.specs.Digest.{IsDigest, line_of};

use crate::output::write_out;
use byte_formats::SmallBytes;
use hex::encode_to_slice;
use news_io::{Record, Sink};
use run_status::{Status, tell_status};
use sha2::{Digest, Sha256};

/// The bytes of a SHA-256.
const DIGEST: usize = 32;

/// The longest line: the words, a number, and a digest in hexadecimal digits.
const LINE: usize = 101;

/// Writes the line with the digest of the first entries of the list of these records, so many, and gives the status.
///
/// The digest is the SHA-256, in lower-case hexadecimal digits, of the bytes of each of these entries, oldest first, behind the
/// four bytes of its length in bytes, the highest first, as the log has them. It tells nothing of gates, of places, and of which
/// file holds an entry. Of no entries it is the digest of nothing.
///
/// The status is 0 where the line was written and has passed on, 3 where the list has fewer entries, with the line of that status,
/// and 5 where the output failed. It takes no memory, however long the list is.
pub fn tell_digest<O: Sink>(output: &mut O, records: &[Record], entries: u64) -> u8
    requires { (h : History) × OpensTo (map bytes_of records.now) h }
    ensures { (h : History) → OpensTo (map bytes_of records.now) h → IsDigest O.sink entries h output.old output.new result }
{
    if (records.len() as u64) < entries {
        return tell_status(output, Status::WrongStore);
    }
    let digest = digest_of(&records[..entries as usize]);
    write_out(output, line_of(entries, &digest).as_slice())
}

/// The digest of the payloads of some records, each behind four bytes of its length.
fn digest_of(records: &[Record]) -> [u8; DIGEST]
    requires { All (λ r. length r.bytes < 4294967296) records.now }
    ensures { result ≡ sha256 (flat_map text (map bytes_of records.now)) }
{
    let mut hasher = Sha256::new();
    for here in records {
        add_payload(&mut hasher, here.bytes.as_slice());
    }
    hasher.finalize()
}

/// Adds four bytes of length and a payload to what is hashed.
fn add_payload(hasher: &mut Sha256, payload: &[u8])
    requires { length payload.now < 4294967296 }
    ensures { (message : List ℕ) → Holds256 hasher.old message → Holds256 hasher.new (message ++ text payload.now) }
{
    hasher.update((payload.len() as u32).to_be_bytes());
    hasher.update(payload);
}

/// The line of a digest of so many entries.
fn line_of(entries: u64, digest: &[u8; DIGEST]) -> SmallBytes<LINE>
    ensures { result ≡ line_of entries digest.now }
{
    let mut digits = [0; 2 * DIGEST];
    let _ = encode_to_slice(digest, &mut digits);
    let mut line: SmallBytes<LINE> = SmallBytes::new();
    line.push_slice(b"entries ");
    line.push_decimal(entries);
    line.push_slice(b" sha256 ");
    line.push_slice(&digits);
    line.push_slice(b"\n");
    line
}
