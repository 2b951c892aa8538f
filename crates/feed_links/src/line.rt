//! The first line of a reply.
ghost use Rattle.std.specs.Prelude.{◌≡◌, ◌≤◌, ◌==◌, ℕ, take, length};
ghost use Rattle.std.specs.List.{position};
ghost use Rattle.news_io.specs.Link.{IsReply};
ghost use Rattle.feed_links.specs.Receivers.{first_line};

/// Where the first line feed is.
fn line_feed(bytes: &[u8]) -> Option<usize>
    ensures { result ≡ position (λ (b : ℕ). b == 10) bytes.now }
{
    bytes.iter().position(|byte| *byte == b'\n')
}

/// How many bytes the first line of a reply has: up to and with a line feed, or all of them.
pub(crate) fn first_line_of(bytes: &[u8]) -> usize
    ensures within { result ≤ length bytes.now }
    ensures line { take result bytes.now ≡ first_line bytes.now }
    ensures reply { IsReply (take result bytes.now) }
{
    match line_feed(bytes) {
        Some(at) => at + 1,
        None => bytes.len(),
    }
}
