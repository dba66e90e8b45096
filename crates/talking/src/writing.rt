//! Bytes into a connection.

ghost use Rattle.std.specs.Prelude.{◌≡◌, ◌≤◌, length, nat_lt};
ghost use Rattle.ice_ports.specs.Failures.{count_after};
ghost use Rattle.ice_ports.specs.Talks.{adds};
ghost use Rattle.talking.specs.Writing.{writes_part};

use ice_ports::{Failed, Link, write_link};

/// Writes the bytes, and answers how many of them were taken: fewer only where a write failed. Reads nothing. They go
/// in one write where the link takes them so.
pub fn write_bytes<L: Link>(link: &mut L, bytes: &[u8]) -> usize
    ensures talk { L.talk link.new ≡ adds (L.talk link.old) (writes_part bytes.now result) }
    ensures most { result ≤ length bytes.now }
    ensures writes { L.Sink.failures link.new
        ≡ count_after (L.Sink.failures link.old) (nat_lt result (length bytes.now)) }
    ensures reads { L.Source.failures link.new ≡ L.Source.failures link.old }
{
    let mut at = 0;
    while at < bytes.len() {
        match write_link(link, &bytes[at..]) {
            Ok(count) => at += count,
            Err(Failed) => return at,
        }
    }
    at
}
