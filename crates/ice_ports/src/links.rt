//! Connections.
ghost use Rattle.std.specs.Prelude.{◌≡◌, ◌<◌, ◌≤◌, [], Option, length, IfOk, IfSome, is_err};
ghost use Rattle.std.specs.Io.{ReadsAtMost, WritesAtMost};
ghost use Rattle.ice_ports.specs.Failures.{count_after};
ghost use Rattle.std.specs.Io.KnownBytes.{ReadConsumes, WriteAppends};
ghost use Rattle.ice_ports.specs.Talks.{adds, read_part, write_part};
ghost use Rattle.ice_ports.specs.declared.talk.Talk.{Talk};

use super::ports::{Failed, MOST_OF_A_READ, Sink, Source};

/// One end of a connection: bytes come from it and go to it. It has no `Drop`, so generic code hands
/// each link back to a net or a tray.
pub trait Link: Source + Sink + Send {
    // What went over it so far, where it tells that.
    ghost talk: { Self → Option Talk };

    /// Ends both directions: no byte is left to read. What went over the link, and what was counted,
    /// stays.
    fn shut(&mut self)
        ensures left { IfSome (Self.Source.left self.new) (λ left. left ≡ []) }
        ensures talk { talk self.new ≡ talk self.old }
        ensures reads { Self.Source.failures self.new ≡ Self.Source.failures self.old }
        ensures writes { Self.Sink.failures self.new ≡ Self.Sink.failures self.old };

    // A read adds its part, counts no write and takes no byte.
    ghost read_adds: { (before after : Self) (part : Talk) → Self.reads before part after
        → (talk after ≡ adds (talk before) part)
        × (Self.Sink.failures after ≡ Self.Sink.failures before)
        × (Self.Sink.taken after ≡ Self.Sink.taken before) };

    // A write adds its part, counts no read and gives no byte.
    ghost write_adds: { (before after : Self) (part : Talk) → Self.writes before part after
        → (talk after ≡ adds (talk before) part)
        × (Self.Source.failures after ≡ Self.Source.failures before)
        × (Self.Source.left after ≡ Self.Source.left before) };
}

/// Reads from a link, as `Source::read` does: its talk grows by what it gave.
pub fn read_link<L: Link>(link: &mut L, into: &mut [u8]) -> Result<usize, Failed>
    requires { length into.old ≤ MOST_OF_A_READ }
    ensures bound { ReadsAtMost result into.new }
    ensures bytes { ReadConsumes
        (L.Source.left link.old) (L.Source.left link.new) result into.new }
    ensures talk { L.talk link.new ≡ adds (L.talk link.old) (read_part result into.new) }
    ensures reads { L.Source.failures link.new
        ≡ count_after (L.Source.failures link.old) (is_err result) }
    ensures writes { L.Sink.failures link.new ≡ L.Sink.failures link.old }
    ensures taken { L.Sink.taken link.new ≡ L.Sink.taken link.old }
{
    link.read(into)
}

/// Writes to a link, as `Sink::write` does: its talk grows by what it took.
pub fn write_link<L: Link>(link: &mut L, piece: &[u8]) -> Result<usize, Failed>
    ensures bound { WritesAtMost result piece.now }
    ensures bytes { WriteAppends
        (L.Sink.taken link.old) (L.Sink.taken link.new) result piece.now }
    ensures progress { IfOk result (λ n. 0 < length piece.now → 0 < n) }
    ensures talk { L.talk link.new ≡ adds (L.talk link.old) (write_part result piece.now) }
    ensures writes { L.Sink.failures link.new
        ≡ count_after (L.Sink.failures link.old) (is_err result) }
    ensures reads { L.Source.failures link.new ≡ L.Source.failures link.old }
    ensures left { L.Source.left link.new ≡ L.Source.left link.old }
{
    link.write(piece)
}
