//! Trays, listeners and nets: who gives links, and who takes them back.
ghost use Rattle.std.specs.Prelude.{◌≡◌, ◌↔◌, ◌<◌, ℕ, List, Option, None, IfOk, IfSome, is_err, nat_lt};
ghost use Rattle.ice_ports.specs.Failures.{count_after};
ghost use Rattle.ice_ports.specs.Nets.{ToldListener, ToldNet, told_after, has_failed, IsNew};
ghost use Rattle.ice_ports.specs.Nets.{taken_behind, one_talk, accepted, is_over, gathered_of, gathers};
ghost use Rattle.ice_ports.specs.Nets.{IsNewListener, IsEmptyTray, connected, asked_to_listen, came_back};
ghost use Rattle.ice_ports.specs.declared.talk.Talk.{Talk};

use super::links::Link;
use super::ports::Failed;

/// Where one worker puts the links that it is done with. It has no `Drop`, so generic code hands each
/// tray back to its listener.
pub trait Tray: Send {
    type Link: Link;

    // What the links gave and took, in order, where the tray tells that.
    ghost told: { Self → Option (List Talk) };

    /// Takes a link back, behind the others.
    fn take_back(&mut self, link: Self::Link)
        ensures told { told self.new ≡ taken_behind (one_talk (Self.Link.talk link)) (told self.old) };
}

/// Gives the links that others open.
pub trait Listener: Send {
    type Link: Link;

    type Tray: Tray<Link = Self::Link>;

    // How many links it gave, and what was gathered, where it tells that.
    ghost told: { Self → Option ToldListener };

    // How many accepts failed, as far as u64 counts.
    ghost failures: { Self → ℕ };

    // How many accepts answered None, as far as u64 counts.
    ghost nones: { Self → ℕ };

    // Where it listens.
    ghost port: { Self → ℕ };

    /// The port on which it listens.
    fn port(&self) -> u16
        ensures { result ≡ port self.now };

    /// The next link, whose counts are 0; None exactly where no link is still to come. `Failed` took
    /// no link, and is counted once; no other answer is counted. None is counted on its own.
    fn accept(&mut self) -> Result<Option<Self::Link>, Failed>
        ensures told { told self.new ≡ told_after (accepted result) (told self.old) }
        ensures over { IfOk result (λ answer. IfSome (told self.old) (λ known.
            answer ≡ None ↔ known.to_come ≡ 0)) }
        ensures new { IfOk result (λ answer. IfSome answer (λ link.
            IsNew (told self.old) (Self.Link.talk link)
            × (Self.Link.Source.failures link ≡ 0) × (Self.Link.Sink.failures link ≡ 0))) }
        ensures count { failures self.new ≡ count_after (failures self.old) (is_err result) }
        ensures nones { nones self.new ≡ count_after (nones self.old) (is_over result) }
        ensures port { port self.new ≡ port self.old };

    /// An empty tray.
    fn tray(&self) -> Self::Tray
        ensures { IsEmptyTray (told self.now) (Self.Tray.told result) };

    /// Puts the links of a tray, in their order, behind those that were gathered before.
    fn gather(&mut self, tray: Self::Tray)
        ensures told { told self.new ≡ gathers (Self.Tray.told tray) (told self.old) }
        ensures count { failures self.new ≡ failures self.old }
        ensures nones { nones self.new ≡ nones self.old }
        ensures port { port self.new ≡ port self.old };
}

/// Opens links and listeners, and takes them back.
pub trait Net {
    type Link: Link;

    type Listener: Listener<Link = Self::Link>;

    // What it gave, got back and was asked for, where it tells that.
    ghost told: { Self → Option ToldNet };

    // How many calls of `connect` and `hang_up` counted a failure, as far as u64 counts.
    ghost failures: { Self → ℕ };

    // The same of `listen` and `retire`.
    ghost listen_failures: { Self → ℕ };

    /// A new link to this place, whose counts are 0. `Failed` is counted once, and a link is not.
    fn connect(&mut self, host: &str, port: u16) -> Result<Self::Link, Failed>
        ensures told { told self.new
            ≡ told_after (connected host.now port (is_err result)) (told self.old) }
        ensures some { IfOk result (λ _. IfSome (told self.old) (λ known. 0 < known.to_come)) }
        ensures new { IfOk result (λ link. IsNew (told self.old) (Self.Link.talk link)
            × (Self.Link.Source.failures link ≡ 0) × (Self.Link.Sink.failures link ≡ 0)) }
        ensures count { failures self.new ≡ count_after (failures self.old) (is_err result) }
        ensures kept { listen_failures self.new ≡ listen_failures self.old };

    /// A new listener at this place, which has given no link and whose counts are 0. Port 0 lets the
    /// net choose. `Failed` is counted once, and a listener is not.
    fn listen(&mut self, host: &str, port: u16) -> Result<Self::Listener, Failed>
        ensures told { told self.new ≡ told_after (asked_to_listen host.now port) (told self.old) }
        ensures new { IfOk result (λ listener.
            IsNewListener (told self.old) (Self.Listener.told listener)
            × (Self.Listener.failures listener ≡ 0) × (Self.Listener.nones listener ≡ 0)) }
        ensures port { IfOk result (λ listener. 0 < port → Self.Listener.port listener ≡ port) }
        ensures count { listen_failures self.new
            ≡ count_after (listen_failures self.old) (is_err result) }
        ensures kept { failures self.new ≡ failures self.old };

    /// Takes a link back, which is counted where a read or a write of it failed.
    fn hang_up(&mut self, link: Self::Link)
        ensures told { told self.new ≡ came_back (one_talk (Self.Link.talk link)) (told self.old) }
        ensures count { failures self.new ≡ count_after (failures self.old)
            (has_failed (Self.Link.Source.failures link) (Self.Link.Sink.failures link)) }
        ensures kept { listen_failures self.new ≡ listen_failures self.old };

    /// Takes a listener back with the links that it gathered, which is counted where an accept of it
    /// failed.
    fn retire(&mut self, listener: Self::Listener)
        ensures told { told self.new
            ≡ came_back (gathered_of (Self.Listener.told listener)) (told self.old) }
        ensures count { listen_failures self.new ≡ count_after (listen_failures self.old)
            (nat_lt 0 (Self.Listener.failures listener)) }
        ensures kept { failures self.new ≡ failures self.old };
}
