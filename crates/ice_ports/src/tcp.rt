//! Connections of the system over TCP, which tell nothing. What is interrupted by a signal is done
//! again, by the loops here and by std's `connect` and `accept`. A write to a peer that is gone fails,
//! with no signal.
ghost use Rattle.std.specs.Prelude.{◌≡◌, ◌<◌, false, None, IsSome, IfOk, IfSome, is_err};
ghost use Rattle.ice_ports.specs.Failures.{count_after};
ghost use Rattle.ice_ports.specs.Nets.{has_failed, is_over};

use super::links::Link;
use super::nets::{Listener, Net, Tray};
use super::ports::{Failed, Sink, Source};
use super::std_streams::{read_once, write_once};
use std::marker::Model;
use std::net::{self, Shutdown};

/// One connection of the system. Small packets go out at once. It is closed where it is dropped.
/// Contracts see how many reads and writes failed.
#[derive(Drop)]
pub struct TcpLink {
    stream: net::TcpStream,
    reads_failed: u64,
    writes_failed: u64,
}

impl Model for TcpLink {
    ghost use Rattle.ice_ports.specs.Streams.{Wire};

    ghost Value = { Wire };

    ghost view = { λ l. record { reads_failed = l.reads_failed; writes_failed = l.writes_failed } };
}

impl TcpLink {
    /// A link over a socket that is open.
    fn over(stream: net::TcpStream) -> Result<TcpLink, Failed>
        ensures { IfOk result (λ link. link ≡ record { reads_failed = 0; writes_failed = 0 }) }
    {
        if stream.set_nodelay(true).is_err() {
            return Err(Failed);
        }
        Ok(TcpLink {
            stream,
            reads_failed: 0,
            writes_failed: 0,
        })
    }

    /// Whether a read or a write failed.
    fn has_failed(&self) -> bool
        ensures { result ≡ has_failed self.now.reads_failed self.now.writes_failed }
    {
        self.reads_failed > 0 || self.writes_failed > 0
    }

    /// How many reads failed, as far as u64 counts.
    pub fn reads_failed(&self) -> u64
        ensures { result ≡ self.now.reads_failed }
    {
        self.reads_failed
    }

    /// How many writes failed, as far as u64 counts.
    pub fn writes_failed(&self) -> u64
        ensures { result ≡ self.now.writes_failed }
    {
        self.writes_failed
    }
}

impl Source for TcpLink {
    ghost use Rattle.std.specs.Prelude.{◌≡◌, None};

    ghost left = { λ _. None };

    ghost failures = { λ s. s.reads_failed };

    ghost reads = { λ before _ after. after.writes_failed ≡ before.writes_failed };

    fn read(&mut self, into: &mut [u8]) -> Result<usize, Failed> {
        let result = read_once(&mut self.stream, into);
        if result.is_err() {
            self.reads_failed = self.reads_failed.saturating_add(1);
        }
        result
    }
}

impl Sink for TcpLink {
    ghost use Rattle.std.specs.Prelude.{◌≡◌, None};

    ghost taken = { λ _. None };

    ghost failures = { λ s. s.writes_failed };

    ghost writes = { λ before _ after. after.reads_failed ≡ before.reads_failed };

    fn write(&mut self, piece: &[u8]) -> Result<usize, Failed> {
        let result = write_once(&mut self.stream, piece);
        if result.is_err() {
            self.writes_failed = self.writes_failed.saturating_add(1);
        }
        result
    }
}

impl Link for TcpLink {
    ghost use Rattle.std.specs.Prelude.{◌≡◌, None};
    ghost use Rattle.std.proofs.Common.{refl};

    ghost talk = { λ _. None };

    fn shut(&mut self) {
        // A connection that is closed already has no directions to end.
        let _ = self.stream.shutdown(Shutdown::Both);
    }

    ghost read_adds = { λ _ _ _ kept. (refl, kept, refl) };

    ghost write_adds = { λ _ _ _ kept. (refl, kept, refl) };
}

/// Closes each link that it takes back.
#[derive(Drop)]
pub struct TcpTray;

impl Tray for TcpTray {
    type Link = TcpLink;

    ghost told = { λ _. None };

    fn take_back(&mut self, link: TcpLink) {
        drop(link);
    }
}

/// A listener of the system. It never answers None. Contracts see where it listens, and how many
/// accepts failed.
#[derive(Drop)]
pub struct TcpListener {
    socket: net::TcpListener,
    port: u16,
    failures: u64,
}

impl Model for TcpListener {
    ghost use Rattle.ice_ports.specs.Streams.{Door};

    ghost Value = { Door };

    ghost view = { λ l. record { port = l.port; failures = l.failures } };
}

impl TcpListener {
    /// How many accepts failed, as far as u64 counts.
    pub fn failures(&self) -> u64
        ensures { result ≡ self.now.failures }
    {
        self.failures
    }
}

impl Listener for TcpListener {
    type Link = TcpLink;

    type Tray = TcpTray;

    ghost told = { λ _. None };

    ghost failures = { λ l. l.failures };

    ghost nones = { λ _. 0 };

    ghost port = { λ l. l.port };

    fn port(&self) -> u16 {
        self.port
    }

    fn accept(&mut self) -> Result<Option<TcpLink>, Failed>
        ensures some { IfOk result (λ answer. IsSome answer) }
        ensures over { is_over result ≡ false }
        ensures new { IfOk result (λ answer. IfSome answer (λ link.
            (link.reads_failed ≡ 0) × (link.writes_failed ≡ 0))) }
        ensures count { self.new.failures ≡ count_after self.old.failures (is_err result) }
        ensures port { self.new.port ≡ self.old.port }
    {
        match next_link(&self.socket) {
            Ok(link) => Ok(Some(link)),
            Err(failed) => {
                self.failures = self.failures.saturating_add(1);
                Err(failed)
            }
        }
    }

    fn tray(&self) -> TcpTray {
        TcpTray
    }

    fn gather(&mut self, tray: TcpTray) {
        drop(tray);
    }
}

/// The network of the system. A host is a name or an address. Contracts see the two counts of
/// failures.
#[derive(Drop)]
pub struct TcpNet<R> {
    system: R,
    failures: u64,
    listen_failures: u64,
}

impl<R> Model for TcpNet<R> {
    ghost use Rattle.ice_ports.specs.Streams.{Sockets};

    ghost Value = { Sockets };

    ghost view = { λ n. record { failures = n.failures; listen_failures = n.listen_failures } };
}

impl<R> TcpNet<R> {
    /// The network of this runtime.
    pub fn new(system: R) -> TcpNet<R>
        ensures { result ≡ record { failures = 0; listen_failures = 0 } }
    {
        TcpNet {
            system,
            failures: 0,
            listen_failures: 0,
        }
    }

    /// How many calls of `connect` and `hang_up` counted a failure, as far as u64 counts.
    pub fn failures(&self) -> u64
        ensures { result ≡ self.now.failures }
    {
        self.failures
    }

    /// The same of `listen` and `retire`.
    pub fn listen_failures(&self) -> u64
        ensures { result ≡ self.now.listen_failures }
    {
        self.listen_failures
    }
}

impl<R: net::Net<Listener = net::TcpListener, Stream = net::TcpStream>> Net for TcpNet<R> {
    type Link = TcpLink;

    type Listener = TcpListener;

    ghost told = { λ _. None };

    ghost failures = { λ n. n.failures };

    ghost listen_failures = { λ n. n.listen_failures };

    fn connect(&mut self, host: &str, port: u16) -> Result<TcpLink, Failed> {
        let result = open_link(&self.system, host, port);
        if result.is_err() {
            self.failures = self.failures.saturating_add(1);
        }
        result
    }

    fn listen(&mut self, host: &str, port: u16) -> Result<TcpListener, Failed> {
        let result = open_listener(&self.system, host, port);
        if result.is_err() {
            self.listen_failures = self.listen_failures.saturating_add(1);
        }
        result
    }

    fn hang_up(&mut self, link: TcpLink) {
        if link.has_failed() {
            self.failures = self.failures.saturating_add(1);
        }
    }

    fn retire(&mut self, listener: TcpListener) {
        if listener.failures > 0 {
            self.listen_failures = self.listen_failures.saturating_add(1);
        }
    }
}

/// A new connection to the first address of the host that answers.
fn open_link<R>(system: &R, host: &str, port: u16) -> Result<TcpLink, Failed>
where
    R: net::Net<Listener = net::TcpListener, Stream = net::TcpStream>,
    ensures { IfOk result (λ link. link ≡ record { reads_failed = 0; writes_failed = 0 }) }
{
    match net::TcpStream::connect(system, (host, port)) {
        Ok(stream) => TcpLink::over(stream),
        Err(_) => Err(Failed),
    }
}

/// The next connection that another opened.
fn next_link(socket: &net::TcpListener) -> Result<TcpLink, Failed>
    ensures { IfOk result (λ link. link ≡ record { reads_failed = 0; writes_failed = 0 }) }
{
    match socket.accept() {
        Ok((stream, _)) => TcpLink::over(stream),
        Err(_) => Err(Failed),
    }
}

/// A new listener at this place, which may be taken again as soon as a listener there has ended. For
/// port 0 it has the port that the system chose.
fn open_listener<R>(system: &R, host: &str, port: u16) -> Result<TcpListener, Failed>
where
    R: net::Net<Listener = net::TcpListener, Stream = net::TcpStream>,
    ensures new { IfOk result (λ listener. listener.failures ≡ 0) }
    ensures port { IfOk result (λ listener. 0 < port → listener.port ≡ port) }
{
    let Ok(socket) = net::TcpListener::bind(system, (host, port)) else {
        return Err(Failed);
    };
    let port = if port == 0 {
        chosen_port(&socket)?
    } else {
        port
    };
    Ok(TcpListener {
        socket,
        port,
        failures: 0,
    })
}

/// The port on which a socket listens.
fn chosen_port(socket: &net::TcpListener) -> Result<u16, Failed> {
    match socket.local_addr() {
        Ok(place) => Ok(place.port()),
        Err(_) => Err(Failed),
    }
}
