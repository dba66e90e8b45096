//! A net whose links wait for each other: the first read of each goes on once all of them are being read.
ghost use Rattle.std.specs.Prelude.{◌≡◌};

use ice_ports::{Failed, Link, Listener, Net, Sink, Source, Tray};
use std::alloc::{AllocError, Global};
use std::sync::Arc;
use std::sync::atomic::{AtomicU64, Ordering};
use std::thread::yield_now;

/// How many reads have begun, and how many of them saw all others begin.
#[derive(Drop)]
pub(crate) struct Meeting {
    pub(crate) wanted: u64,
    pub(crate) begun: AtomicU64,
    pub(crate) met: AtomicU64,
}

/// Waits until as many reads as are wanted have begun, or for so many looks. Says whether they have.
fn meet(meeting: &Meeting) -> bool {
    meeting.begun.fetch_add(1, Ordering::SeqCst);
    for _ in 0..1_000_000_000u32 {
        if meeting.begun.load(Ordering::SeqCst) == meeting.wanted {
            meeting.met.fetch_add(1, Ordering::SeqCst);
            return true;
        }
        yield_now();
    }
    false
}

/// A link that gives nothing, and takes all.
#[derive(Drop)]
pub(crate) struct MeetingLink {
    meeting: Arc<Meeting>,
    reads_failed: u64,
}

impl Source for MeetingLink {
    ghost use Rattle.std.specs.Prelude.{◌≡◌, None};

    ghost left = { λ _. None };

    ghost failures = { λ s. s.reads_failed };

    fn read(&mut self, _into: &mut [u8]) -> Result<usize, Failed> {
        if meet(&self.meeting) {
            return Ok(0);
        }
        self.reads_failed = self.reads_failed.saturating_add(1);
        Err(Failed)
    }
}

impl Sink for MeetingLink {
    ghost use Rattle.std.specs.Prelude.{◌≡◌, None};

    ghost taken = { λ _. None };

    ghost failures = { λ _. 0 };

    ghost writes = { λ before _ after. after.reads_failed ≡ before.reads_failed };

    fn write(&mut self, piece: &[u8]) -> Result<usize, Failed> {
        Ok(piece.len())
    }
}

impl Link for MeetingLink {
    ghost use Rattle.std.specs.Prelude.{◌≡◌, None};
    ghost use Rattle.std.proofs.Common.{refl};

    ghost talk = { λ _. None };

    fn shut(&mut self) {}

    ghost read_adds = { λ _ _ _ _. (refl, refl, refl) };

    ghost write_adds = { λ _ _ _ kept. (refl, kept, refl) };
}

/// Lets go of each link that it takes back.
#[derive(Drop)]
pub(crate) struct MeetingTray;

impl Tray for MeetingTray {
    ghost use Rattle.std.specs.Prelude.{◌≡◌, None};

    type Link = MeetingLink;

    ghost told = { λ _. None };

    fn take_back(&mut self, link: MeetingLink) {
        drop(link);
    }
}

/// Gives so many links.
#[derive(Drop)]
pub(crate) struct MeetingListener {
    meetings: Vec<Arc<Meeting>>,
    nones: u64,
    port: u16,
}

impl Listener for MeetingListener {
    ghost use Rattle.std.specs.Prelude.{◌≡◌, None};

    type Link = MeetingLink;

    type Tray = MeetingTray;

    ghost told = { λ _. None };

    ghost failures = { λ _. 0 };

    ghost nones = { λ l. l.nones };

    ghost port = { λ l. l.port };

    fn port(&self) -> u16 {
        self.port
    }

    fn accept(&mut self) -> Result<Option<MeetingLink>, Failed> {
        match self.meetings.pop() {
            Some(meeting) => Ok(Some(MeetingLink {
                meeting,
                reads_failed: 0,
            })),
            None => {
                self.nones = self.nones.saturating_add(1);
                Ok(None)
            }
        }
    }

    fn tray(&self) -> MeetingTray {
        MeetingTray
    }

    fn gather(&mut self, tray: MeetingTray) {
        drop(tray);
    }
}

/// Gives a listener whose links meet, and connects to nothing.
#[derive(Drop)]
pub(crate) struct MeetingNet {
    pub(crate) alloc: Global,
    pub(crate) meeting: Arc<Meeting>,
    failures: u64,
    listen_failures: u64,
}

impl MeetingNet {
    pub(crate) fn new(alloc: Global, meeting: Arc<Meeting>) -> MeetingNet {
        MeetingNet {
            alloc,
            meeting,
            failures: 0,
            listen_failures: 0,
        }
    }
}

/// The meeting, once for each link that is to meet.
fn meetings_of(alloc: Global, meeting: &Arc<Meeting>) -> Result<Vec<Arc<Meeting>>, AllocError> {
    let mut meetings = Vec::new(alloc);
    for _ in 0..meeting.wanted {
        meetings.push(Arc::clone(meeting)?)?;
    }
    Ok(meetings)
}

impl Net for MeetingNet {
    ghost use Rattle.std.specs.Prelude.{◌≡◌, None};

    type Link = MeetingLink;

    type Listener = MeetingListener;

    ghost told = { λ _. None };

    ghost failures = { λ n. n.failures };

    ghost listen_failures = { λ n. n.listen_failures };

    fn connect(&mut self, _host: &str, _port: u16) -> Result<MeetingLink, Failed> {
        self.failures = self.failures.saturating_add(1);
        Err(Failed)
    }

    fn listen(&mut self, _host: &str, port: u16) -> Result<MeetingListener, Failed> {
        match meetings_of(self.alloc, &self.meeting) {
            Ok(meetings) => Ok(MeetingListener {
                meetings,
                nones: 0,
                port,
            }),
            Err(_) => {
                self.listen_failures = self.listen_failures.saturating_add(1);
                Err(Failed)
            }
        }
    }

    fn hang_up(&mut self, link: MeetingLink) {
        if link.reads_failed > 0 {
            self.failures = self.failures.saturating_add(1);
        }
    }

    fn retire(&mut self, listener: MeetingListener) {
        drop(listener);
    }
}
