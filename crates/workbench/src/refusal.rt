//! Why a line changes nothing.

use crate::event::LineFault;
use std::alloc::{AllocError, AllocFailed};
use thiserror::Error;

/// Why a line changes nothing.
#[derive(Clone, Copy, Debug, Error)]
pub enum Refusal {
    #[error(transparent)]
    Line(LineFault),
    #[error("there is no call {0}")]
    NoCall(usize),
    #[error("there is no connection {0}")]
    NoConnection(usize),
    #[error("that cannot come to the client of call {0} now")]
    NotToClient(usize),
    #[error("that cannot come to the server of connection {0} now")]
    NotToServer(usize),
    #[error("the client has left connection {0}")]
    ClientLeft(usize),
    #[error("the client handed over {handed} bytes, and {arrived} of them have arrived")]
    NotHanded { handed: u64, arrived: u64 },
    #[error("{arrived} of the {length} bytes of the request have arrived")]
    NotWhole { length: u64, arrived: u64 },
    #[error("the request of connection {0} had its turn")]
    HadItsTurn(usize),
    #[error("the server sent nothing more on connection {0}")]
    NothingSent(usize),
    #[error("out of memory")]
    Memory,
}

impl From<LineFault> for Refusal {
    fn from(fault: LineFault) -> Refusal {
        Refusal::Line(fault)
    }
}

impl From<AllocError> for Refusal {
    fn from(_error: AllocError) -> Refusal {
        Refusal::Memory
    }
}

impl<T: Drop> From<AllocFailed<T>> for Refusal {
    fn from(_error: AllocFailed<T>) -> Refusal {
        Refusal::Memory
    }
}
