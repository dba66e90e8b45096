//! Pieces that go over any link.

use ice_ports::{Failed, Link, MOST_OF_A_READ, read_link, write_link};

/// Writes the whole piece.
pub(crate) fn write_whole<L: Link>(link: &mut L, piece: &[u8]) -> Result<(), Failed> {
    let mut rest = piece;
    for _ in 0..piece.len() {
        if rest.is_empty() {
            break;
        }
        let count = write_link(link, rest)?;
        rest = &rest[count..];
    }
    Ok(())
}

/// Whether the link gives this piece next.
pub(crate) fn gives<L: Link>(link: &mut L, piece: &[u8]) -> Result<bool, Failed> {
    let mut room = [0u8; MOST_OF_A_READ];
    let mut rest = piece;
    for _ in 0..piece.len() {
        if rest.is_empty() {
            break;
        }
        let most = rest.len().min(MOST_OF_A_READ);
        let count = read_link(link, &mut room[..most])?;
        if count == 0 || room[..count] != rest[..count] {
            break;
        }
        rest = &rest[count..];
    }
    Ok(rest.is_empty())
}

/// Writes back what it reads, until the end or a failure, and answers how many reads gave bytes.
pub(crate) fn echo<L: Link>(link: &mut L) -> Result<u64, Failed> {
    let mut room = [0u8; MOST_OF_A_READ];
    for reads in 0..u64::MAX {
        let count = read_link(link, &mut room)?;
        if count == 0 {
            return Ok(reads);
        }
        write_whole(link, &room[..count])?;
    }
    Ok(u64::MAX)
}
