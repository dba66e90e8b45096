//! A text on its way to a sink, page by page.

ghost use Rattle.ice_relay.specs.Pages.{Tells, TellsAll};

use ice_ports::{PortFault, Sink, write_all};

/// A page of so many bytes is full. A `Writer` on a page makes as much ready ahead as stands there, so a long one would
/// cost each small piece much.
const FULL: usize = 4_096;

/// The page as it stands; or, where it is full, a blank one: the sink gets what stood there. Where a write fails, the
/// sink has taken less than the text; out of memory leaves it the beginning of the text.
pub(crate) fn turned<K: Sink>(page: Vec<u8>, sink: &mut K) -> Result<Vec<u8>, PortFault>
    ensures { Tells page.items (K.taken sink.old) (K.taken sink.new)
        (K.failures sink.old) (K.failures sink.new) result }
{
    if page.len() < FULL {
        return Ok(page);
    }
    let mut page = page;
    write_all(sink, page.as_slice())?;
    page.clear();
    Ok(page)
}

/// Writes what stands on the last page.
pub(crate) fn ended<K: Sink>(page: Vec<u8>, sink: &mut K) -> Result<(), PortFault>
    ensures { TellsAll page.items (K.taken sink.old) (K.taken sink.new)
        (K.failures sink.old) (K.failures sink.new) result }
{
    write_all(sink, page.as_slice())?;
    Ok(())
}
