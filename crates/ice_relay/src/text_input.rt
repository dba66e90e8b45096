//! A text from a source.

ghost use Rattle.std.specs.Prelude.{◌≡◌, IfOk};
ghost use Rattle.ice_ports.specs.Failures.{count_after};
ghost use Rattle.ice_ports.specs.Files.{is_failed};
ghost use Rattle.ice_relay.specs.TextStreams.{ReadsText, TakesText};

use crate::input::read_up_to;
use graph_json::MOST_TEXT;
use ice_ports::{PortFault, Source};
use std::alloc::Global;

/// The whole input, or of one that is longer than a text may be one byte more than that. What was read of a
/// source that fails is lost; that was no more either.
pub fn read_text<S: Source>(alloc: Global, source: &mut S) -> Result<Vec<u8>, PortFault>
    ensures read { IfOk result (λ got. ReadsText (S.left source.old) (S.left source.new) got.items) }
    ensures taken { TakesText (S.left source.old) (S.left source.new) }
    ensures count { S.failures source.new ≡ count_after (S.failures source.old) (is_failed result) }
{
    let mut text = Vec::new(alloc);
    read_up_to(source, &mut text, MOST_TEXT + 1)?;
    Ok(text)
}
