//! All that the program does.

ghost use Rattle.node_commands.specs.Words.{words_of};
ghost use Rattle.node_commands.specs.Outside.{outside, counts};
ghost use Rattle.call_command.specs.Rounds.{net_seen};
ghost use Rattle.ice_node.specs.Promises.{KeepsLocally, KeepsPromises};

use call_command::{call, call_of};
use gate_command::{gate, gate_of};
use ice_ports::{Net, Shelf, Sink, Source};
use node_commands::{Outcome, report, run};
use serve_command::{serve, serve_of};
use std::alloc::Global;
use std::sync::Wait;
use std::thread::Threads;

/// Does what the words ask for and answers the status that the program ends with: reads Slice files
/// from the shelf and the input from the source, connects and listens over the net, and writes the
/// answer to the sink, or to the sink of errors a line on why there is none.
pub fn node<R: Threads + Wait + Sync, H: Shelf, S: Source, K: Sink, E: Sink, N: Net>(
    rt: &R,
    alloc: Global,
    words: &[String],
    shelf: &mut H,
    source: &mut S,
    sink: &mut K,
    errors: &mut E,
    net: &mut N,
) -> u8
    ensures { KeepsPromises (words_of words.now)
        (outside (H.files shelf.old) (S.left source.old) (K.taken sink.old) (E.taken errors.old)
        (counts (H.failures shelf.old) (S.failures source.old) (K.failures sink.old)) (E.failures errors.old))
        (outside (H.files shelf.new) (S.left source.new) (K.taken sink.new) (E.taken errors.new)
        (counts (H.failures shelf.new) (S.failures source.new) (K.failures sink.new)) (E.failures errors.new))
        (net_seen (N.told net.old) (N.failures net.old) (N.listen_failures net.old))
        (net_seen (N.told net.new) (N.failures net.new) (N.listen_failures net.new))
        result }
{
    match call_of(words) {
        Some(command) => call(alloc, command, shelf, source, sink, errors, net),
        None => match gate_of(words) {
            Some(command) => gate(alloc, command, shelf, sink, errors, net),
            None => match serve_of(alloc, words) {
                Ok(Some(command)) => serve(rt, alloc, command, shelf, sink, errors, net),
                Ok(None) => stay(alloc, words, shelf, source, sink, errors),
                Err(_) => report(Outcome::Memory, errors),
            },
        },
    }
}

/// Does what the words ask for where the net has no part in it.
fn stay<H: Shelf, S: Source, K: Sink, E: Sink>(
    alloc: Global,
    words: &[String],
    shelf: &mut H,
    source: &mut S,
    sink: &mut K,
    errors: &mut E,
) -> u8
    ensures { KeepsLocally (words_of words.now)
        (outside (H.files shelf.old) (S.left source.old) (K.taken sink.old) (E.taken errors.old)
        (counts (H.failures shelf.old) (S.failures source.old) (K.failures sink.old)) (E.failures errors.old))
        (outside (H.files shelf.new) (S.left source.new) (K.taken sink.new) (E.taken errors.new)
        (counts (H.failures shelf.new) (S.failures source.new) (K.failures sink.new)) (E.failures errors.new))
        result }
{
    let outcome = run(alloc, words, shelf, source, sink);
    report(outcome, errors)
}
