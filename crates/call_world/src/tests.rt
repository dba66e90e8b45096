use crate::{
    Capture, answers_in_order, closed_never, each_at_most_once, every_capture_has_a_run,
    open_either, refused_never, replied_once,
};

/// A call is its operation's number, and a reply is its status; no call may be tried again freely.
struct Numbers;

impl Capture for Numbers {
    ghost use Rattle.std.specs.Prelude.{ℕ, false};

    type Call = u32;

    type Reply = u8;

    ghost status = { λ (status : ℕ). status };

    ghost repeatable = { λ (call : ℕ). false };
}

/// The laws are proved from the bound alone; here is a type that meets it.
#[test]
fn laws_of_numbers(_rt: HostRuntime) {
    each_at_most_once::<Numbers>();
    replied_once::<Numbers>();
    refused_never::<Numbers>();
    closed_never::<Numbers>();
    every_capture_has_a_run::<Numbers>();
    open_either::<Numbers>();
    answers_in_order::<Numbers>();
}
