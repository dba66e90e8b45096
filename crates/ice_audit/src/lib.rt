//! What both directions of one captured connection tell of its calls: how often each was dispatched, over every run
//! of the protocol that shows the capture.
#![tactic(auto)]

mod client;
mod drawing;
mod judging;
mod laws;
mod server;
mod stop;
mod stream;
mod verdict;

pub use judging::audit;
pub use laws::{
    capture_has_trace, capture_is_told, capture_none_twice, each_is_told, good_has_trace,
    lines_are_told, none_twice, verdicts_apart,
};
pub use verdict::{Line, MOST_BYTES, Seen, Side, Verdict, Why};
