//! Tests of connections: sessions and workers that serve them, the command `serve` with several workers, what a client
//! tries again, and what a gateway forwards and answers, over links in memory that take and give what no real one lets
//! a peer choose. The crate has no functions of its own.
#![tactic(auto)]

#[cfg(test)]
mod forwarding;
#[cfg(test)]
mod links;
#[cfg(test)]
mod meeting;
#[cfg(test)]
mod retries;
#[cfg(test)]
mod serve_workers;
#[cfg(test)]
mod serving;
#[cfg(test)]
mod workers;
