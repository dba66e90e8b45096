//! Tests of the parts of the program over public calls, one module a subject: values, graphs, proxies and tags;
//! messages, both ends of a call, and turns on one object; inputs and user exceptions, and what inputs come by:
//! files, streams, and connections over the loopback, alone and many at once, and in memory. They try what no
//! contract says and no case can bring about, calls that no command makes, and each call once on values that are
//! written out. The crate has no functions of its own.
#![tactic(auto)]

#[cfg(test)]
mod calls;
#[cfg(test)]
mod captures;
#[cfg(test)]
mod carrying;
#[cfg(test)]
mod dumps;
#[cfg(test)]
mod exceptions;
#[cfg(test)]
mod graphs;
#[cfg(test)]
mod identities;
#[cfg(test)]
mod interrupted;
#[cfg(test)]
mod keys;
#[cfg(test)]
mod memory;
#[cfg(test)]
mod messages;
#[cfg(test)]
mod optionals;
#[cfg(test)]
mod ports;
#[cfg(test)]
mod proxies;
#[cfg(test)]
mod retries;
#[cfg(test)]
mod sockets;
#[cfg(test)]
mod turnstiles;
#[cfg(test)]
mod values;
