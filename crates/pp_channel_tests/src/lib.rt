//! Tests of the crates between the values of the protocol and a peer, each by its own calls: channels, what is kept of each, the datagrams
//! that go there, and the mail and the watched devices of a replay. They stand in a crate of their own, since the tests of a crate have
//! all of it proved once more.
#![tactic(auto)]

#[cfg(test)]
mod agenda;
#[cfg(test)]
mod channels;
#[cfg(test)]
mod desk;
#[cfg(test)]
mod draft;
#[cfg(test)]
mod fetching;
#[cfg(test)]
mod lives;
#[cfg(test)]
mod mail;
#[cfg(test)]
mod seat;
#[cfg(test)]
mod seats;
#[cfg(test)]
mod watch;
