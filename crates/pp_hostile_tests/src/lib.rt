//! Tests of a peer that is given hostile datagrams, most of them on a proven channel. After each of them all that was sent so far is
//! served by the definitions, and a request is served: another peer's at once, and one of the same peer too, on a new channel where the
//! datagram closed the old one. They stand in a crate of their own, since the tests of a crate have all of it proved once more.
#![tactic(auto)]

#[cfg(test)]
mod cases;
#[cfg(test)]
mod cuts;
#[cfg(test)]
mod fetcher;
#[cfg(test)]
mod handshakes;
#[cfg(test)]
mod judging;
#[cfg(test)]
mod lists;
#[cfg(test)]
mod methods;
#[cfg(test)]
mod seeder;
#[cfg(test)]
mod side;
#[cfg(test)]
mod trial;
