//! Tests of what only a call of a library shows, or what no run of a program comes to, in a crate of their own, so that no
//! proof of a library is repeated for a test. It has no other code. They are in one crate, since reading the libraries costs
//! as much as proving the tests of several of them. What the programs show is tested over the built programs, by the scripts
//! of `tests`.
//!
//! `queues`, `sliding` and `tables` test the collections, `lane` a lane, `desk` the end of a proxy, `server` sockets and
//! threads, `telemetry` the log and the metrics, `lines` the lines of a ledger, `spool` the files of a spool, and `requests`
//! what signs a request. `nas` and `homes` have the packets that tests share.
#![tactic(auto)]

#[cfg(test)]
mod comparing;
#[cfg(test)]
mod configured;
#[cfg(test)]
mod desk;
#[cfg(test)]
mod homes;
#[cfg(test)]
mod lane;
#[cfg(test)]
mod lines;
#[cfg(test)]
mod nas;
#[cfg(test)]
mod numbers;
#[cfg(test)]
mod queues;
#[cfg(test)]
mod requests;
#[cfg(test)]
mod server;
#[cfg(test)]
mod sliding;
#[cfg(test)]
mod spool;
#[cfg(test)]
mod tables;
#[cfg(test)]
mod telemetry;
#[cfg(test)]
mod vectors;
