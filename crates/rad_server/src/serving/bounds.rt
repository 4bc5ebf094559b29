//! What a service takes, so that its threads may share it or own it.

use rad_desk::{Entrance, Gate, Ledger, Memory, WaitingRequests, Wire};
use std::sync::Wait;
use std::thread::Threads;
use std::time::Clock;

/// A system with a clock, threads and waits, which the threads share.
pub trait Host: Clock + Threads + Wait + Sync {}

impl<R: Clock + Threads + Wait + Sync> Host for R {}

/// A gate that the threads share.
pub trait SharedGate: Gate + Sync {}

impl<G: Gate + Sync> SharedGate for G {}

/// A wire that a thread owns.
pub trait OwnedWire: Wire + Send + Drop {}

impl<W: Wire + Send + Drop> OwnedWire for W {}

/// A ledger that a thread owns.
pub trait OwnedLedger: Ledger + Send + Drop {}

impl<L: Ledger + Send + Drop> OwnedLedger for L {}

/// An entrance that a thread owns.
pub trait OwnedEntrance: Entrance + Send + Drop {}

impl<E: Entrance + Send + Drop> OwnedEntrance for E {}

/// Waiting requests that a thread owns.
pub trait OwnedWaiting: WaitingRequests + Send + Drop {}

impl<S: WaitingRequests + Send + Drop> OwnedWaiting for S {}

/// A memory that a thread owns.
pub trait OwnedMemory: Memory + Send + Drop {}

impl<M: Memory + Send + Drop> OwnedMemory for M {}

/// What the front hands its work over to, and what earlier runs left.
#[derive(Drop)]
pub struct Keepers<L: Drop, E: Drop, S: Drop, M: Drop> {
    /// Gets each response before it is sent.
    pub ledger: L,
    /// Is told what each datagram led to that passed the checks.
    pub entrance: E,
    /// Come in again before anything that is received.
    pub waiting: S,
    /// Has responses of earlier runs.
    pub memory: M,
}
