//! What is known of each party. No value of a record is made: what runs keeps counts, and the records are read off it.

use crate::awaited::Awaited;
use crate::collector::CollectorMachine;
use barriers::PassRecord;
use heap_history::{Call, Ended};
use space_reclaim::Plan;
use std::collections::LinkedList;

/// What is known of a pass.
pub struct PassKnown<R, W, E> {
    pub pass: PassRecord<R, W, E>,
    /// The changes that it has seen, its own and others', the newest first.
    pub seen: LinkedList<Call>,
    /// Its own changes, the newest first: among them the objects that it has made, with their lens.
    pub mine: LinkedList<Call>,
    /// The calls that it has ended, in order of time.
    pub ended: LinkedList<Ended>,
}

/// An object that is sealed: its words are those of the history at its seal.
pub struct Sealed {
    /// The address of its header.
    pub at: u32,
    /// How many fields it has.
    pub len: u32,
    /// The changes at its seal, the newest first.
    pub changes: LinkedList<Call>,
}

/// What is known of the collector.
pub struct CollectorKnown<M> {
    pub machine: CollectorMachine<M>,
    /// What its first cycle moves.
    pub plan: Plan,
    /// How many changes there were when the awaits of the running cycle ended.
    pub awaited: Awaited,
    /// The objects that are sealed, in the order of their seals.
    pub sealed: LinkedList<Sealed>,
}

/// What is known of a party.
pub enum Party<R, W, E, M> {
    Pass(PassKnown<R, W, E>),
    Collector(CollectorKnown<M>),
}
