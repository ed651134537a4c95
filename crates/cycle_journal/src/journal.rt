//! What a cycle reports of itself.

use space_reclaim::RegionLive;

/// The most candidates for a mark that a cycle draws.
pub const CANDIDATES: usize = 8;

/// An object that was moved.
#[derive(Clone, Copy, Debug, PartialEq, Eq)]
pub struct MoveRow {
    pub birth: u32,
    /// The address at which it was.
    pub from: u32,
    /// The address of its copy.
    pub to: u32,
}

/// An object whose copy was given up, so that it stays where it is.
#[derive(Clone, Copy, Debug, PartialEq, Eq)]
pub struct KeptRow {
    pub birth: u32,
    pub at: u32,
    /// The word of its header, as the seal that lost has found it.
    pub header: u64,
}

/// Where a candidate for a mark stands as a value.
#[derive(Clone, Copy, Debug, PartialEq, Eq)]
pub struct MarkFound {
    /// The address of the object.
    pub at: u32,
    pub field: u32,
}

/// The mark of a cycle.
#[derive(Clone, Copy, Debug, PartialEq, Eq)]
pub enum MarkRow {
    /// The copier needs no mark.
    None,
    /// This number, which stands in no field.
    Used(u64),
    /// None: each candidate was found, first in these places.
    Refused([MarkFound; CANDIDATES]),
}

/// What a cycle has done. Regions stand in rising number; moved and kept objects in the order of the plan.
#[derive(Debug, Drop)]
pub struct CycleReport {
    /// The number of the cycle, from 1 on.
    pub cycle: u32,
    /// The regions that were Filled, each with its live words.
    pub live: Vec<RegionLive>,
    /// The regions that were to be emptied.
    pub chosen: Vec<u32>,
    pub moves: Vec<MoveRow>,
    pub kept: Vec<KeptRow>,
    /// The regions that were given again.
    pub freed: Vec<u32>,
    pub mark: MarkRow,
}
