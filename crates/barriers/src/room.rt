//! Where a pass makes its objects.

/// Where a pass makes its objects.
#[derive(Clone, Copy, Debug, PartialEq, Eq)]
pub struct Room {
    /// The region to which the pass appends objects, if it has one.
    pub region: Option<u32>,
    /// How many words of that region are used.
    pub used: u32,
    /// The region that the pass claimed last, if it claimed any.
    pub last: Option<u32>,
}
