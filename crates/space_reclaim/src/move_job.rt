//! The move of one object.

/// An object that is to be moved.
#[derive(Clone, Copy, Debug, PartialEq, Eq)]
pub struct MoveJob {
    /// Its birth number.
    pub birth: u32,
    /// The address of its header.
    pub from: u32,
    /// The address of the header of its copy.
    pub to: u32,
    /// The address of its wide object, and 0 where it has none.
    pub wide: u32,
    /// How many fields it has.
    pub len: u32,
    /// The word of its header, as it was found when the move was planned.
    pub header: u64,
}
