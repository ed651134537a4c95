//! How much of the history a look has seen.

/// What a step makes of the changes that its pass has seen, where it is not a change itself.
#[derive(Clone, Copy, Debug, PartialEq, Eq)]
pub enum Front {
    /// Nothing: the step sees no field.
    Stays,
    /// The pass has seen all changes so far.
    Now,
    /// The pass has seen all changes up to the object's seal, and where it is not sealed all so far.
    SealedOrNow,
}
