//! The field that a call is about.

ghost use Rattle.std.specs.Prelude.{◌≡◌, ◌<◌};
ghost use Rattle.heap_words.specs.declared.limits.TheConstants.{ADDRESS_LIMIT};
ghost use Rattle.barriers.specs.Spots.{spot_of};

use heap_words::MOST_FIELDS;

/// A field of the object to which a link leads. An object has its header at its address, and its fields
/// after that.
#[derive(Clone, Copy, Debug, PartialEq, Eq)]
pub struct Spot {
    /// The object's birth number.
    pub birth: u32,
    /// The address that the link says, where the header is loaded.
    pub at: u32,
    /// The field's number, from 0 on.
    pub field: u32,
    /// The address of the field's word.
    pub place: u32,
}

impl Spot {
    /// The field number may be any; past the longest object the place means nothing.
    pub fn new(birth: u32, at: u32, field: u32) -> Spot
        requires { at < ADDRESS_LIMIT }
        ensures { result ≡ spot_of birth at field }
    {
        Spot {
            birth,
            at,
            field,
            place: at + 1 + field.min(MOST_FIELDS),
        }
    }
}
