//! An object's header, and the word that it is packed into.

ghost use Rattle.std.specs.Prelude.{◌≡◌, ◌<◌, ◌^◌, ◌↔◌, IsNone, IfSome};
ghost use Rattle.object_headers.specs.States.{code_of, state_of, colour_code_of, colour_of};
ghost use Rattle.object_headers.specs.Headers.{are_object_bits, names_header};

use heap_words::MOST_FIELDS;

/// What an object is, or what its word is while there is none.
#[derive(Clone, Copy, Debug, PartialEq, Eq)]
pub enum State {
    /// There is no object.
    Absent,
    /// An object that is where it is.
    Plain,
    /// An object whose copy was given up: it stays where it is in this cycle.
    Kept,
    /// An object that is about to be copied.
    Tagged,
    /// An object whose fields are in the wide object at the target, on their way to the copy.
    Wide,
    /// An object whose fields are on their way to the copy at the target.
    Moving,
    /// An object that is now the copy at the target.
    Forward,
    /// An object that nothing will use any more.
    Dead,
}

/// The colour of marking. Of `Even` and `Odd` one is black and the other white, by turns from cycle to
/// cycle.
#[derive(Clone, Copy, Debug, PartialEq, Eq)]
pub enum Colour {
    Even,
    Odd,
    Grey,
}

/// What the header of an object says.
#[derive(Clone, Copy, Debug, PartialEq, Eq)]
pub struct Header {
    pub state: State,
    pub colour: Colour,
    /// The number of fields, 0 to [`MOST_FIELDS`].
    pub len: u32,
    /// The birth number, below 2^24, and 0 only where there is no object.
    pub birth: u32,
    /// An address below 2^20 in the states `Wide`, `Moving` and `Forward`, and 0 in the others.
    pub target: u32,
}

/// The code of a state, in bits 0 to 2.
fn state_code(state: State) -> u64
    ensures code { result ≡ code_of state }
    ensures small { result < 8 }
{
    match state {
        State::Absent => 0,
        State::Plain => 1,
        State::Kept => 2,
        State::Tagged => 3,
        State::Wide => 4,
        State::Moving => 5,
        State::Forward => 6,
        State::Dead => 7,
    }
}

/// The state of a code.
#[tactic(auto, unfolding(crate::specs::States::state_of))]
fn state_from(code: u64) -> State
    requires { code < 8 }
    ensures { result ≡ state_of code }
{
    match code {
        0 => State::Absent,
        1 => State::Plain,
        2 => State::Kept,
        3 => State::Tagged,
        4 => State::Wide,
        5 => State::Moving,
        6 => State::Forward,
        _ => State::Dead,
    }
}

/// The code of a colour, in bits 3 and 4.
fn colour_code(colour: Colour) -> u64
    ensures code { result ≡ colour_code_of colour }
    ensures small { result < 3 }
{
    match colour {
        Colour::Even => 0,
        Colour::Odd => 1,
        Colour::Grey => 2,
    }
}

/// The colour of a code.
#[tactic(auto, unfolding(crate::specs::States::colour_of))]
fn colour_from(code: u64) -> Colour
    requires { code < 3 }
    ensures { result ≡ colour_of code }
{
    match code {
        0 => Colour::Even,
        1 => Colour::Odd,
        _ => Colour::Grey,
    }
}

/// Whether these can be the bits of a header in another state than `Absent`.
fn are_object_bits(state: u64, colour: u64, len: u64, birth: u64, target: u64) -> bool
    ensures { result ≡ are_object_bits state colour len birth target }
{
    let has_target = 4 <= state && state <= 6;
    colour < 3 && len <= u64::from(MOST_FIELDS) && birth != 0 && (target == 0 || has_target)
}

/// Whether a word is that of a header.
#[tactic(auto, unfolding(crate::specs::Headers::names_header))]
fn names_header(word: u64) -> bool
    ensures { result ≡ names_header word }
{
    if word % (1 << 3) == 0 {
        return word == 0;
    }
    if word / (1 << 55) != 0 {
        return false;
    }
    are_object_bits(
        word % (1 << 3),
        word / (1 << 3) % (1 << 2),
        word / (1 << 5) % (1 << 6),
        word / (1 << 11) % (1 << 24),
        word / (1 << 35) % (1 << 20),
    )
}

impl Header {
    ghost use Rattle.object_headers.specs.Headers.{IsHeader, word_of_header, header_of, HoldsNoHeader};

    /// The word of a header. Only that of [`State::Absent`] is 0, and [`Header::unpack`] gives the
    /// header again.
    pub fn pack(&self) -> u64
        requires { IsHeader self.now }
        ensures word { result ≡ word_of_header self.now }
        ensures packed { result < 2 ^ 55 }
        ensures zero { (result ≡ 0) ↔ (self.now.state ≡ State.Absent) }
        ensures unpacks { header_of result ≡ Some self.now }
    {
        state_code(self.state)
            + (colour_code(self.colour) << 3)
            + (u64::from(self.len) << 5)
            + (u64::from(self.birth) << 11)
            + (u64::from(self.target) << 35)
    }

    /// The header of a word, or `None` where the word is that of no header.
    pub fn unpack(word: u64) -> Option<Header>
        ensures value { result ≡ header_of word }
        ensures none { IsNone result ↔ HoldsNoHeader word }
        ensures fits { IfSome result IsHeader }
        ensures packs { IfSome result (λ h. word_of_header h ≡ word) }
    {
        if !names_header(word) {
            return None;
        }
        Some(Header {
            state: state_from(word % (1 << 3)),
            colour: colour_from(word / (1 << 3) % (1 << 2)),
            len: (word / (1 << 5) % (1 << 6)) as u32,
            birth: (word / (1 << 11) % (1 << 24)) as u32,
            target: (word / (1 << 35) % (1 << 20)) as u32,
        })
    }
}

#[cfg(test)]
mod tests {
    use super::*;

    #[test]
    fn packs_and_unpacks(rt: HostRuntime) {
        let opening = Header {
            state: State::Plain,
            colour: Colour::Even,
            len: 8,
            birth: 1,
            target: 0,
        };
        let moved = Header {
            state: State::Forward,
            colour: Colour::Odd,
            len: 8,
            birth: 1,
            target: 79,
        };
        assert_eq!(rt; opening.pack(), 0x901);
        assert_eq!(rt; moved.pack(), 0x278_0000_090e);
        assert_eq!(rt; Header::unpack(0x901), Some(opening));
        assert_eq!(rt; Header::unpack(0x278_0000_090e), Some(moved));
        let absent = Header::unpack(0).map(|header| header.state);
        assert_eq!(rt; absent, Some(State::Absent));
    }

    #[test]
    fn refuses_words_of_no_header(rt: HostRuntime) {
        for word in [
            // Bit 55, the colour 3, a len of 31, an absent object with a len, the birth number 0, and a
            // target in the states Plain, Kept, Tagged and Dead.
            0x0080_0000_0000_0901,
            0x919,
            0xbe1,
            0x900,
            0x101,
            0x278_0000_0901,
            0x278_0000_0902,
            0x278_0000_0903,
            0x278_0000_0907,
        ] {
            assert_eq!(rt; Header::unpack(word), None, "at {word}");
        }
    }
}
