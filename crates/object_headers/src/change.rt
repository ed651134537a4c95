//! Which changes of a header are allowed, by the kind of copier.

ghost use Rattle.std.specs.Prelude.{◌≡◌, ◌≢◌, ◌↔◌, IsTrue};
ghost use Rattle.object_headers.specs.Changes.{keeps_if, free_if, rule_of, AllowedChange};

use super::header::{Colour, Header, State};

/// The kind of a copier.
#[derive(Clone, Copy, Debug, PartialEq, Eq)]
pub enum Kind {
    /// It moves nothing.
    AtRest,
    Stopless,
    Chicken,
    Clover,
}

/// What a change from one state to another has to keep.
#[derive(Clone, Copy, Debug, PartialEq, Eq)]
enum Rule {
    /// There is no such change.
    Forbidden,
    /// Nothing: an object begins or ends.
    Free,
    /// The len and the birth number, while the colour becomes grey or ceases to be.
    Recolours,
    /// The len, the birth number and the colour.
    Keeps,
}

/// `Keeps` where a copier has the change.
fn keeps_if(has: bool) -> Rule
    ensures { result ≡ keeps_if has }
{
    if has { Rule::Keeps } else { Rule::Forbidden }
}

/// `Free` where a copier has the change.
fn free_if(has: bool) -> Rule
    ensures { result ≡ free_if has }
{
    if has { Rule::Free } else { Rule::Forbidden }
}

/// The rule of a change from one state to another.
fn rule_between(kind: Kind, from: State, to: State) -> Rule
    ensures { result ≡ rule_of kind from to }
{
    let moves = !matches!(kind, Kind::AtRest);
    let tags = matches!(kind, Kind::Stopless | Kind::Chicken);
    let widens = matches!(kind, Kind::Stopless);
    let skips_wide = matches!(kind, Kind::Chicken);
    let marks = matches!(kind, Kind::Clover);
    match (from, to) {
        (State::Absent, State::Plain) => Rule::Free,
        (State::Dead, State::Absent) => Rule::Free,
        (State::Forward, State::Absent) => free_if(moves),
        (State::Plain, State::Plain) => Rule::Recolours,
        (State::Plain, State::Dead) => Rule::Keeps,
        (State::Plain, State::Tagged) | (State::Tagged, State::Kept) => keeps_if(tags),
        (State::Kept, State::Plain) | (State::Forward, State::Dead) => keeps_if(tags),
        (State::Tagged, State::Wide) | (State::Wide, State::Forward) => keeps_if(widens),
        (State::Tagged, State::Forward) => keeps_if(skips_wide),
        (State::Plain, State::Moving) | (State::Moving, State::Forward) => keeps_if(marks),
        _ => Rule::Forbidden,
    }
}

/// Whether a copier of this kind, a pass or the collector may change one header into the other.
pub fn allowed_change(kind: Kind, from: Header, to: Header) -> bool
    ensures allowed { IsTrue result ↔ AllowedChange kind from to }
    ensures keeps { IsTrue result → from.state ≢ State.Absent → to.state ≢ State.Absent →
        (to.len ≡ from.len) × (to.birth ≡ from.birth) }
{
    let same_object = from.len == to.len && from.birth == to.birth;
    match rule_between(kind, from.state, to.state) {
        Rule::Forbidden => false,
        Rule::Free => true,
        Rule::Recolours => same_object
            && (from.colour == Colour::Grey) != (to.colour == Colour::Grey),
        Rule::Keeps => same_object && from.colour == to.colour,
    }
}

#[cfg(test)]
mod tests {
    use super::*;

    fn header(state: State, colour: Colour, len: u32) -> Header
        ensures { result ≡ record { state = state; colour = colour; len = len; birth = 1; target = 0 } }
    {
        Header {
            state,
            colour,
            len,
            birth: 1,
            target: 0,
        }
    }

    #[test]
    fn changes_states_by_the_kind_of_copier(rt: HostRuntime) {
        for (from, to, at_rest, stopless, chicken, clover) in [
            (State::Absent, State::Plain, true, true, true, true),
            (State::Plain, State::Dead, true, true, true, true),
            (State::Plain, State::Tagged, false, true, true, false),
            (State::Tagged, State::Kept, false, true, true, false),
            (State::Tagged, State::Wide, false, true, false, false),
            (State::Wide, State::Forward, false, true, false, false),
            (State::Tagged, State::Forward, false, false, true, false),
            (State::Plain, State::Moving, false, false, false, true),
            (State::Moving, State::Forward, false, false, false, true),
            (State::Kept, State::Plain, false, true, true, false),
            (State::Forward, State::Dead, false, true, true, false),
            (State::Dead, State::Absent, true, true, true, true),
            (State::Forward, State::Absent, false, true, true, true),
            (State::Plain, State::Plain, false, false, false, false),
            (State::Plain, State::Forward, false, false, false, false),
            (State::Kept, State::Forward, false, false, false, false),
            (State::Forward, State::Plain, false, false, false, false),
            (State::Dead, State::Plain, false, false, false, false),
        ] {
            let from = header(from, Colour::Even, 8);
            let to = header(to, Colour::Even, 8);
            assert_eq!(rt; allowed_change(Kind::AtRest, from, to), at_rest);
            assert_eq!(rt; allowed_change(Kind::Stopless, from, to), stopless);
            assert_eq!(rt; allowed_change(Kind::Chicken, from, to), chicken);
            assert_eq!(rt; allowed_change(Kind::Clover, from, to), clover);
        }
    }

    #[test]
    fn changes_colours_by_shading_and_blackening(rt: HostRuntime) {
        for (from, to, want) in [
            (Colour::Even, Colour::Grey, true),
            (Colour::Odd, Colour::Grey, true),
            (Colour::Grey, Colour::Even, true),
            (Colour::Grey, Colour::Odd, true),
            (Colour::Even, Colour::Odd, false),
            (Colour::Grey, Colour::Grey, false),
        ] {
            let white = header(State::Plain, from, 8);
            assert_eq!(rt;
                allowed_change(Kind::Clover, white, header(State::Plain, to, 8)),
                want
            );
            assert!(rt; !allowed_change(Kind::Clover, white, header(State::Plain, to, 9)));
        }
    }
}
