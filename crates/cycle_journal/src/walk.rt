//! The objects that the words have, found one after another.

ghost use Rattle.std.specs.Prelude.{◌≡◌, ◌+◌, ◌<◌, ◌≤◌, ◌^◌, ◌++◌, map, slice_index, IfOk, OnOk};
ghost use Rattle.heap_words.specs.Layouts.{IsRegion};
ghost use Rattle.heap_words.specs.declared.limits.TheConstants.{MOST_FIELDS};
ghost use Rattle.object_headers.specs.Headers.{header_at};
ghost use Rattle.cycle_journal.specs.LastHeaps.{is_live, value_at, values_at, line_at, left_at, live_in, live_objects};
ghost use Rattle.cycle_journal.specs.Lines.{lines_of};

use crate::leavings::ObjectLine;
use barriers::{held_by, value_of};
use call_steps::{OutOfMemory, PlainWords};
use heap_history::Value;
use heap_words::{Layout, REGION_WORDS};
use object_headers::{Colour, Header, State};
use std::alloc::Global;

/// The word at an address, and 0 where there is none.
fn word_at(words: &PlainWords, at: u32) -> u64
    ensures { result ≡ slice_index words.now at }
{
    if at < words.len() { words.word(at) } else { 0 }
}

/// The header of a word; a word of no header counts as that of no object.
#[tactic(auto, unfolding(object_headers::specs::Headers::header_at))]
fn header_at(word: u64) -> Header
    ensures header { result ≡ header_at word }
    ensures len { result.len ≤ MOST_FIELDS }
{
    Header::unpack(word).unwrap_or(Header {
        state: State::Absent,
        colour: Colour::Even,
        len: 0,
        birth: 0,
        target: 0,
    })
}

/// Whether an object in this state is one that is left.
fn is_live(state: State) -> bool
    ensures { result ≡ is_live state }
{
    !matches!(state, State::Absent | State::Dead)
}

/// The value of the word at an address.
pub fn value_at(words: &PlainWords, at: u32) -> Value
    ensures { result ≡ value_at words.now at }
{
    value_of(held_by(word_at(words, at)))
}

/// The values of `count` words from an address on.
fn values_at(
    alloc: Global,
    words: &PlainWords,
    at: u32,
    count: u32,
) -> Result<Vec<Value>, OutOfMemory>
    requires { at + count < 2 ^ 32 }
    ensures { IfOk result (λ values. values.items ≡ values_at words.now at count) }
{
    let mut values = Vec::new(alloc);
    for i in 0..count {
        values.push(value_at(words, at + i))?;
    }
    Ok(values)
}

/// Adds the object that has this header at an address, if it is left.
fn push_object(
    alloc: Global,
    lines: &mut Vec<ObjectLine>,
    words: &PlainWords,
    at: u32,
    header: Header,
) -> Result<(), OutOfMemory>
    requires at { at < 2 ^ 31 }
    requires header { header ≡ header_at (slice_index words.now at) }
    requires len { header.len ≤ MOST_FIELDS }
    ensures { OnOk result (lines_of lines.new.items ≡ lines_of lines.old.items ++ left_at words.now at) }
{
    if is_live(header.state) {
        let fields = values_at(alloc, words, at + 1, header.len)?;
        lines.push(ObjectLine {
            birth: header.birth,
            at,
            fields,
        })?;
    }
    Ok(())
}

/// Adds the objects of a region that are left, in rising address.
fn push_region(
    alloc: Global,
    lines: &mut Vec<ObjectLine>,
    layout: &Layout,
    words: &PlainWords,
    region: u32,
) -> Result<(), OutOfMemory>
    requires { IsRegion layout.now region }
    ensures { OnOk result (lines_of lines.new.items ≡ lines_of lines.old.items ++ map (line_at words.now) (live_in layout.now words.now region)) }
{
    let first = layout.first_word(region);
    let end = first + REGION_WORDS;
    let mut at = first;
    while at < end && word_at(words, at) != 0 {
        let header = header_at(word_at(words, at));
        push_object(alloc, lines, words, at, header)?;
        at += header.len + 1;
    }
    Ok(())
}

/// The objects of all regions that are left, by region and then by address.
pub fn live_lines(
    alloc: Global,
    layout: &Layout,
    words: &PlainWords,
) -> Result<Vec<ObjectLine>, OutOfMemory>
    ensures { IfOk result (λ lines. lines_of lines.items ≡ map (line_at words.now) (live_objects layout.now words.now)) }
{
    let mut lines = Vec::new(alloc);
    for region in 0..layout.regions() {
        push_region(alloc, &mut lines, layout, words, region)?;
    }
    Ok(lines)
}
