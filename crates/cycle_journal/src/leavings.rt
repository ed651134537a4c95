//! What is left of a heap after its last cycle.

ghost use Rattle.std.specs.Prelude.{◌≡◌, map, IfOk};
ghost use Rattle.std.specs.List.Sorted.{IsPermutation, IsStrictlyIncreasing};
ghost use Rattle.heap_words.specs.Layouts.{IsPass, root_at};
ghost use Rattle.heap_words.specs.declared.limits.TheConstants.{REGISTERS};
ghost use Rattle.cycle_journal.specs.LastHeaps.{values_at, roots_of, line_at, live_objects, HasEachOnce};
ghost use Rattle.cycle_journal.specs.Lines.{lines_of};

use crate::walk::{live_lines, value_at};
use call_steps::{OutOfMemory, PlainWords};
use heap_history::Value;
use heap_words::{Layout, REGISTERS};
use std::alloc::Global;

/// An object that is left.
#[derive(Debug, Drop)]
pub struct ObjectLine {
    pub birth: u32,
    /// The address of its header.
    pub at: u32,
    /// The values of its fields.
    pub fields: Vec<Value>,
}

/// What is left of a heap.
#[derive(Debug, Drop)]
pub struct LastHeap {
    /// The registers of each pass as it ended, pass 1's first.
    pub left: Vec<[Value; REGISTERS]>,
    /// The objects that are left, in rising birth number.
    pub objects: Vec<ObjectLine>,
}

/// The values of the root words of a pass.
fn roots_of(layout: &Layout, words: &PlainWords, pass: u32) -> [Value; REGISTERS]
    requires { IsPass layout.now pass }
    ensures { result ≡ values_at words.now (root_at layout.now pass 0) REGISTERS }
{
    let mut values = [Value::Num(0); REGISTERS];
    for reg in 0..REGISTERS {
        values[reg] = value_at(words, layout.root_at(pass, reg as u32));
    }
    values
}

/// The values of the root words of each pass.
fn all_roots(
    alloc: Global,
    layout: &Layout,
    words: &PlainWords,
) -> Result<Vec<[Value; REGISTERS]>, OutOfMemory>
    ensures { IfOk result (λ left. left.items ≡ roots_of layout.now words.now) }
{
    let mut left = Vec::new(alloc);
    for pass in 0..layout.passes() {
        left.push(roots_of(layout, words, pass + 1))?;
    }
    Ok(left)
}

/// What is left of a heap, of whose words these are those after its last cycle: the root words of each pass, and
/// all objects that are not dead, each where it stands. Only want of memory is an error.
pub fn last_heap(
    alloc: Global,
    layout: &Layout,
    words: &PlainWords,
) -> Result<LastHeap, OutOfMemory>
    // The registers of each pass are those that its root words hold.
    ensures left { IfOk result (λ last. last.left.items ≡ roots_of layout.now words.now) }

    // The objects are those that the words have, each once, with its address and the values of its fields.
    ensures objects { IfOk result (λ last. IsPermutation (map (line_at words.now) (live_objects layout.now words.now)) (lines_of last.objects.items)) }

    // After a last cycle no two have one birth number, and then they stand in rising birth number.
    ensures rising { IfOk result (λ last. HasEachOnce layout.now words.now → IsStrictlyIncreasing (map (λ o. o.birth) last.objects.items)) }
{
    let left = all_roots(alloc, layout, words)?;
    let mut objects = live_lines(alloc, layout, words)?;
    objects.sort_unstable_by_key(|object| object.birth);
    Ok(LastHeap { left, objects })
}

#[cfg(test)]
mod tests;
