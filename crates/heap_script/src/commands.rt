//! What each thread of a script is to do.

ghost use Rattle.std.specs.Prelude.{◌≡◌, ◌≤◌, ◌<◌, ◌^◌, length, sum_by, slice_get, IfOk};
ghost use Rattle.heap_script.specs.Allowed.{commands_of};
ghost use Rattle.heap_script.specs.Commands.{commands_by, commands_at, before as commands_before, total as total_of};

use crate::script::{Command, Line};
use heap_history::OutOfMemory;
use std::alloc::Global;
use std::marker::Model;

/// The commands of each thread, thread 1's first. Threads count from 1.
#[derive(Drop)]
pub struct Commands {
    lists: Vec<Vec<Command>>,
}

impl Model for Commands {
    ghost use Rattle.std.specs.Prelude.{◌<◌, ◌^◌, List, length, map, sum_by};
    ghost use Rattle.heap_script.specs.declared.script.Command.{Command};

    ghost Value = { List (List Command) };

    ghost view = { λ c. map (λ list. list.items) c.lists.items };

    ghost invariant = { λ c. (length c.lists.items < 2 ^ 32) × (sum_by (λ list. length list.items) c.lists.items < 2 ^ 64) };
}

/// The commands of a thread among the lines.
fn thread_commands(alloc: Global, lines: &[Line], thread: u32) -> Result<Vec<Command>, OutOfMemory>
    ensures { IfOk result (λ list. list.items ≡ commands_of thread lines.now) }
{
    let mut list = Vec::new(alloc);
    for line in lines {
        if line.thread == thread {
            list.push(line.command)?;
        }
    }
    Ok(list)
}

/// How many commands the lists have together.
fn count_all(lists: &[Vec<Command>]) -> usize
    requires { sum_by (λ list. length list.items) lists.now < 2 ^ 64 }
    ensures { result ≡ sum_by (λ list. length list.items) lists.now }
{
    let mut count = 0;
    for list in lists {
        count += list.len();
    }
    count
}

impl Commands {
    /// Those of the first `threads` threads among the lines, each thread's in order.
    pub fn of_lines(alloc: Global, lines: &[Line], threads: u32) -> Result<Commands, OutOfMemory>
        ensures { IfOk result (λ commands. commands ≡ commands_by threads lines.now) }
    {
        let mut lists = Vec::new(alloc);
        for thread in 0..threads {
            let list = thread_commands(alloc, lines, thread + 1)?;
            lists.push(list)?;
        }
        Ok(Commands { lists })
    }

    /// How many threads there are.
    pub fn threads(&self) -> u32
        ensures { result ≡ length self.now }
    {
        self.lists.len() as u32
    }

    /// The command of a thread after `index` of its commands.
    pub fn get(&self, thread: u32, index: usize) -> Option<Command>
        requires least { 1 ≤ thread }
        requires most { thread ≤ length self.now }
        ensures { result ≡ slice_get (commands_at self.now thread) index }
    {
        self.lists[thread as usize - 1].get(index).copied()
    }

    /// How many commands a thread has.
    pub fn count(&self, thread: u32) -> usize
        requires least { 1 ≤ thread }
        requires most { thread ≤ length self.now }
        ensures { result ≡ length (commands_at self.now thread) }
    {
        self.lists[thread as usize - 1].len()
    }

    /// How many commands the threads before this one have.
    pub fn before(&self, thread: u32) -> usize
        requires least { 1 ≤ thread }
        requires most { thread ≤ length self.now }
        ensures { result ≡ commands_before self.now thread }
    {
        count_all(&self.lists[..thread as usize - 1])
    }

    /// How many commands all threads have.
    pub fn total(&self) -> usize
        ensures { result ≡ total_of self.now }
    {
        count_all(&self.lists)
    }
}
