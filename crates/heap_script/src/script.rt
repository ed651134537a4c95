//! What a script is.

use heap_words::{Layout, Operand};
use std::marker::Model;

/// What a thread does at a line. Registers are 0 for `a` to 7 for `h`.
#[derive(Clone, Copy, Debug, PartialEq, Eq)]
pub enum Command {
    /// Makes an object of `len` fields, at most 30, and puts it in `dst`.
    New {
        dst: u32,
        len: u32,
    },
    /// Reads a field, at most 29, of the object in `obj` into `dst`.
    Get {
        dst: u32,
        obj: u32,
        field: u32,
    },
    /// Writes a field, at most 29, of the object in `obj`.
    Put {
        obj: u32,
        field: u32,
        what: Operand,
    },
    /// Writes `value` where the field holds `expected`, and else puts what it holds in `dst`.
    Cas {
        dst: u32,
        obj: u32,
        field: u32,
        expected: Operand,
        value: Operand,
    },
    /// Copies `src` into `dst`.
    Copy {
        dst: u32,
        src: u32,
    },
    /// Sets `dst` to 0.
    Drop {
        dst: u32,
    },
    /// Does nothing but the poll that comes before each command.
    Poll,
}

/// A command of a thread. Threads count from 1.
#[derive(Clone, Copy, Debug, PartialEq, Eq)]
pub struct Line {
    pub thread: u32,
    pub command: Command,
}

/// A heap, the number of its collector's cycles beside the threads, and the commands of the threads.
#[derive(Debug, Drop)]
pub struct Script {
    pub layout: Layout,
    pub cycles: u32,
    pub lines: Vec<Line>,
}

impl Model for Script {
    ghost use Rattle.heap_script.specs.Scripts.{Reading};

    ghost Value = { Reading };

    ghost view = { λ s. record { layout = s.layout; cycles = s.cycles; lines = s.lines.items } };
}
