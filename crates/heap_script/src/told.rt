//! What there is to tell of a script that is played.

ghost use Rattle.std.specs.Prelude.{◌≡◌, ◌+◌, ◌<◌, ◌≤◌, ◌^◌, [], ◌∷◌, ◌++◌, length, map, IfOk, OnOk};
ghost use Rattle.std.specs.List.{range_with_len};
ghost use Rattle.heap_script.specs.AnswerLists.{lists_of, rooms_of};
ghost use Rattle.heap_script.specs.Commands.{total};
ghost use Rattle.heap_history.specs.Logs.{changes_of};
ghost use Rattle.heap_script.specs.TellingSteps.{answers_at, room_at, with_answer, untried, agains_of, with_refusal, opening_telling};

use crate::answer::{Answer, Answers};
use crate::commands::Commands;
use heap_history::{Ended, OutOfMemory};
use std::alloc::Global;
use std::marker::Model;

/// How often the tries of one command were refused. Threads and the commands of a thread count from 1; a count
/// stays at its last value, 2^64 - 1.
#[derive(Clone, Copy, Debug, PartialEq, Eq)]
pub struct Again {
    pub thread: u32,
    pub number: u32,
    pub raced: u64,
    pub busy: u64,
}

/// Why a try was refused, so that its command is tried again.
#[derive(Clone, Copy, Debug, PartialEq, Eq)]
pub enum Refusal {
    /// Others changed the field meanwhile.
    Raced,
    /// The value can not be written in this phase.
    Busy,
}

/// The answers of each thread, the calls that have ended, and the refused tries of each command. There is room
/// for all answers and calls from the start, so that telling takes no memory.
#[derive(Drop)]
pub struct Told {
    answers: Answers,
    log: Vec<Ended>,
    agains: Vec<Again>,
    changes: u32,
}

impl Model for Told {
    ghost use Rattle.std.specs.Prelude.{◌≡◌, ◌<◌, ◌^◌, length, vec_capacity};
    ghost use Rattle.heap_script.specs.AnswerLists.{lists_of, rooms_of};
    ghost use Rattle.heap_script.specs.Tellings.{Telling};
    ghost use Rattle.heap_history.specs.Logs.{changes_of};

    ghost Value = { Telling };

    ghost view = { λ t. record {
      answers = lists_of t.answers;
      log = t.log.items;
      agains = t.agains.items;
      rooms = rooms_of t.answers;
      log_room = vec_capacity t.log;
    } };

    ghost invariant = { λ t. (t.changes ≡ length (changes_of t.log.items)) × (vec_capacity t.log < 2 ^ 32) };
}

/// No answers, and room for one to each command.
fn room_for_answers(alloc: Global, commands: &Commands) -> Result<Answers, OutOfMemory>
    ensures lists { IfOk result (λ answers. lists_of answers ≡ map (λ list. []) commands.now) }
    ensures rooms { IfOk result (λ answers. rooms_of answers ≡ map length commands.now) }
{
    let mut lists = Vec::new(alloc);
    for thread in 0..commands.threads() {
        let list = Vec::with_capacity(alloc, commands.count(thread + 1))?;
        lists.push(list)?;
    }
    Ok(Answers { lists })
}

/// No refused tries of the commands of a thread, which has `count` of them.
fn push_untried(agains: &mut Vec<Again>, thread: u32, count: u32) -> Result<(), OutOfMemory>
    ensures { OnOk result (agains.new.items
        ≡ agains.old.items ++ map (λ number. untried thread number) (range_with_len 1 count)) }
{
    for number in 0..count {
        agains.push(Again {
            thread,
            number: number + 1,
            raced: 0,
            busy: 0,
        })?;
    }
    Ok(())
}

/// No refused tries of any command.
fn all_untried(alloc: Global, commands: &Commands) -> Result<Vec<Again>, OutOfMemory>
    requires { total commands.now < 2 ^ 32 }
    ensures { IfOk result (λ agains. agains.items ≡ agains_of commands.now) }
{
    let mut agains = Vec::new(alloc);
    for thread in 0..commands.threads() {
        let count = commands.count(thread + 1) as u32;
        push_untried(&mut agains, thread + 1, count)?;
    }
    Ok(agains)
}

impl Told {
    /// Nothing is told yet: there is room for an answer to each command, and a count of refused tries for each.
    pub fn opening(alloc: Global, commands: &Commands) -> Result<Told, OutOfMemory>
        requires { total commands.now < 2 ^ 32 }
        ensures { IfOk result (λ told. told ≡ opening_telling commands.now) }
    {
        let answers = room_for_answers(alloc, commands)?;
        let log = Vec::with_capacity(alloc, commands.total())?;
        let agains = all_untried(alloc, commands)?;
        Ok(Told {
            answers,
            log,
            agains,
            changes: 0,
        })
    }

    /// The answers of each thread so far.
    pub fn answers(&self) -> &Answers
        ensures { lists_of result.now ≡ self.now.answers }
    {
        &self.answers
    }

    /// How many commands of a thread are answered.
    pub fn answered(&self, thread: u32) -> usize
        requires least { 1 ≤ thread }
        requires most { thread ≤ length self.now.answers }
        ensures { result ≡ length (answers_at self.now.answers thread) }
    {
        self.answers.lists[thread as usize - 1].len()
    }

    /// The calls that have ended, in the order in which they ended.
    pub fn log(&self) -> &[Ended]
        ensures { result.now ≡ self.now.log }
    {
        self.log.as_slice()
    }

    /// The refused tries of each command, thread 1's first.
    pub fn agains(&self) -> &[Again]
        ensures { result.now ≡ self.now.agains }
    {
        self.agains.as_slice()
    }

    /// How many of the ended calls are changes.
    pub fn changes(&self) -> u32
        ensures { result ≡ length (changes_of self.now.log) }
    {
        self.changes
    }

    /// A command of a thread was answered.
    pub fn answer(&mut self, thread: u32, answer: Answer)
        requires least { 1 ≤ thread }
        requires most { thread ≤ length self.old.answers }
        requires room { length (answers_at self.old.answers thread) < room_at self.old.rooms thread }
        ensures { self.new ≡ record self.old { answers = with_answer self.old.answers thread answer } }
    {
        self.answers.lists[thread as usize - 1].push_reserved(answer);
    }

    /// A call of the heap ended.
    pub fn enter(&mut self, ended: Ended)
        requires { length self.old.log < self.old.log_room }
        ensures { self.new ≡ record self.old { log = self.old.log ++ ended ∷ [] } }
    {
        if ended.reply.is_change() {
            self.changes += 1;
        }
        self.log.push_reserved(ended);
    }

    /// One more try of a command was refused so.
    pub fn count(&mut self, index: usize, why: Refusal)
        requires { index < length self.old.agains }
        ensures { self.new ≡ record self.old { agains = with_refusal self.old.agains index why } }
    {
        let again = &mut self.agains[index];
        match why {
            Refusal::Raced => again.raced = again.raced.saturating_add(1),
            Refusal::Busy => again.busy = again.busy.saturating_add(1),
        }
    }
}
