//! The world of a script at its start.

ghost use Rattle.std.specs.Prelude.{◌≡◌, ◌≤◌, length, IfOk};
ghost use Rattle.heap_words.specs.Layouts.{IsLayout, IsPass};
ghost use Rattle.heap_script.specs.Scripts.{Fits};
ghost use Rattle.heap_script.specs.Commands.{commands_at};
ghost use Rattle.gc_cycle.specs.Lawful.{Lawful};
ghost use Rattle.gc_cycle.specs.Worlds.{opening_words as opening_words_of, opening_registers as opening_registers_of, fresh_pass as fresh_pass_of, opening_pass as opening_pass_of, opening_passes as opening_passes_of, opening_state};

use super::World;
use super::marking::{NOWHERE, unmarked};
use crate::job_log::JobLog;
use barriers::{Copier, PassMachine, PassRecord, Request, Room, start};
use call_steps::{OutOfMemory, PlainWords, Step};
use cycle_journal::CANDIDATES;
use handshakes::PassView;
use heap_script::{Commands, Script, Told};
use heap_words::{FieldWord, Layout};
use lawful_records::{Awaited, COMMON, Stage};
use space_reclaim::RegionWord;
use std::alloc::Global;

/// All words are 0, but region 0 is Filled and has the object that is there from the start.
fn opening_words(alloc: Global, layout: &Layout) -> Result<PlainWords, OutOfMemory>
    ensures { IfOk result (λ words. words ≡ opening_words_of layout.now) }
{
    let mut words = PlainWords::zeros(alloc, layout.words())?;
    words.apply(Step::Store {
        at: layout.region_at(0),
        put: RegionWord::Filled.pack(),
    });
    words.apply(Step::Store {
        at: layout.first_word(0),
        put: COMMON.pack(),
    });
    Ok(words)
}

/// Register `h` leads to that object.
fn opening_registers(layout: &Layout) -> [FieldWord; 8]
    requires { IsLayout layout.now }
    ensures { result ≡ opening_registers_of layout.now }
{
    let mut registers = [FieldWord::Num(0); 8];
    registers[7] = FieldWord::Link {
        birth: COMMON.birth,
        at: layout.first_word(0),
    };
    registers
}

/// A pass before its first machine begins.
fn fresh_pass<R, W, E>(layout: &Layout, party: u32) -> PassRecord<R, W, E>
    requires { IsLayout layout.now }
    ensures { result ≡ fresh_pass_of layout.now party }
{
    PassRecord {
        view: PassView {
            pass: party,
            acked: 0,
            mark: 0,
        },
        registers: opening_registers(layout),
        machine: PassMachine::Idle,
        room: Room {
            region: None,
            used: 0,
            last: None,
        },
        made: 0,
        seen: 0,
    }
}

/// A pass before its first command, or before it retires.
fn opening_pass<P: Copier>(
    layout: &Layout,
    commands: &Commands,
    party: u32,
) -> PassRecord<P::Read, P::Write, P::Exchange>
where
    P::Read: Copy,
    P::Write: Copy,
    P::Exchange: Copy,
    requires layout { IsLayout layout.now }
    requires pass { IsPass layout.now party }
    requires commands { party ≤ length commands.now }
    ensures { result ≡ opening_pass_of P.kit layout.now (commands_at commands.now party) party }
{
    let pass = fresh_pass(layout, party);
    let request = if commands.count(party) > 0 {
        Request::Poll
    } else {
        Request::Retire
    };
    start::<P>(layout, pass, request).unwrap_or(pass)
}

/// The passes of all threads.
fn opening_passes<P: Copier>(
    alloc: Global,
    layout: &Layout,
    commands: &Commands,
) -> Result<Vec<PassRecord<P::Read, P::Write, P::Exchange>>, OutOfMemory>
where
    P::Read: Copy,
    P::Write: Copy,
    P::Exchange: Copy,
    requires { length commands.now ≡ layout.now.passes }
    ensures { IfOk result (λ passes. passes.items ≡ opening_passes_of P.kit layout.now 1 commands.now) }
{
    let mut passes = Vec::new(alloc);
    for thread in 0..layout.passes() {
        passes.push(opening_pass::<P>(layout, commands, thread + 1))?;
    }
    Ok(passes)
}

fn layout_of(script: &Script) -> &Layout
    ensures { result.now ≡ script.now.layout }
{
    &script.layout
}

impl<P: Copier> World<P>
where
    P::Read: Copy,
    P::Write: Copy,
    P::Exchange: Copy,
    P::Move: Copy,
{
    /// What a world is made of at its start.
    fn at_start(alloc: Global, script: &Script, salt: u64) -> Result<World<P>, OutOfMemory>
        requires { Fits script.now }
        ensures { IfOk result (λ w. w ≡ opening_state P.kit script.now salt) }
    {
        let layout = *layout_of(script);
        let words = opening_words(alloc, &layout)?;
        let commands = Commands::of_lines(alloc, &script.lines, layout.passes())?;
        let passes = opening_passes::<P>(alloc, &layout, &commands)?;
        let jobs = JobLog::new(alloc, &layout, P::KIND)?;
        let collector = Stage::first::<P>(&layout, jobs.plan(), script.cycles, salt);
        let marks = unmarked(alloc, script.cycles)?;
        let told = Told::opening(alloc, &commands)?;
        Ok(World {
            layout,
            commands,
            words,
            passes,
            collector,
            jobs,
            awaited: Awaited::NONE,
            finds: [NOWHERE; CANDIDATES],
            marks,
            told,
        })
    }

    /// The world of a script at its start. All memory is taken here. The salt draws the marks of the cycles.
    pub fn new(alloc: Global, script: &Script, salt: u64) -> Result<World<P>, OutOfMemory>
        requires { Fits script.now }
        ensures opening { IfOk result (λ w. w ≡ opening_state P.kit script.now salt) }
        ensures lawful { IfOk result (λ w. Lawful P.kit w) }
    {
        let world = World::at_start(alloc, script, salt)?;
        Ok(world)
    }
}
