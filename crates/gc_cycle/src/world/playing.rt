//! The turns of the parties.

ghost use Rattle.std.specs.Prelude.{◌≡◌, ◌≢◌, ◌<◌, ◌≤◌, ◌^◌, ◌↔◌, IsTrue, true, false, length, IsOk, IfErr};
ghost use Rattle.std.specs.List.{All};
ghost use Rattle.call_steps.specs.declared.step.Step.TheVariants.{Ended as StepEnded};
ghost use Rattle.barriers.specs.declared.pass.PassMachine.TheVariants.{Retired};
ghost use Rattle.gc_cycle.specs.Lawful.{Lawful};
ghost use Rattle.gc_cycle.specs.Worlds.{IsParty, next_of, turn_of, turn_said, can_step as can_step_in, is_ended as is_ended_of, rest_said, all_retired as all_retired_in, is_collector as is_collector_in, played, steps_in};
ghost use Rattle.lawful_records.specs.HeaderChanges.{HeadersChange};
ghost use Rattle.gc_cycle.specs.Runs.{Moves, IsTo, ready_of, is_over, run_of};

use super::{Turn, World};
use crate::schedule::{Chooser, Schedule, StepsSpent};
use crate::stepping::Steps;
use arrayvec::ArrayVec;
use barriers::{Copier, PassMachine};
use call_steps::{Machine, Step};

/// Whether a machine that asks for this takes no step.
fn is_ended(step: Step) -> bool
    ensures { result ≡ is_ended_of step }
{
    matches!(step, Step::Ended)
}

fn is_retired<R, W, E>(machine: &PassMachine<R, W, E>) -> bool
    ensures { IsTrue result ↔ (machine.now ≡ Retired) }
{
    matches!(machine, PassMachine::Retired)
}

impl<P: Copier> World<P>
where
    P::Read: Copy,
    P::Write: Copy,
    P::Exchange: Copy,
    P::Move: Copy,
{
    /// Whether the party is the collector.
    fn is_collector(&self, party: u32) -> bool
        ensures { result ≡ is_collector_in P.kit ⟦<P as Steps>⟧.by self.now party }
    {
        party > self.layout.passes()
    }

    /// Whether every thread has ended.
    fn all_retired(&self) -> bool
        ensures { result ≡ all_retired_in P.kit ⟦<P as Steps>⟧.by self.now }
    {
        self.passes.iter().all(|pass| is_ended(pass.machine.ask()))
    }

    /// What the turn of a party says of it where it takes no step.
    fn rest_said(&self, party: u32) -> Turn
        ensures { result ≡ rest_said P.kit ⟦<P as Steps>⟧.by self.now party }
    {
        if self.is_collector(party) && !self.all_retired() {
            Turn::Idle
        } else {
            Turn::Ended
        }
    }

    /// The step that the party's next turn takes, and `Ended` where the party waits or has ended.
    pub fn next(&self, party: u32) -> Step
        ensures { result ≡ next_of P.kit ⟦<P as Steps>⟧.by self.now party }
    {
        if self.is_collector(party) {
            return self.collector.ask();
        }
        match self.passes.get(party.saturating_sub(1) as usize) {
            Some(pass) => pass.machine.ask(),
            None => Step::Ended,
        }
    }

    /// The party takes its next step, which is this one.
    fn step(&mut self, party: u32, step: Step)
        requires lawful { Lawful P.kit self.old }
        requires party { IsParty self.old.layout party }
        requires next { step ≡ next_of P.kit ⟦<P as Steps>⟧.by self.old party }
        requires goes_on { step ≢ StepEnded }
        ensures { self.new ≡ turn_of P.kit ⟦<P as Steps>⟧.by self.old party }
    {
        if self.is_collector(party) {
            self.collect(step);
        } else {
            self.take(party, step);
        }
    }

    /// Takes the party's next step, and what follows from it without a further step. Takes no memory. The collector
    /// waits where its cycles are done and a thread has not ended.
    pub fn turn(&mut self, party: u32) -> Turn
        requires lawful { Lawful P.kit self.old }
        requires party { IsParty self.old.layout party }
        ensures turn { self.new ≡ turn_of P.kit ⟦<P as Steps>⟧.by self.old party }
        ensures said { result ≡ turn_said P.kit ⟦<P as Steps>⟧.by self.old party }
        ensures lawful { Lawful P.kit self.new }
        ensures layout { self.new.layout ≡ self.old.layout }
        ensures moves { Moves P.kit ⟦<P as Steps>⟧.by self.old party self.new }
        ensures headers { HeadersChange P.KIND self.old.layout self.old.words self.new.words }
    {
        let step = self.next(party);
        if is_ended(step) {
            return self.rest_said(party);
        }
        self.step(party, step);
        Turn::Took(step)
    }

    /// Turns in this order; how many took a step.
    pub fn play(&mut self, parties: &[u32]) -> u32
        requires lawful { Lawful P.kit self.old }
        requires parties { All (IsParty self.old.layout) parties.now }
        requires few { length parties.now < 2 ^ 31 }
        ensures turns { self.new ≡ played P.kit ⟦<P as Steps>⟧.by self.old parties.now }
        ensures count { result ≡ steps_in P.kit ⟦<P as Steps>⟧.by self.old parties.now }
        ensures lawful { Lawful P.kit self.new }
        ensures layout { self.new.layout ≡ self.old.layout }
    {
        let mut steps = 0;
        for party in parties {
            if matches!(self.turn(*party), Turn::Took(_)) {
                steps += 1;
            }
        }
        steps
    }

    /// Whether the party's next step is this one.
    fn is_at(&self, party: u32, step: Step) -> bool
        ensures { IsTrue result ↔ (next_of P.kit ⟦<P as Steps>⟧.by self.now party ≡ step) }
    {
        self.next(party) == step
    }

    /// Takes the party's turns until its next step is `step`, at most `limit` turns. Whether it is.
    pub fn to(&mut self, party: u32, step: Step, limit: u32) -> bool
        requires lawful { Lawful P.kit self.old }
        requires party { IsParty self.old.layout party }
        ensures to { IsTo P.kit ⟦<P as Steps>⟧.by self.old party step limit self.new result }
        ensures lawful { Lawful P.kit self.new }
        ensures layout { self.new.layout ≡ self.old.layout }
    {
        for _ in 0..limit {
            if self.is_at(party, step) {
                return true;
            }
            self.turn(party);
        }
        self.is_at(party, step)
    }

    /// Whether the party's turn takes a step. A thread is not asked for it: it takes one until it has retired.
    fn can_step(&self, party: u32) -> bool
        requires lawful { Lawful P.kit self.now }
        requires party { IsParty self.now.layout party }
        ensures { result ≡ can_step_in P.kit ⟦<P as Steps>⟧.by self.now party }
    {
        if self.is_collector(party) {
            return !is_ended(self.collector.ask());
        }
        !is_retired(&self.passes[party as usize - 1].machine)
    }

    /// The parties that can step, in rising order.
    fn ready(&self) -> ArrayVec<u32, 9>
        requires { Lawful P.kit self.now }
        ensures { result.items ≡ ready_of P.kit ⟦<P as Steps>⟧.by self.now }
    {
        let mut ready = ArrayVec::new();
        for index in 0..self.layout.passes() + 1 {
            let party = index + 1;
            if self.can_step(party) {
                ready.push(party);
            }
        }
        ready
    }

    /// Takes steps of the parties that the schedule names until all have ended, at most so many.
    pub fn run(&mut self, schedule: Schedule, steps: u64) -> Result<(), StepsSpent>
        requires lawful { Lawful P.kit self.old }
        ensures taken { self.new ≡ run_of P.kit ⟦<P as Steps>⟧.by schedule steps self.old }
        ensures ended { IsOk result ↔ (is_over P.kit ⟦<P as Steps>⟧.by self.new ≡ true) }
        ensures spent { IfErr result (λ e. (e ≡ record { n = steps })
            × (is_over P.kit ⟦<P as Steps>⟧.by self.new ≡ false)) }
        ensures lawful { Lawful P.kit self.new }
        ensures layout { self.new.layout ≡ self.old.layout }
        ensures commands { self.new.commands ≡ self.old.commands }
    {
        let mut chooser = Chooser::new(schedule);
        for _ in 0..steps {
            let ready = self.ready();
            if ready.is_empty() {
                return Ok(());
            }
            let party = chooser.choose(ready.as_slice());
            self.turn(party);
        }
        if self.ready().is_empty() {
            Ok(())
        } else {
            Err(StepsSpent { n: steps })
        }
    }
}
