//! Some passes over any copier and the collector, and the words on which they step.

ghost use Rattle.std.specs.Prelude.{◌≡◌, ◌≢◌, ◌≤◌, length};
ghost use Rattle.call_steps.specs.declared.step.Step.TheVariants.{Ended as StepEnded};
ghost use Rattle.call_steps.specs.Steps.{IsInside, place_of as place_of_step};
ghost use Rattle.barriers.specs.Records.{IsReady, Fits, started};
ghost use Rattle.gc_cycle.specs.Worlds.{CanTell, CanConclude, CanSettle, CanTake, IsThere, PutFits, SequelFits, command_at, has_word_at as has_word_at_address, seal_of as seal_of_address, seen_with as seen_with_of, with_put as with_put_of, in_front as in_front_of, face_of, put_pass as put_pass_in, next_request as next_request_in, begun_at, access_begun, answered_with, followed_at, concluded_at, settled_at, asks_at, stepped as stepped_in, taken as taken_in, collector_asks, collected};

mod marking;
mod opening;
mod playing;
mod reporting;
mod showing;

use crate::job_log::{JobLog, SealedAt};
use crate::sequel::{Face, InRegister, Sequel, what_follows};
use crate::stepping::Steps;
use crate::world::marking::{finds_after, put_mark, search_ended};
use barriers::{Copier, Front, MachineEnd, PassRecord, Request, Watched, end_of, start, with_end};
use call_steps::{Machine, PlainWords, Step};
use cycle_journal::{CANDIDATES, MarkFound, MarkRow};
use heap_history::Ended;
use heap_script::{Answer, Command, Commands, Refusal, Told};
use heap_words::Layout;
use lawful_records::{Awaited, CollectorMachine, feed_collector, move_end_of};
use std::marker::Model;

/// What a party's turn was.
#[derive(Clone, Copy, Debug, PartialEq, Eq)]
pub enum Turn {
    /// The party took this step.
    Took(Step),
    /// The party waits for others.
    Idle,
    /// The party has ended.
    Ended,
}

/// The passes of a script, which play its commands, the collector, the words on which they step, and what there is
/// to tell. The parties are the threads, which count from 1, and after them the collector.
#[derive(Drop)]
pub struct World<P: Copier> {
    layout: Layout,
    commands: Commands,
    words: PlainWords,
    passes: Vec<PassRecord<P::Read, P::Write, P::Exchange>>,
    collector: CollectorMachine<P::Move>,
    jobs: JobLog,
    awaited: Awaited,
    finds: [MarkFound; CANDIDATES],
    marks: Vec<MarkRow>,
    told: Told,
}

impl<P: Copier> Model for World<P> {
    ghost use Rattle.gc_cycle.specs.Worlds.{State};

    ghost Value = { State P.Read P.Write P.Exchange P.Move };

    ghost view = { λ w. record { layout = w.layout; commands = w.commands; words = w.words; passes = w.passes.items; collector = w.collector; plan = (let jobs = w.jobs in jobs.plan); awaited = w.awaited; sealed = (let jobs = w.jobs in jobs.sealed); moved = (let jobs = w.jobs in jobs.moved); finds = w.finds; marks = w.marks.items; told = w.told } };
}

/// The address of the word on which a step is; 0 for `Ended`.
fn place_of(step: Step) -> u32
    ensures { result ≡ place_of_step step }
{
    match step {
        Step::Load { at }
        | Step::Store { at, .. }
        | Step::Exchange { at, .. }
        | Step::Add { at, .. }
        | Step::Sub { at, .. } => at,
        Step::Ended => 0,
    }
}

/// Whether the object has a field at this address.
fn has_word_at(at: u32, object: &SealedAt) -> bool
    ensures { result ≡ has_word_at_address at object.now }
{
    object.at < at && u64::from(at) < u64::from(object.at) + 1 + u64::from(object.len)
}

/// How many changes there were at the seal of the object that has a field at this address, if it is sealed.
fn seal_of(sealed: &[SealedAt], at: u32) -> Option<u32>
    ensures { result ≡ seal_of_address sealed.now at }
{
    sealed
        .iter()
        .find(|object| has_word_at(at, object))
        .map(|object| object.changes)
}

/// How many changes a pass has seen after a step with this front on the word at this address, where these objects are
/// sealed.
fn seen_with(front: Front, sealed: &[SealedAt], at: u32, changes: u32, seen: u32) -> u32
    ensures { result ≡ seen_with_of front (seal_of_address sealed.now at) changes seen }
{
    match front {
        Front::Stays => seen,
        Front::Now => changes,
        Front::SealedOrNow => seal_of(sealed, at).unwrap_or(changes),
    }
}

/// What a script reads of a record.
fn face<R: Copy, W: Copy, E: Copy>(pass: PassRecord<R, W, E>) -> Face
    ensures { result ≡ face_of pass }
{
    let registers = pass.registers;
    Face {
        pass: pass.view.pass,
        registers,
        seen: pass.seen,
    }
}

/// The record with a word in a register, if there is one.
fn with_put<R: Copy, W: Copy, E: Copy>(
    pass: PassRecord<R, W, E>,
    put: Option<InRegister>,
) -> PassRecord<R, W, E>
    requires { PutFits put }
    ensures { result ≡ with_put_of pass put }
{
    let Some(put) = put else {
        return pass;
    };
    let mut registers = pass.registers;
    registers[put.register as usize] = put.word;
    PassRecord { registers, ..pass }
}

/// The record that has seen what an ended call has.
fn in_front<R: Copy, W: Copy, E: Copy>(
    pass: PassRecord<R, W, E>,
    ended: Option<Ended>,
) -> PassRecord<R, W, E>
    ensures { result ≡ in_front_of pass ended }
{
    match ended {
        None => pass,
        Some(ended) => PassRecord {
            seen: ended.front,
            ..pass
        },
    }
}

impl<P: Copier> World<P>
where
    P::Read: Copy,
    P::Write: Copy,
    P::Exchange: Copy,
    P::Move: Copy,
{
    fn put_pass(&mut self, party: u32, pass: PassRecord<P::Read, P::Write, P::Exchange>)
        requires party { (1 ≤ party) × (party ≤ length self.old.passes) }
        ensures { self.new ≡ put_pass_in self.old party pass }
    {
        self.passes[party as usize - 1] = pass;
    }

    /// The command that a party is at, if one is left.
    fn command(&self, party: u32) -> Option<Command>
        requires there { IsThere self.now party }
        ensures { result ≡ command_at self.now party }
    {
        self.commands.get(party, self.told.answered(party))
    }

    /// What a thread does after so many of its commands: the poll before the next one, or the retirement after the
    /// last.
    fn next_request(&self, party: u32, count: usize) -> Request
        requires there { IsThere self.now party }
        ensures request { result ≡ next_request_in self.now party count }
        ensures fits { Fits result }
    {
        if count < self.commands.count(party) {
            Request::Poll
        } else {
            Request::Retire
        }
    }

    /// The pass begins the machine that does what is asked, if the register leads to an object.
    fn begin(
        &mut self,
        party: u32,
        pass: PassRecord<P::Read, P::Write, P::Exchange>,
        request: Request,
    )
        requires party { (1 ≤ party) × (party ≤ length self.old.passes) }
        requires ready { IsReady self.old.layout pass }
        requires fits { Fits request }
        ensures { self.new ≡ begun_at P.kit self.old party pass request }
    {
        match start::<P>(&self.layout, pass, request) {
            Some(next) => self.put_pass(party, next),
            None => self.put_pass(party, pass),
        }
    }

    /// The command is answered, and the pass goes on to its next one.
    fn answer(
        &mut self,
        party: u32,
        pass: PassRecord<P::Read, P::Write, P::Exchange>,
        answer: Answer,
        ended: Option<Ended>,
    )
        requires tell { CanTell self.old party }
        requires ready { IsReady self.old.layout pass }
        ensures { self.new ≡ answered_with P.kit self.old party pass answer ended }
    {
        let request = self.next_request(party, self.told.answered(party) + 1);
        if let Some(ended) = ended {
            self.told.enter(ended);
        }
        self.told.answer(party, answer);
        self.begin(party, pass, request);
    }

    /// A command begins, or is answered as one that leads to no object.
    fn begin_access(
        &mut self,
        party: u32,
        pass: PassRecord<P::Read, P::Write, P::Exchange>,
        request: Request,
    )
        requires tell { CanTell self.old party }
        requires ready { IsReady self.old.layout pass }
        requires fits { Fits request }
        ensures { self.new ≡ access_begun P.kit self.old party pass (started P.kit self.old.layout pass request) }
    {
        match start::<P>(&self.layout, pass, request) {
            Some(next) => self.put_pass(party, next),
            None => self.answer(party, pass, Answer::NotLink, None),
        }
    }

    /// One more try of the command was refused, and the pass polls before the next one.
    fn retry(&mut self, party: u32, pass: PassRecord<P::Read, P::Write, P::Exchange>, why: Refusal)
        requires tell { CanTell self.old party }
        requires ready { IsReady self.old.layout pass }
        ensures { self.new ≡ followed_at P.kit self.old party pass (Sequel.Retries why) }
    {
        let place = self.commands.before(party) + self.told.answered(party);
        self.told.count(place, why);
        self.begin(party, pass, Request::Poll);
    }

    fn follow(
        &mut self,
        party: u32,
        pass: PassRecord<P::Read, P::Write, P::Exchange>,
        sequel: Sequel,
    )
        requires tell { CanTell self.old party }
        requires ready { IsReady self.old.layout pass }
        requires fits { SequelFits sequel }
        ensures { self.new ≡ followed_at P.kit self.old party pass sequel }
    {
        match sequel {
            Sequel::Nothing => self.put_pass(party, pass),
            Sequel::Starts(request) => self.begin_access(party, pass, request),
            Sequel::Answered { put, answer, ended } => {
                self.answer(party, in_front(with_put(pass, put), ended), answer, ended)
            }
            Sequel::Retries(why) => self.retry(party, pass, why),
        }
    }

    /// The machine of the party has ended so.
    fn conclude(&mut self, party: u32, end: MachineEnd)
        requires { CanConclude self.old party end }
        ensures { self.new ≡ concluded_at P.kit self.old party end }
    {
        let pass = with_end(self.passes[party as usize - 1], end);
        match self.command(party) {
            None => self.put_pass(party, pass),
            Some(command) => {
                let sequel = what_follows(self.told.changes(), command, face(pass), end);
                self.follow(party, pass, sequel);
            }
        }
    }

    /// What follows from the party's step without a further step. Its record is copied only where its machine has
    /// ended.
    fn settle(&mut self, party: u32)
        requires { CanSettle P.kit self.old party }
        ensures { self.new ≡ settled_at P.kit self.old party }
    {
        if let Some(end) = end_of::<P>(&self.passes[party as usize - 1].machine) {
            self.conclude(party, end);
        }
    }

    /// The party's machine takes the step that it asks for, in place.
    fn step_pass(&mut self, party: u32, step: Step)
        requires party { (1 ≤ party) × (party ≤ length self.old.passes) }
        requires asked { step ≡ asks_at P.kit ⟦<P as Steps>⟧.by self.old party }
        requires inside { IsInside (length self.old.words) step }
        requires goes_on { step ≢ StepEnded }
        ensures { self.new ≡ stepped_in P.kit ⟦<P as Steps>⟧.by self.old party }
    {
        let changes = self.told.changes();
        let found = self.words.apply(step);
        let pass = &mut self.passes[party as usize - 1];
        let front = pass.machine.front(found);
        pass.seen = seen_with(
            front,
            self.jobs.sealed(),
            place_of(step),
            changes,
            pass.seen,
        );
        pass.machine.feed(found);
    }

    /// The party takes the step that its machine asks for, and what follows from it.
    fn take(&mut self, party: u32, step: Step)
        requires can { CanTake P.kit ⟦<P as Steps>⟧.by self.old party }
        requires party { (1 ≤ party) × (party ≤ length self.old.passes) }
        requires asked { step ≡ asks_at P.kit ⟦<P as Steps>⟧.by self.old party }
        ensures { self.new ≡ taken_in P.kit ⟦<P as Steps>⟧.by self.old party }
    {
        self.step_pass(party, step);
        self.settle(party);
    }

    /// The collector takes the step that it asks for.
    fn collect(&mut self, step: Step)
        requires asked { step ≡ collector_asks P.kit ⟦<P as Steps>⟧.by self.old }
        requires inside { IsInside (length self.old.words) step }
        requires goes_on { step ≢ StepEnded }
        requires seals { length (let next = collected P.kit ⟦<P as Steps>⟧.by self.old in next.sealed) ≤ (let plan = self.old.plan in length plan.jobs) }
        requires ends { length (let next = collected P.kit ⟦<P as Steps>⟧.by self.old in next.moved) ≤ (let plan = self.old.plan in length plan.jobs) }
        ensures { self.new ≡ collected P.kit ⟦<P as Steps>⟧.by self.old }
    {
        let changes = self.told.changes();
        let before = self.collector;
        let found = self.words.apply(step);
        self.jobs.seal(before.sealed(step, found), changes);
        self.jobs.end(move_end_of::<P>(&before, found));
        let ended = search_ended(&before, found);
        self.finds = finds_after(&ended, self.finds);
        put_mark(&mut self.marks, &ended, self.finds);
        feed_collector::<P>(&mut self.collector, self.jobs.plan(), found);
        self.awaited = self.awaited.behind(&before, &self.collector, changes);
    }
}
