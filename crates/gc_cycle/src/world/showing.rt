//! What a world shows.

ghost use Rattle.std.specs.Prelude.{◌≡◌, ◌≢◌, ◌≤◌, ◌⊎◌, ◌↔◌, IfOk};
ghost use Rattle.heap_words.specs.Layouts.{IsPass, ack_at};
ghost use Rattle.call_steps.specs.StepLaws.{reading};
ghost use Rattle.handshakes.specs.PhaseWords.{retired_word};
ghost use Rattle.barriers.specs.declared.pass.PassMachine.TheVariants.{Retired};
ghost use Rattle.lawful_records.specs.Collectors.{announced_of, before_of, passed_of};
ghost use Rattle.heap_script.specs.AnswerLists.{lists_of};
ghost use Rattle.gc_cycle.specs.Worlds.{pass_at};
ghost use Rattle.gc_cycle.specs.Lawful.{Lawful};
ghost use Rattle.gc_cycle.specs.Shows.{Shows};

use super::World;
use crate::stepping::Steps;
use barriers::Copier;
use call_steps::{OutOfMemory, PlainWords};
use heap_history::{Entry, arrange};
use heap_script::{Again, Answers};
use heap_words::Layout;
use lawful_records::Awaited;
use std::alloc::Global;

impl<P: Copier> World<P>
where
    P::Read: Copy,
    P::Write: Copy,
    P::Exchange: Copy,
    P::Move: Copy,
{
    /// The history: each change in the order of its deciding step, each look after the last change of its front, and
    /// looks with one front in the order in which they ended. Where all parties have ended, the answers are allowed for
    /// its changes.
    pub fn history(&self, alloc: Global) -> Result<Vec<Entry>, OutOfMemory>
        requires { Lawful P.kit self.now }
        ensures { IfOk result (λ entries. Shows P.kit ⟦<P as Steps>⟧.by self.now entries.items) }
    {
        arrange(alloc, self.told.log())
    }

    /// The answers of each thread.
    pub fn answers(&self) -> &Answers
        ensures { lists_of result.now ≡ self.now.told.answers }
    {
        self.told.answers()
    }

    /// What a thread has acknowledged: Retired exactly where it has ended, and otherwise the announced phase word or the
    /// one announced before it. It is the announced one where the collector's await has passed the thread.
    pub fn acknowledged(&self, thread: u32) -> u64
        requires lawful { Lawful P.kit self.now }
        requires thread { IsPass self.now.layout thread }
        ensures word { result ≡ reading self.now.words (ack_at thread) }
        ensures retired { (result ≡ retired_word) ↔ ((pass_at self.now thread).machine ≡ Retired) }
        ensures running { result ≢ retired_word
            → (result ≡ announced_of self.now.collector) ⊎ (result ≡ before_of self.now.collector) }
        ensures passed { result ≢ retired_word → thread ≤ passed_of self.now.collector
            → result ≡ announced_of self.now.collector }
    {
        self.passes[thread as usize - 1].view.acked
    }

    /// How many changes there were when the await of each announcement of the running cycle ended.
    pub fn awaited(&self) -> Awaited
        ensures { result ≡ self.now.awaited }
    {
        self.awaited
    }

    /// The refused tries of each command, thread 1's first.
    pub fn agains(&self) -> &[Again]
        ensures { result.now ≡ self.now.told.agains }
    {
        self.told.agains()
    }

    pub fn words(&self) -> &PlainWords
        ensures { result.now ≡ self.now.words }
    {
        &self.words
    }

    pub fn layout(&self) -> &Layout
        ensures { result.now ≡ self.now.layout }
    {
        &self.layout
    }
}
