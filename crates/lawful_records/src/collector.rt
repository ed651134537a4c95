//! The collector plays its cycles: it announces one phase after another, awaits after each announcement the answer
//! of every pass, seeks a mark where the copier needs one, and moves the jobs of a cycle's plan, in their order, once
//! all have acknowledged the last Copy word.

ghost use Rattle.std.specs.Prelude.{◌≡◌, ◌≢◌, ◌≤◌, ◌<◌};
ghost use Rattle.call_steps.specs.declared.step.Step.TheVariants.{Store, Ended as StepEnded};
ghost use Rattle.heap_words.specs.Layouts.{IsPass};
ghost use Rattle.heap_words.specs.declared.limits.TheConstants.{REGISTERS};
ghost use Rattle.space_reclaim.specs.RegionWords.{IsRegionWord, word_of_region};
ghost use Rattle.std.specs.Prelude.{length, ◌==◌};
ghost use Rattle.std.specs.List.{slice_get, prefix_len};
ghost use Rattle.lawful_records.specs.Collectors.{is_planned as is_planned_at, used_at, target_of as target_in, look as look_at, walk_at, seek_at, sought_on, to_copy as to_copy_by, tag_at, move_at, moves_at, targeted as targeted_by, target_at, source_at, work_at, to_fix as to_fix_by, behind_by, awaited as awaited_by, looked as looked_by, moved_on as moved_on_by, root_fix as root_fix_of, retired_by as retired_as, rooted_on as rooted_by, walked_on as walked_by, asks_of as asks_by, fed_of as fed_by, seals_of, move_ended as move_ended_by, seek_ended, collector_of};
ghost use Rattle.barriers.specs.Rows.{region_of as region_in};

use crate::job::{does_seal, tagged_word};
use crate::stage::{Announcement, Marks, SEARCHES, Stage, seeks_mark};
use barriers::{Copier, MoveEnd};
use call_steps::{Machine, Step};
use handshakes::{AwaitEnd, AwaitMachine};
use heap_words::{Layout, REGION_WORDS, REGISTERS};
use mark_search::{Candidates, SeekEnd, SeekMarkMachine};
use reference_fix::{FixWalkMachine, RootFixMachine};
use space_reclaim::{MoveJob, Plan, RegionWord};

/// Stores the phase word of each announcement, and after each loads the acknowledgement of one pass after another,
/// in rising number, again and again until it is the announced word or that of Retired. Where the copier puts marks
/// in place of values, it seeks one after Confirm: it stores a candidate in the mark word, announces its Search, and
/// loads each field of each object; a field that holds the candidate ends the search, and the next one is drawn, of
/// which there are eight at most. Then it works on the plan of the cycle. It stores Source in the words of the regions
/// that are emptied and Target in those of the regions to which objects are copied, each in rising number. Where objects
/// are tagged it tags those of the jobs, in the order of the plan, all before it announces Copy. Before it announces Fix
/// it moves them, in the same order. Where it finds in the await of Fix that a pass has retired, it fixes the pass's root
/// words; and after that await, before it announces Free, it fixes the fields of all objects. Neither an await nor a move
/// has a bound.
#[derive(Clone, Copy, Debug, PartialEq, Eq)]
pub enum CollectorMachine<M> {
    /// Announces this stage.
    Announce(Stage),
    /// Has announced this stage, and awaits the answer of a pass. The passes before it have answered.
    Await {
        stage: Stage,
        pass: u32,
        machine: AwaitMachine,
    },
    /// Stores the candidate drawn last in the mark word. Next it announces this stage, as in the states below.
    Draw(Stage),
    /// Has awaited this stage, and seeks a field that holds the candidate.
    Seek {
        stage: Stage,
        machine: SeekMarkMachine,
    },
    /// Stores Source in the word of a region that is emptied; `next` is the place of the following one in the plan.
    Source {
        stage: Stage,
        region: u32,
        next: usize,
    },
    /// Stores Target in the word of a region to which it copies; `next` is the place in the plan of the first job after
    /// it that copies elsewhere.
    Target {
        stage: Stage,
        region: u32,
        next: usize,
    },
    /// Exchanges the header of a job's object from Plain to Tagged; `next` is the place of the following job.
    Tag {
        stage: Stage,
        job: MoveJob,
        next: usize,
    },
    /// Moves the object of a job, by this machine; `next` is the place of the following job.
    Move {
        stage: Stage,
        job: MoveJob,
        next: usize,
        machine: M,
    },
    /// Has found that a pass has retired, in the await of Fix: fixes its root word for a register by this machine,
    /// after those of the registers before.
    Roots {
        stage: Stage,
        pass: u32,
        reg: u32,
        machine: RootFixMachine,
    },
    /// Has awaited Fix, and fixes the fields of all objects.
    Walk {
        stage: Stage,
        machine: FixWalkMachine,
    },
    /// All passes have answered the last stage.
    Done(Stage),
}

/// The region of a word; 0 before the first region.
#[tactic(auto, using(crate::proofs::JobLaws::first_there), unfolding(barriers::specs::Rows::region_of))]
fn region_of(layout: &Layout, at: u32) -> u32
    ensures { result ≡ region_in layout.now at }
{
    prove!(layout.passes() >= 1);
    at.saturating_sub(layout.first_word(0)) / REGION_WORDS
}

/// How many jobs at the front copy to a region.
fn count_to(layout: &Layout, jobs: &[MoveJob], region: u32) -> usize
    ensures run { result ≡ prefix_len (λ j. target_in layout.now j == region) jobs.now }
    ensures few { result ≤ length jobs.now }
{
    jobs.iter()
        .take_while(|job| region_of(layout, job.to) == region)
        .count()
}

impl Stage {
    /// Whether its cycle has the plan: until cycles are planned anew, the first one.
    fn is_planned(&self) -> bool
        ensures { result ≡ is_planned_at self.now }
    {
        self.cycle == 1
    }

    /// The store of what a region is used for.
    #[tactic(auto, using(crate::proofs::JobLaws::first_there))]
    fn use_region(&self, region: u32, used: RegionWord) -> Step
        requires { IsRegionWord used }
        ensures { result ≡ Store (used_at self.now.layout region) (word_of_region used) }
    {
        prove!(self.layout.passes() >= 1);
        Step::Store {
            at: self.layout.region_at(0).saturating_add(region),
            put: used.pack(),
        }
    }

    /// The look at the acknowledgement of a pass.
    fn look<M>(&self, pass: u32) -> CollectorMachine<M>
        requires { IsPass self.now.layout pass }
        ensures { result ≡ look_at self.now pass }
    {
        CollectorMachine::Await {
            stage: *self,
            pass,
            machine: AwaitMachine::new(&self.layout, pass, self.word()),
        }
    }

    /// The look at the acknowledgement of the first pass.
    fn first_look<M>(&self) -> CollectorMachine<M>
        ensures { result ≡ look_at self.now 1 }
    {
        prove!(self.layout.passes() >= 1);
        self.look(1)
    }

    /// What comes before Copy is announced: the search for a mark; or the work on the plan.
    fn to_copy<P: Copier>(&self, plan: &Plan) -> CollectorMachine<P::Move>
        ensures { result ≡ to_copy_by P.kit plan.now self.now }
    {
        if seeks_mark(self.kind) {
            return CollectorMachine::Draw(self.search(1));
        }
        self.at(Announcement::Copy).work::<P>(plan)
    }

    /// The tag of the object of the job with this number. After the last one this stage is announced.
    fn tag<M>(&self, plan: &Plan, at: usize) -> CollectorMachine<M>
        ensures { result ≡ tag_at (slice_get plan.now.jobs at) self.now at }
    {
        match plan.jobs().get(at) {
            None => CollectorMachine::Announce(*self),
            Some(job) => CollectorMachine::Tag {
                stage: *self,
                job: *job,
                next: at + 1,
            },
        }
    }

    /// The move of the object of the job with this number. After the last one this stage is announced.
    fn moving<P: Copier>(&self, plan: &Plan, at: usize) -> CollectorMachine<P::Move>
        ensures { result ≡ move_at P.kit (slice_get plan.now.jobs at) self.now at }
    {
        match plan.jobs().get(at) {
            None => CollectorMachine::Announce(*self),
            Some(job) => CollectorMachine::Move {
                stage: *self,
                job: *job,
                next: at + 1,
                machine: P::move_one(&self.layout, *job, self.mark()),
            },
        }
    }

    /// What comes when the regions of the plan have their words: tags; or, without them, moves.
    fn targeted<P: Copier>(&self, plan: &Plan) -> CollectorMachine<P::Move>
        ensures { result ≡ targeted_by P.kit plan.now self.now }
    {
        if seeks_mark(self.kind) {
            self.moving::<P>(plan, 0)
        } else {
            self.tag(plan, 0)
        }
    }

    /// The word of the region to which the job with this number copies, and those after it that copy there too.
    fn target<P: Copier>(&self, plan: &Plan, at: usize) -> CollectorMachine<P::Move>
        ensures { result ≡ target_at P.kit plan.now (slice_get plan.now.jobs at) self.now at }
    {
        let jobs = plan.jobs();
        let Some(job) = jobs.get(at) else {
            return self.targeted::<P>(plan);
        };
        let region = region_of(&self.layout, job.to);
        let (_, rest) = jobs.split_at(at);
        CollectorMachine::Target {
            stage: *self,
            region,
            next: at + count_to(&self.layout, rest, region),
        }
    }

    /// The word of the chosen region with this number.
    fn source<P: Copier>(&self, plan: &Plan, at: usize) -> CollectorMachine<P::Move>
        ensures { result ≡ source_at P.kit plan.now (slice_get plan.now.chosen at) self.now at }
    {
        match plan.chosen().get(at) {
            None => self.target::<P>(plan, 0),
            Some(region) => CollectorMachine::Source {
                stage: *self,
                region: *region,
                next: at + 1,
            },
        }
    }

    /// The work on the plan before this stage is announced, if its cycle has it.
    fn work<P: Copier>(&self, plan: &Plan) -> CollectorMachine<P::Move>
        ensures { result ≡ work_at P.kit plan.now self.now }
    {
        if self.is_planned() {
            self.source::<P>(plan, 0)
        } else {
            CollectorMachine::Announce(*self)
        }
    }

    /// The moves of the plan before this stage is announced, if its cycle has it.
    fn moves<P: Copier>(&self, plan: &Plan) -> CollectorMachine<P::Move>
        ensures { result ≡ moves_at P.kit plan.now self.now }
    {
        if self.is_planned() {
            self.moving::<P>(plan, 0)
        } else {
            CollectorMachine::Announce(*self)
        }
    }

    /// What comes when all passes have the candidate as their mark.
    fn to_seek<M>(&self) -> CollectorMachine<M>
        ensures { result ≡ seek_at self.now }
    {
        CollectorMachine::Seek {
            stage: *self,
            machine: SeekMarkMachine::new(&self.layout, self.mark()),
        }
    }

    /// What comes after a step of the search, which has ended so: the last Copy word, where no field held the
    /// candidate; or the next one. After the eighth find nothing is moved.
    fn sought<M>(&self, machine: SeekMarkMachine) -> CollectorMachine<M>
        ensures { result ≡ sought_on self.now machine }
    {
        match machine.end() {
            None => CollectorMachine::Seek {
                stage: *self,
                machine,
            },
            Some(SeekEnd::Clear) => CollectorMachine::Announce(Stage {
                announcement: Announcement::Copy,
                marks: Marks {
                    clear: true,
                    ..self.marks
                },
                ..*self
            }),
            Some(SeekEnd::MarkFound(_)) if self.marks.round < SEARCHES => {
                CollectorMachine::Draw(self.search(self.marks.round + 1))
            }
            Some(SeekEnd::MarkFound(_)) => CollectorMachine::Announce(self.at(Announcement::Fix)),
        }
    }

    /// What comes before Fix is announced: the work on the plan, where a mark was sought; or its moves.
    fn to_fix<P: Copier>(&self, plan: &Plan) -> CollectorMachine<P::Move>
        ensures { result ≡ to_fix_by P.kit plan.now self.now }
    {
        let stage = self.at(Announcement::Fix);
        if seeks_mark(self.kind) {
            stage.work::<P>(plan)
        } else {
            stage.moves::<P>(plan)
        }
    }

    /// The walk that fixes all fields.
    fn walk<M>(&self) -> CollectorMachine<M>
        ensures { result ≡ walk_at self.now }
    {
        CollectorMachine::Walk {
            stage: *self,
            machine: FixWalkMachine::new(&self.layout),
        }
    }

    /// What comes after a step of the walk: the next one, or the announcement of Free when it has ended.
    fn walked<M>(&self, machine: FixWalkMachine) -> CollectorMachine<M>
        ensures { result ≡ walked_by self.now machine }
    {
        match machine.end() {
            Some(()) => CollectorMachine::Announce(self.at(Announcement::Free)),
            None => CollectorMachine::Walk {
                stage: *self,
                machine,
            },
        }
    }

    /// What comes when all passes have answered.
    fn behind<P: Copier>(&self, plan: &Plan) -> CollectorMachine<P::Move>
        ensures { result ≡ behind_by P.kit plan.now self.now.announcement self.now }
    {
        match self.announcement {
            Announcement::Mark => CollectorMachine::Announce(self.at(Announcement::Confirm)),
            Announcement::Confirm => self.to_copy::<P>(plan),
            Announcement::Search => self.to_seek(),
            Announcement::Copy => self.to_fix::<P>(plan),
            Announcement::Fix => self.walk(),
            Announcement::Free if self.cycle < self.cycles => {
                CollectorMachine::Announce(Stage {
                    cycle: self.cycle + 1,
                    announcement: Announcement::Mark,
                    ..*self
                })
            }
            Announcement::Free => CollectorMachine::Done(*self),
        }
    }

    /// What comes when this pass and those before it have answered.
    fn awaited<P: Copier>(&self, plan: &Plan, pass: u32) -> CollectorMachine<P::Move>
        ensures { result ≡ awaited_by P.kit plan.now self.now pass }
    {
        if pass < self.layout.passes() {
            return self.look(pass + 1);
        }
        self.behind::<P>(plan)
    }

    /// The fixing of a retired pass's root word for a register. Each pass that is awaited is one of the layout.
    fn root_fix<M>(&self, pass: u32, reg: u32) -> CollectorMachine<M>
        requires { reg < REGISTERS }
        ensures { result ≡ root_fix_of self.now pass reg }
    {
        prove!(self.layout.passes() >= 1);
        let within = pass.max(1).min(self.layout.passes());
        CollectorMachine::Roots {
            stage: *self,
            pass,
            reg,
            machine: RootFixMachine::new(&self.layout, within, reg),
        }
    }

    /// What comes when it is found that a pass has retired: in the await of Fix the fixing of its root words.
    fn retired<P: Copier>(&self, plan: &Plan, pass: u32) -> CollectorMachine<P::Move>
        ensures { result ≡ retired_as P.kit plan.now self.now.announcement self.now pass }
    {
        match self.announcement {
            Announcement::Fix => self.root_fix(pass, 0),
            _ => self.awaited::<P>(plan, pass),
        }
    }

    /// What comes after a step of the fixing of a root word: the next one, the next root word, or, after the last one
    /// of the pass, the next pass.
    fn rooted<P: Copier>(
        &self,
        plan: &Plan,
        pass: u32,
        reg: u32,
        machine: RootFixMachine,
    ) -> CollectorMachine<P::Move>
        ensures { result ≡ rooted_by P.kit plan.now self.now pass reg machine }
    {
        match machine.end() {
            None => CollectorMachine::Roots {
                stage: *self,
                pass,
                reg,
                machine,
            },
            Some(()) if reg < REGISTERS as u32 - 1 => self.root_fix(pass, reg + 1),
            Some(()) => self.awaited::<P>(plan, pass),
        }
    }

    /// What comes when a look at this pass has ended. Without an answer the next look is the same one.
    fn looked<P: Copier>(
        &self,
        plan: &Plan,
        pass: u32,
        look: AwaitMachine,
        end: Option<AwaitEnd>,
    ) -> CollectorMachine<P::Move>
        ensures { result ≡ looked_by P.kit plan.now self.now pass look end }
    {
        match end {
            Some(AwaitEnd::Answered) => self.awaited::<P>(plan, pass),
            Some(AwaitEnd::Retired) => self.retired::<P>(plan, pass),
            Some(AwaitEnd::NotYet { .. }) | None => CollectorMachine::Await {
                stage: *self,
                pass,
                machine: look,
            },
        }
    }

    /// What comes after a step of the move of a job's object: the next step, or when it has ended the next move.
    fn moved<P: Copier>(
        &self,
        plan: &Plan,
        job: MoveJob,
        next: usize,
        machine: P::Move,
    ) -> CollectorMachine<P::Move>
    where
        P::Move: Copy,
        ensures { result ≡ moved_on_by P.kit plan.now self.now job next machine }
    {
        match P::move_end(&machine) {
            Some(_) => self.moving::<P>(plan, next),
            None => CollectorMachine::Move {
                stage: *self,
                job,
                next,
                machine,
            },
        }
    }

    /// The collector of a copier before the first of so many cycles, whose marks this salt draws; with none it is
    /// done.
    pub fn first<P: Copier>(
        layout: &Layout,
        plan: &Plan,
        cycles: u32,
        salt: u64,
    ) -> CollectorMachine<P::Move>
        requires { cycles ≤ 64 }
        ensures { result ≡ collector_of P.kit plan.now layout.now cycles salt }
    {
        let stage = Stage {
            layout: *layout,
            kind: P::KIND,
            cycles,
            cycle: 0,
            announcement: Announcement::Free,
            marks: Marks {
                candidates: Candidates::new(salt),
                round: 0,
                clear: false,
            },
        };
        stage.behind::<P>(plan)
    }
}

impl<M: Machine> CollectorMachine<M> {
    /// The step that it takes next.
    pub fn ask(&self) -> Step
        ensures { result ≡ asks_by M.asks self.now }
    {
        match self {
            CollectorMachine::Announce(stage) => Step::Store {
                at: stage.layout.phase_at(),
                put: stage.word(),
            },
            CollectorMachine::Await { machine, .. } => machine.ask(),
            CollectorMachine::Draw(stage) => Step::Store {
                at: stage.layout.mark_at(),
                put: stage.mark(),
            },
            CollectorMachine::Seek { machine, .. } => machine.ask(),
            CollectorMachine::Source { stage, region, .. } => {
                stage.use_region(*region, RegionWord::Source)
            }
            CollectorMachine::Target { stage, region, .. } => {
                stage.use_region(*region, RegionWord::Target)
            }
            CollectorMachine::Tag { job, .. } => Step::Exchange {
                at: job.from,
                want: job.header,
                put: tagged_word(job.header),
            },
            CollectorMachine::Move { machine, .. } => machine.ask(),
            CollectorMachine::Roots { machine, .. } => machine.ask(),
            CollectorMachine::Walk { machine, .. } => machine.ask(),
            CollectorMachine::Done(_) => Step::Ended,
        }
    }

    /// The object that its next step seals, where this step finds this word.
    pub fn sealed(&self, step: Step, found: u64) -> Option<MoveJob>
        ensures { result ≡ seals_of self.now step found }
    {
        match self {
            CollectorMachine::Move { job, .. } if does_seal(job.from, step, found) => Some(*job),
            _ => None,
        }
    }
}

/// The collector's machine goes on from the word that its step found, where this is planned.
pub fn feed_collector<P: Copier>(collector: &mut CollectorMachine<P::Move>, plan: &Plan, found: u64)
where
    P::Move: Copy,
    requires { asks_by P.Move.asks collector.old ≢ StepEnded }
    ensures { collector.new ≡ fed_by P.kit P.Move.fed plan.now collector.old found }
{
    *collector = match *collector {
        CollectorMachine::Announce(stage) => stage.first_look(),
        CollectorMachine::Await {
            stage,
            pass,
            machine,
        } => {
            let mut fed = machine;
            fed.feed(found);
            stage.looked::<P>(plan, pass, machine, fed.end())
        }
        CollectorMachine::Draw(stage) => CollectorMachine::Announce(stage),
        CollectorMachine::Seek { stage, machine } => {
            let mut fed = machine;
            fed.feed(found);
            stage.sought(fed)
        }
        CollectorMachine::Source { stage, next, .. } => stage.source::<P>(plan, next),
        CollectorMachine::Target { stage, next, .. } => stage.target::<P>(plan, next),
        CollectorMachine::Tag { stage, next, .. } => stage.tag(plan, next),
        CollectorMachine::Move {
            stage,
            job,
            next,
            machine,
        } => {
            let mut fed = machine;
            fed.feed(found);
            stage.moved::<P>(plan, job, next, fed)
        }
        CollectorMachine::Roots {
            stage,
            pass,
            reg,
            machine,
        } => {
            let mut fed = machine;
            fed.feed(found);
            stage.rooted::<P>(plan, pass, reg, fed)
        }
        CollectorMachine::Walk { stage, machine } => {
            let mut fed = machine;
            fed.feed(found);
            stage.walked(fed)
        }
        CollectorMachine::Done(stage) => CollectorMachine::Done(stage),
    };
}

/// The collector's machine with a copier and the plan of its first cycle, as the machine that they are.
pub struct CycleMachine<P: Copier> {
    pub collector: CollectorMachine<P::Move>,
    pub plan: Plan,
}

impl<P: Copier> Machine for CycleMachine<P>
where
    P::Move: Copy,
{
    ghost use Rattle.lawful_records.specs.Collectors.{asks_of, fed_of, blind_of, alike};

    ghost asks = { λ m. asks_of P.Move.asks m.collector };

    ghost fed = { λ m found. record m { collector = fed_of P.kit P.Move.fed m.plan m.collector found } };

    ghost blind = { λ m at put n is. alike (λ k. record m { collector = k }) _ _
        (blind_of P.kit P.Move.asks P.Move.fed P.Move.blind m.plan m.collector at put n is) };

    fn ask(&self) -> Step {
        self.collector.ask()
    }

    fn feed(&mut self, found: u64) {
        feed_collector::<P>(&mut self.collector, &self.plan, found);
    }
}

/// What the move that it is in ends with, if it ends by its next step, which finds this word.
pub fn move_end_of<P: Copier>(
    collector: &CollectorMachine<P::Move>,
    found: u64,
) -> Option<(MoveJob, MoveEnd)>
where
    P::Move: Copy,
    requires { asks_by P.Move.asks collector.now ≢ StepEnded }
    ensures { result ≡ move_ended_by P.kit P.Move.fed collector.now found }
{
    let CollectorMachine::Move { job, machine, .. } = *collector else {
        return None;
    };
    let mut fed = machine;
    fed.feed(found);
    Some((job, P::move_end(&fed)?))
}

/// What the search that it is in ends with, if it ends by its next step, which finds this word.
pub fn seek_end_of<M: Machine>(collector: &CollectorMachine<M>, found: u64) -> Option<SeekEnd>
    requires { asks_by M.asks collector.now ≢ StepEnded }
    ensures { result ≡ seek_ended collector.now found }
{
    let CollectorMachine::Seek { machine, .. } = collector else {
        return None;
    };
    let mut fed = *machine;
    fed.feed(found);
    fed.end()
}
