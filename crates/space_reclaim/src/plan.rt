//! Which regions a cycle empties, and where the copy of each of their objects is laid.

ghost use Rattle.std.specs.Prelude.{◌≡◌, ◌≢◌, ◌+◌, ◌<◌, ◌≤◌, ◌==◌, ◌++◌, length, vec_len, vec_capacity, IfOk};
ghost use Rattle.std.specs.List.{All, AllPairs, prefix_len};

use crate::move_job::MoveJob;
use crate::space::{Space, Used};
use call_steps::OutOfMemory;
use heap_words::{Layout, REGION_WORDS};
use object_headers::Kind;
use std::alloc::Global;
use std::marker::Model;

/// A region that was found Filled, and how many words its live objects take.
#[derive(Clone, Copy, Debug, PartialEq, Eq)]
pub struct RegionLive {
    pub region: u32,
    pub words: u32,
}

/// A live object as it was found.
#[derive(Clone, Copy, Debug, PartialEq, Eq)]
pub struct ObjectRow {
    /// The region in which it lies.
    pub region: u32,
    pub birth: u32,
    /// The address of its header.
    pub at: u32,
    /// The number of its fields, 0 to 30.
    pub len: u32,
    /// The word of its header.
    pub header: u64,
}

/// How many of the objects at the front lie in a region.
fn count_in(objects: &[ObjectRow], region: u32) -> usize
    ensures { result ≡ prefix_len (λ o. o.region == region) objects.now }
{
    objects
        .iter()
        .take_while(|object| object.region == region)
        .count()
}

/// Adds regions, for which there is room.
fn add_regions(list: &mut Vec<u32>, regions: &[u32])
    requires { vec_len list.old + length regions.now ≤ vec_capacity list.old }
    ensures regions { list.new.items ≡ list.old.items ++ regions.now }
    ensures room { vec_capacity list.new ≡ vec_capacity list.old }
{
    for &region in regions {
        list.push_reserved(region);
    }
}

/// Which regions a cycle empties, in rising number, the jobs that empty them, by region and then by address, and
/// where these copy to. There is room from the start for all that the layout can have.
#[derive(Drop)]
pub struct Plan {
    layout: Layout,
    chosen: Vec<u32>,
    targets: Vec<u32>,
    jobs: Vec<MoveJob>,
    wide_words: u32,
}

impl Model for Plan {
    ghost use Rattle.std.specs.Prelude.{vec_capacity};
    ghost use Rattle.space_reclaim.specs.Plans.{Planned, IsRoomy};

    ghost Value = { Planned };

    ghost view = { λ p. record { layout = p.layout; chosen = p.chosen.items; targets = p.targets.items; jobs = p.jobs.items; wide_words = p.wide_words } };

    ghost invariant = { λ p. IsRoomy p.layout (vec_capacity p.chosen) (vec_capacity p.targets) (vec_capacity p.jobs) };
}

impl Plan {
    ghost use Rattle.heap_words.specs.Layouts.{IsRegion};
    ghost use Rattle.space_reclaim.specs.Plans.{IsSpace, IsFound, space_of, plan_of, nothing_planned, plan_without_copies};
    ghost use Rattle.space_reclaim.specs.PlanMeanings.{EmptiesChosen, AreCopiesApart, FillsTargets, AreLaidInOrder, AreWideLaid, HasNoWide};

    /// The empty plan, with room for all that the layout can have.
    pub fn with_room(alloc: Global, layout: &Layout) -> Result<Plan, OutOfMemory>
        ensures { IfOk result (λ plan. plan ≡ nothing_planned layout.now) }
    {
        let chosen = Vec::with_capacity(alloc, layout.regions() as usize)?;
        let targets = Vec::with_capacity(alloc, layout.pool() as usize)?;
        let jobs = Vec::with_capacity(alloc, (REGION_WORDS * layout.pool()) as usize)?;
        Ok(Plan {
            layout: *layout,
            chosen,
            targets,
            jobs,
            wide_words: 0,
        })
    }

    /// The regions that are emptied, in rising number.
    pub fn chosen(&self) -> &[u32]
        ensures { result.now ≡ self.now.chosen }
    {
        self.chosen.as_slice()
    }

    /// The regions to which objects are copied, in rising number: the first ones of the pool that were found Free.
    pub fn targets(&self) -> &[u32]
        ensures { result.now ≡ self.now.targets }
    {
        self.targets.as_slice()
    }

    /// How many words of the wide area the wide objects take, which follow each other from its first word on; 0
    /// where there are none.
    pub fn wide_words(&self) -> u32
        ensures { result ≡ self.now.wide_words }
    {
        self.wide_words
    }

    /// The jobs, by region and then by address.
    pub fn jobs(&self) -> &[MoveJob]
        ensures { result.now ≡ self.now.jobs }
    {
        self.jobs.as_slice()
    }

    /// Forgets what was planned.
    pub fn forget(&mut self)
        ensures { self.new ≡ nothing_planned self.old.layout }
    {
        self.chosen.clear();
        self.targets.clear();
        self.jobs.clear();
        self.wide_words = 0;
    }

    /// Plans a cycle that copies nothing: it empties the regions that were found Filled and have no live words.
    pub fn fill_without_copies(&mut self, rows: &[RegionLive])
        requires rises { AllPairs (λ r s. r.region < s.region) rows.now }
        requires regions { All (λ r. IsRegion self.old.layout r.region) rows.now }
        ensures { self.new ≡ plan_without_copies self.old.layout rows.now }
    {
        self.forget();
        for row in rows {
            if row.words == 0 {
                self.chosen.push_reserved(row.region);
            }
        }
    }

    /// Plans the copies of a cycle anew, from the regions that were found Filled, their live objects, the
    /// regions of the pool that were found Free, and the free words of the wide area. All lists rise by
    /// region and address.
    ///
    /// A region is chosen where its objects take at most 32 words and their copies fit what is left of
    /// the free regions, and with Stopless their wide objects what is left of the wide area. One that is
    /// passed over uses nothing.
    pub fn fill(
        &mut self,
        rows: &[RegionLive],
        objects: &[ObjectRow],
        pool_free: &[u32],
        wide_free: u32,
        kind: Kind,
    )
        requires space { IsSpace (space_of self.old.layout pool_free.now wide_free kind) }
        requires found { IsFound self.old.layout rows.now objects.now }
        ensures plan { self.new ≡ plan_of (space_of self.old.layout pool_free.now wide_free kind) rows.now objects.now }

        // Each live object of a chosen region has exactly one job, and there are no others.
        ensures empties { EmptiesChosen rows.now objects.now self.new }

        // No copy leaves its region or overlaps another. Each is laid where those before it end in its region.
        ensures copies { AreCopiesApart (space_of self.old.layout pool_free.now wide_free kind) self.new.jobs }
        ensures targets { FillsTargets (space_of self.old.layout pool_free.now wide_free kind) self.new }
        ensures laid { AreLaidInOrder (space_of self.old.layout pool_free.now wide_free kind) self.new.jobs }

        // With Stopless wide objects follow each other in the wide area. Others have none.
        ensures wide { kind ≡ Kind.Stopless → AreWideLaid (space_of self.old.layout pool_free.now wide_free kind) self.new }
        ensures narrow { kind ≢ Kind.Stopless → HasNoWide self.new }
    {
        self.forget();
        let space = Space {
            layout: self.layout,
            pool_free,
            wide_free,
            kind,
        };
        let mut used = Used { strip: 0, words: 0 };
        let mut rest = objects;
        for row in rows {
            let (own, others) = rest.split_at(count_in(rest, row.region));
            rest = others;
            if let Some(after) = space.used_with(used, row, own) {
                self.chosen.push_reserved(row.region);
                space.lay(&mut self.jobs, used, own);
                used = after;
            }
        }
        add_regions(&mut self.targets, space.begun(used));
        self.wide_words = space.wide_words(used);
    }
}

#[cfg(test)]
mod tests;
