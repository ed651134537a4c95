//! What a walk has noted, and the room for it.

ghost use Rattle.std.specs.Prelude.{◌≡◌, ◌≢◌, ◌<◌, vec_len, vec_capacity, IfOk};
ghost use Rattle.std.specs.Option.{ForSome};
ghost use Rattle.call_steps.specs.declared.step.Step.TheVariants.{Ended as StepEnded};
ghost use Rattle.live_walk.specs.Notes.{with_one};
ghost use Rattle.live_walk.specs.Walks.{begun, asks_of, fed_of, finding_of};

use crate::note::NoteMachine;
use call_steps::OutOfMemory;
use heap_words::{Layout, REGION_WORDS};
use space_reclaim::{ObjectRow, RegionLive};
use std::alloc::Global;
use std::marker::Model;

/// What a walk has noted. There is room from the start for all that the layout can have.
#[derive(Drop)]
pub struct Noted {
    layout: Layout,
    live: Vec<RegionLive>,
    objects: Vec<ObjectRow>,
    pool_free: Vec<u32>,
}

impl Model for Noted {
    ghost use Rattle.std.specs.Prelude.{vec_capacity};
    ghost use Rattle.live_walk.specs.Notes.{Notes, IsRoomy};

    ghost Value = { Notes };

    ghost view = { λ n. record { layout = n.layout; live = n.live.items; objects = n.objects.items; pool_free = n.pool_free.items } };

    ghost invariant = { λ n. IsRoomy n.layout (vec_capacity n.live) (vec_capacity n.objects) (vec_capacity n.pool_free) };
}

/// Adds an item, if there is one. There is room for it.
fn push_one<T: Copy>(list: &mut Vec<T>, item: Option<T>)
    requires { ForSome item (λ _. vec_len list.old < vec_capacity list.old) }
    ensures items { list.new.items ≡ with_one list.old.items item }
    ensures room { vec_capacity list.new ≡ vec_capacity list.old }
{
    if let Some(item) = item {
        list.push_reserved(item);
    }
}

impl Noted {
    ghost use Rattle.live_walk.specs.Notes.{nothing_noted, noted_with};
    ghost use Rattle.live_walk.specs.Noting.{IsNoting, CanBePlanned};

    /// Nothing, with room for all that the layout can have: a row for each region, 64 objects in each, and the
    /// regions of the pool.
    pub fn with_room(alloc: Global, layout: &Layout) -> Result<Noted, OutOfMemory>
        ensures nothing { IfOk result (λ noted. noted ≡ nothing_noted layout.now) }
        ensures begins { IfOk result (IsNoting (begun layout.now)) }
    {
        let regions = layout.regions();
        let live = Vec::with_capacity(alloc, regions as usize)?;
        let objects = Vec::with_capacity(alloc, (REGION_WORDS * regions) as usize)?;
        let pool_free = Vec::with_capacity(alloc, layout.pool() as usize)?;
        Ok(Noted {
            layout: *layout,
            live,
            objects,
            pool_free,
        })
    }

    /// The layout that it has room for.
    pub fn layout(&self) -> &Layout
        ensures { result.now ≡ self.now.layout }
    {
        &self.layout
    }

    /// The regions that were Filled, in rising number, each with the words of its live objects.
    pub fn live(&self) -> &[RegionLive]
        ensures { result.now ≡ self.now.live }
    {
        self.live.as_slice()
    }

    /// The live objects of these regions, in rising address.
    pub fn objects(&self) -> &[ObjectRow]
        ensures { result.now ≡ self.now.objects }
    {
        self.objects.as_slice()
    }

    /// The regions of the pool that were Free, in rising number.
    pub fn pool_free(&self) -> &[u32]
        ensures { result.now ≡ self.now.pool_free }
    {
        self.pool_free.as_slice()
    }

    /// Forgets all that was noted.
    pub fn clear(&mut self)
        ensures nothing { self.new ≡ nothing_noted self.old.layout }
        ensures begins { IsNoting (begun self.old.layout) self.new }
    {
        self.live.clear();
        self.objects.clear();
        self.pool_free.clear();
    }

    /// Notes what the next step of the walk tells, which finds this word. What was noted so far is of this walk.
    pub fn note(&mut self, machine: &NoteMachine, found: u64)
        requires going { asks_of machine.now ≢ StepEnded }
        requires noting { IsNoting machine.now self.old }
        ensures noted { self.new ≡ noted_with self.old (finding_of machine.now found) }

        // Whatever words it finds: the regions and objects that are noted rise, each object lies in its region, each
        // region has the words of its objects, and the free regions of the pool rise.
        ensures kept { IsNoting (fed_of machine.now found) self.new }

        // So once the walk has ended, a plan can be made from it.
        ensures planned { asks_of (fed_of machine.now found) ≡ StepEnded → CanBePlanned self.new }
    {
        let finding = machine.finding(found);
        push_one(&mut self.pool_free, finding.free);
        push_one(&mut self.objects, finding.object);
        push_one(&mut self.live, finding.region);
    }
}
