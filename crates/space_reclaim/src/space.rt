//! The space for copies, and how much of it is used.

ghost use Rattle.std.specs.Prelude.{◌≡◌, ◌+◌, ◌*◌, ◌<◌, ◌≤◌, ◌^◌, ◌++◌, ◌&&◌, nat_le, if◌then◌else◌, Some, None, length, take, vec_capacity, vec_len};
ghost use Rattle.std.specs.List.{All};
ghost use Rattle.heap_words.specs.Layouts.{wide_at};
ghost use Rattle.object_headers.specs.Changes.{is_stopless};
ghost use Rattle.space_reclaim.specs.Plans.{begins_after, words_of, strip_after, strip_at, has_room, regions_begun, job_after, jobs_after};

use crate::move_job::MoveJob;
use crate::plan::{ObjectRow, RegionLive};
use heap_words::{Layout, REGION_WORDS};
use object_headers::Kind;
use std::marker::Model;

/// The most live words of a region that is emptied.
const MOST_LIVE: u32 = 32;

/// How many words of the strip of free regions are used, and how many words the objects take that are to
/// be moved.
#[derive(Clone, Copy, Debug, PartialEq, Eq)]
pub struct Used {
    pub strip: u32,
    pub words: u32,
}

/// Where a copy of this many fields begins after the used words of the strip: at the next one, or with the
/// next region where it does not fit the rest of this one.
fn begins_after(used: u32, len: u32) -> u32
    requires used { used < 2 ^ 31 }
    requires len { len ≤ 30 }
    ensures { result ≡ begins_after used len }
{
    if used % REGION_WORDS + len + 1 <= REGION_WORDS {
        used
    } else {
        REGION_WORDS * (used / REGION_WORDS + 1)
    }
}

impl Used {
    /// What is used after the copy of one object more.
    fn with_one(self, object: &ObjectRow) -> Used
        requires strip { self.strip < 2 ^ 31 }
        requires words { self.words < 2 ^ 31 }
        requires len { object.now.len ≤ 30 }
        ensures strip { result.strip ≡ begins_after self.strip object.now.len + object.now.len + 1 }
        ensures words { result.words ≡ self.words + object.now.len + 1 }
    {
        Used {
            strip: begins_after(self.strip, object.len) + object.len + 1,
            words: self.words + object.len + 1,
        }
    }

    /// What is used after the copies of at most 32 objects more.
    fn with_all(self, objects: &[ObjectRow]) -> Used
        requires strip { self.strip < 2 ^ 16 }
        requires words { self.words < 2 ^ 16 }
        requires lens { All (λ o. o.len ≤ 30) objects.now }
        requires few { length objects.now ≤ 32 }
        ensures strip { result.strip ≡ strip_after self.strip objects.now }
        ensures words { result.words ≡ self.words + words_of objects.now }
    {
        let mut used = self;
        for object in objects {
            used = used.with_one(object);
        }
        used
    }
}

/// Where copies go: the free regions of the pool are one strip of words, 64 of each, on which copies are
/// laid one after another; and so are wide objects in the wide area.
#[derive(Drop)]
pub struct Space<'a> {
    pub layout: Layout,
    pub pool_free: &'a [u32],
    pub wide_free: u32,
    pub kind: Kind,
}

impl<'a> Model for Space<'a> {
    ghost use Rattle.heap_words.specs.Layouts.{IsLayout};
    ghost use Rattle.space_reclaim.specs.Plans.{Space, IsSpace, space_of};

    ghost Value = { Space };

    ghost view = { λ s. space_of s.layout s.pool_free.now s.wide_free s.kind };

    ghost invariant = { λ s. IsLayout s.layout × IsSpace (space_of s.layout s.pool_free.now s.wide_free s.kind) };
}

impl<'a> Space<'a> {
    /// The words of the strip.
    fn strip_words(&self) -> u32
        ensures words { result ≡ 64 * length self.now.pool_free }
        ensures few { result ≤ 2 ^ 15 }
    {
        REGION_WORDS * self.pool_free.len() as u32
    }

    /// Whether there is room for so much.
    fn has_room(&self, used: Used) -> bool
        ensures { result ≡ has_room self.now used.strip used.words }
    {
        used.strip <= self.strip_words()
            && (!matches!(self.kind, Kind::Stopless) || used.words <= self.wide_free)
    }

    /// The address of a word of the strip.
    fn address(&self, word: u32) -> u32
        requires { word < 64 * length self.now.pool_free }
        ensures { result ≡ strip_at self.now word }
    {
        let region = self.pool_free[(word / REGION_WORDS) as usize];
        self.layout.first_word(region) + word % REGION_WORDS
    }

    /// The address of a wide object after this many words of the wide area, or 0.
    fn wide(&self, words: u32) -> u32
        requires { words < 2 ^ 16 }
        ensures { result ≡ (if is_stopless self.now.kind then wide_at self.now.layout + words else 0) }
    {
        match self.kind {
            Kind::Stopless => self.layout.wide_at() + words,
            Kind::AtRest | Kind::Chicken | Kind::Clover => 0,
        }
    }

    /// The free regions of which words are used.
    pub fn begun(&self, used: Used) -> &[u32]
        requires { used.strip ≤ 64 * length self.now.pool_free }
        ensures { result.now ≡ take (regions_begun used.strip) self.now.pool_free }
    {
        let count = used.strip / REGION_WORDS + u32::from(used.strip % REGION_WORDS != 0);
        &self.pool_free[..count as usize]
    }

    /// How many words of the wide area are used.
    pub fn wide_words(&self, used: Used) -> u32
        ensures { result ≡ (if is_stopless self.now.kind then used.words else 0) }
    {
        match self.kind {
            Kind::Stopless => used.words,
            Kind::AtRest | Kind::Chicken | Kind::Clover => 0,
        }
    }

    /// The job of an object, after what is used.
    fn job(&self, used: Used, object: &ObjectRow) -> MoveJob
        requires len { object.now.len ≤ 30 }
        requires strip { used.strip < 2 ^ 16 }
        requires room { begins_after used.strip object.now.len < 64 * length self.now.pool_free }
        requires words { used.words < 2 ^ 16 }
        ensures { result ≡ job_after self.now used.strip used.words object.now }
    {
        MoveJob {
            birth: object.birth,
            from: object.at,
            to: self.address(begins_after(used.strip, object.len)),
            wide: self.wide(used.words),
            len: object.len,
            header: object.header,
        }
    }

    /// What is used after the copies of a region's objects too, or `None` where the region is not chosen.
    pub fn used_with(&self, used: Used, row: &RegionLive, objects: &[ObjectRow]) -> Option<Used>
        requires words { row.now.words ≡ words_of objects.now }
        requires lens { All (λ o. o.len ≤ 30) objects.now }
        requires pool { length self.now.pool_free ≤ 512 }
        requires strip { used.strip ≤ 64 * length self.now.pool_free }
        requires used { used.words ≤ used.strip }
        ensures { result ≡ (if nat_le row.now.words 32
            && has_room self.now (strip_after used.strip objects.now) (used.words + words_of objects.now)
            then Some (record { strip = strip_after used.strip objects.now; words = used.words + words_of objects.now })
            else None) }
    {
        if row.words > MOST_LIVE {
            return None;
        }
        let after = used.with_all(objects);
        if self.has_room(after) {
            Some(after)
        } else {
            None
        }
    }

    /// Adds the jobs of objects, after what is used. There is room for them.
    pub fn lay(&self, jobs: &mut Vec<MoveJob>, used: Used, objects: &[ObjectRow])
        requires lens { All (λ o. o.len ≤ 30) objects.now }
        requires pool { length self.now.pool_free ≤ 512 }
        requires fits { strip_after used.strip objects.now ≤ 64 * length self.now.pool_free }
        requires used { used.words ≤ used.strip }
        requires room { vec_len jobs.old + length objects.now ≤ vec_capacity jobs.old }
        ensures jobs { jobs.new.items ≡ jobs.old.items ++ jobs_after self.now used.strip used.words objects.now }
        ensures room { vec_capacity jobs.new ≡ vec_capacity jobs.old }
    {
        let mut used = used;
        for object in objects {
            jobs.push_reserved(self.job(used, object));
            used = used.with_one(object);
        }
    }
}
