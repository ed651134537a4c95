//! Plans worked out by hand.

ghost use Rattle.std.specs.Prelude.{◌≡◌, ◌+◌, ◌<◌, ◌^◌};

use super::*;
use std::test::Fail;

fn row(region: u32, words: u32) -> RegionLive
    ensures { result ≡ record { region = region; words = words } }
{
    RegionLive { region, words }
}

/// An object whose header word is its birth number and one more.
fn object(region: u32, birth: u32, at: u32, len: u32) -> ObjectRow
    requires { birth < 2 ^ 24 }
    ensures { result ≡ record { region = region; birth = birth; at = at; len = len; header = birth + 1 } }
{
    ObjectRow {
        region,
        birth,
        at,
        len,
        header: u64::from(birth) + 1,
    }
}

fn job(birth: u32, from: u32, to: u32, wide: u32, len: u32) -> MoveJob
    requires { birth < 2 ^ 24 }
    ensures { result ≡ record { birth = birth; from = from; to = to; wide = wide; len = len; header = birth + 1 } }
{
    MoveJob {
        birth,
        from,
        to,
        wide,
        len,
        header: u64::from(birth) + 1,
    }
}

// Of 1 pass with 4 own regions and 8 in the pool region 0 begins at 24, region 1 at 88, region 8 at 536, and the
// wide area at 792.
#[test]
fn moves_two_objects(rt: HostRuntime) -> Result<(), Fail> {
    let layout = Layout::new(1, 4, 8, 256)?;
    let mut plan = Plan::with_room(rt.alloc(), &layout)?;
    assert!(rt; plan.chosen().is_empty() && plan.jobs().is_empty());
    let rows = [row(0, 9), row(8, 3)];
    let objects = [object(0, 1, 24, 8), object(8, 524_289, 536, 2)];
    plan.fill(&rows, &objects, &[1, 2, 3], 256, Kind::Stopless);
    assert_eq!(rt; plan.chosen(), [0, 8].as_slice());
    let wide = [job(1, 24, 88, 792, 8), job(524_289, 536, 97, 801, 2)];
    assert_eq!(rt; plan.jobs(), wide.as_slice());
    assert_eq!(rt; plan.targets(), [1].as_slice());
    assert_eq!(rt; plan.wide_words(), 12);
    plan.fill(&rows, &objects, &[1, 2, 3], 0, Kind::Chicken);
    assert_eq!(rt; plan.wide_words(), 0);
    let plain = [job(1, 24, 88, 0, 8), job(524_289, 536, 97, 0, 2)];
    assert_eq!(rt; plan.jobs(), plain.as_slice());
    Ok(())
}

// Of 1 pass with 2 own regions and 2 in the pool region 0 begins at 16. The objects of region 2 are dead in the first
// cycle; in the second one it has a new one, and so has region 3, which is nearly full.
#[test]
fn empties_what_was_emptied_before(rt: HostRuntime) -> Result<(), Fail> {
    let layout = Layout::new(1, 2, 2, 1)?;
    let mut plan = Plan::with_room(rt.alloc(), &layout)?;
    let rows = [row(0, 9), row(2, 0)];
    plan.fill(&rows, &[object(0, 1, 16, 8)], &[1], 1, Kind::Clover);
    assert_eq!(rt; plan.chosen(), [0, 2].as_slice());
    assert_eq!(rt; plan.jobs(), [job(1, 16, 80, 0, 8)].as_slice());
    let rows = [row(1, 9), row(2, 31), row(3, 62)];
    let objects = [
        object(1, 1, 80, 8),
        object(2, 524_293, 144, 30),
        object(3, 524_291, 208, 30),
        object(3, 524_292, 239, 30),
    ];
    plan.fill(&rows, &objects, &[0], 1, Kind::Clover);
    assert_eq!(rt; plan.chosen(), [1, 2].as_slice());
    let jobs = [job(1, 80, 16, 0, 8), job(524_293, 144, 25, 0, 30)];
    assert_eq!(rt; plan.jobs(), jobs.as_slice());
    plan.fill_without_copies(&[row(0, 9), row(2, 0)]);
    assert_eq!(rt; plan.chosen(), [2].as_slice());
    assert!(rt; plan.jobs().is_empty() && plan.targets().is_empty());
    plan.forget();
    assert!(rt; plan.chosen().is_empty());
    Ok(())
}

// A region of 64 live words stays as it is.
#[test]
fn passes_over_a_full_region(rt: HostRuntime) -> Result<(), Fail> {
    let layout = Layout::new(1, 1, 2, 0)?;
    let mut plan = Plan::with_room(rt.alloc(), &layout)?;
    let rows = [row(0, 9), row(2, 64)];
    let objects = [
        object(0, 1, 15, 8),
        object(2, 524_289, 143, 30),
        object(2, 524_290, 174, 30),
        object(2, 524_291, 205, 1),
    ];
    plan.fill(&rows, &objects, &[1], 0, Kind::Chicken);
    assert_eq!(rt; plan.chosen(), [0].as_slice());
    assert_eq!(rt; plan.jobs(), [job(1, 15, 79, 0, 8)].as_slice());
    Ok(())
}

// Region 2 has 33 live words and stays as it is, and uses nothing.
#[test]
fn passes_over_a_region_of_33_words(rt: HostRuntime) -> Result<(), Fail> {
    let layout = Layout::new(1, 2, 2, 0)?;
    let mut plan = Plan::with_room(rt.alloc(), &layout)?;
    let rows = [row(0, 9), row(2, 33), row(3, 2)];
    let objects = [
        object(0, 1, 16, 8),
        object(2, 524_289, 144, 30),
        object(2, 524_290, 175, 1),
        object(3, 524_291, 208, 1),
    ];
    plan.fill(&rows, &objects, &[1], 0, Kind::Chicken);
    assert_eq!(rt; plan.chosen(), [0, 3].as_slice());
    let jobs = [job(1, 16, 80, 0, 8), job(524_291, 208, 89, 0, 1)];
    assert_eq!(rt; plan.jobs(), jobs.as_slice());
    Ok(())
}

// No region of the pool is free: only those without live words are chosen.
#[test]
fn chooses_what_is_empty(rt: HostRuntime) -> Result<(), Fail> {
    let layout = Layout::new(1, 2, 2, 0)?;
    let mut plan = Plan::with_room(rt.alloc(), &layout)?;
    let rows = [row(0, 9), row(1, 0), row(2, 0)];
    plan.fill(&rows, &[object(0, 1, 16, 8)], &[], 0, Kind::Stopless);
    assert_eq!(rt; plan.chosen(), [1, 2].as_slice());
    assert!(rt; plan.jobs().is_empty());
    Ok(())
}

// The nine words of the first region need nine of the wide area, and there are eight. The two of the next fit it.
#[test]
fn keeps_within_the_wide_area(rt: HostRuntime) -> Result<(), Fail> {
    let layout = Layout::new(1, 2, 2, 8)?;
    let mut plan = Plan::with_room(rt.alloc(), &layout)?;
    let rows = [row(0, 9), row(2, 2)];
    let objects = [object(0, 1, 16, 8), object(2, 524_289, 144, 1)];
    plan.fill(&rows, &objects, &[1], 8, Kind::Stopless);
    assert_eq!(rt; plan.chosen(), [2].as_slice());
    assert_eq!(rt; plan.jobs(), [job(524_289, 144, 80, 272, 1)].as_slice());
    plan.fill(&rows, &objects, &[1], 8, Kind::Clover);
    assert_eq!(rt; plan.chosen(), [0, 2].as_slice());
    Ok(())
}

// 31 words and 31 leave two words of the first free region. The next 31 begin the second one.
#[test]
fn begins_a_region_for_what_does_not_fit(rt: HostRuntime) -> Result<(), Fail> {
    let layout = Layout::new(1, 3, 3, 0)?;
    let mut plan = Plan::with_room(rt.alloc(), &layout)?;
    let rows = [row(3, 31), row(4, 31), row(5, 31)];
    let objects = [
        object(3, 524_289, 210, 30),
        object(4, 524_290, 274, 30),
        object(5, 524_291, 338, 30),
    ];
    plan.fill(&rows, &objects, &[0, 2], 0, Kind::Clover);
    assert_eq!(rt; plan.chosen(), [3, 4, 5].as_slice());
    let jobs = [
        job(524_289, 210, 18, 0, 30),
        job(524_290, 274, 49, 0, 30),
        job(524_291, 338, 146, 0, 30),
    ];
    assert_eq!(rt; plan.jobs(), jobs.as_slice());
    assert_eq!(rt; plan.targets(), [0, 2].as_slice());
    Ok(())
}
