//! The heap line, and the lines before it.

ghost use Rattle.std.specs.Prelude.{◌≡◌, ◌≤◌, ◌^◌, IfOk, IfSome, MatchResult};
ghost use Rattle.heap_words.specs.Layouts.{IsLayout};
ghost use Rattle.heap_script.specs.declared.fault.FaultKind.TheVariants.{BadLayout};
ghost use Rattle.heap_script.specs.Words.{words};
ghost use Rattle.heap_script.specs.Gives.{Gives};
ghost use Rattle.heap_script.specs.Grammar.{keyword as keyword_of, any_number as any_number_of, within_limits as within_limits_of, heading as heading_of, heap_line as heap_line_of};

use crate::fault::FaultKind;
use crate::places::{due, ended};
use crate::words::{all_printable, number, passed_over};
use heap_words::Layout;

/// The bytes after `name`, or `fault` where another word stands.
#[tactic(auto, unfolding(crate::specs::Grammar::keyword))]
fn keyword<'a>(name: &[u8], fault: FaultKind, line: &'a [u8]) -> Result<&'a [u8], FaultKind>
    ensures { Gives (λ x. words x.now) result (keyword_of name.now fault (words line.now)) }
{
    let (word, rest) = due(line)?;
    if word == name { Ok(rest) } else { Err(fault) }
}

/// A number of any size, and the bytes after it.
#[tactic(auto, unfolding(crate::specs::Grammar::any_number))]
fn any_number(line: &[u8]) -> Result<(u128, &[u8]), FaultKind>
    ensures { Gives (λ x. (x.0, words x.1.now)) result (any_number_of (words line.now)) }
{
    let (word, rest) = due(line)?;
    match number(word) {
        None => Err(FaultKind::BadNumber),
        Some(n) => Ok((n, rest)),
    }
}

/// The number, where a u32 holds it: each limit is far below.
fn small(n: u128) -> Result<u32, FaultKind>
    ensures { MatchResult result (λ m. m ≡ n) (λ kind. (kind ≡ BadLayout) × (2 ^ 32 ≤ n)) }
{
    if n <= u128::from(u32::MAX) {
        Ok(n as u32)
    } else {
        Err(FaultKind::BadLayout)
    }
}

/// The layout and the cycles, where the numbers are within their limits.
#[tactic(auto, unfolding(crate::specs::Grammar::within_limits))]
fn within_limits(
    passes: u128,
    quota: u128,
    pool: u128,
    wide: u128,
    cycles: u128,
) -> Result<(Layout, u32), FaultKind>
    ensures exact { Gives (λ x. x) result (within_limits_of (record { passes = passes; quota = quota; pool = pool; wide = wide }) cycles) }
    ensures fits { IfOk result (λ h. IsLayout h.0 × (h.1 ≤ 64)) }
{
    let passes = small(passes)?;
    let quota = small(quota)?;
    let pool = small(pool)?;
    let wide = small(wide)?;
    match Layout::new(passes, quota, pool, wide) {
        Ok(layout) if cycles <= 64 => Ok((layout, cycles as u32)),
        _ => Err(FaultKind::BadLayout),
    }
}

/// The words of the heap line.
#[tactic(auto, unfolding(crate::specs::Grammar::heading))]
fn heading(line: &[u8]) -> Result<(Layout, u32), FaultKind>
    ensures exact { Gives (λ x. x) result (heading_of (words line.now)) }
    ensures fits { IfOk result (λ h. IsLayout h.0 × (h.1 ≤ 64)) }
{
    let rest = keyword(b"heap", FaultKind::NoHeapLine, line)?;
    let (passes, rest) = any_number(rest)?;
    let rest = keyword(b"threads", FaultKind::BadWord, rest)?;
    let (quota, rest) = any_number(rest)?;
    let rest = keyword(b"quota", FaultKind::BadWord, rest)?;
    let (pool, rest) = any_number(rest)?;
    let rest = keyword(b"pool", FaultKind::BadWord, rest)?;
    let (wide, rest) = any_number(rest)?;
    let rest = keyword(b"wide", FaultKind::BadWord, rest)?;
    let (cycles, rest) = any_number(rest)?;
    let rest = keyword(b"cycles", FaultKind::BadWord, rest)?;
    ended(rest)?;
    within_limits(passes, quota, pool, wide, cycles)
}

/// What a line says before the heap line has come: nothing, or the layout and the cycles.
#[tactic(auto, unfolding(crate::specs::Grammar::heap_line))]
pub(crate) fn heap_line(line: &[u8]) -> Result<Option<(Layout, u32)>, FaultKind>
    ensures exact { Gives (λ x. x) result (heap_line_of line.now) }
    ensures fits { IfOk result (λ said. IfSome said (λ h. IsLayout h.0 × (h.1 ≤ 64))) }
{
    if !all_printable(line) {
        Err(FaultKind::NotAscii)
    } else if passed_over(line) {
        Ok(None)
    } else {
        let h = heading(line)?;
        Ok(Some(h))
    }
}
