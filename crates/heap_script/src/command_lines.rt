//! The lines after the heap line.

ghost use Rattle.std.specs.Prelude.{◌≡◌, ◌<◌, IfOk, IfSome};
ghost use Rattle.heap_script.specs.Words.{words};
ghost use Rattle.heap_script.specs.Scripts.{CommandFits, LineFits};
ghost use Rattle.heap_script.specs.Gives.{Gives};
ghost use Rattle.heap_script.specs.Grammar.{new_arguments as new_arguments_of, get_arguments as get_arguments_of, put_arguments as put_arguments_of, cas_arguments as cas_arguments_of, copy_arguments as copy_arguments_of, drop_arguments as drop_arguments_of, poll_arguments as poll_arguments_of, arguments as arguments_of, command as command_of, command_line as command_line_of};

use crate::fault::FaultKind;
use crate::places::{due, ended, number_in, operand, place, register};
use crate::script::{Command, Line};
use crate::words::{all_printable, passed_over};
use heap_words::MOST_FIELDS;

/// `R N`, after `new`.
#[tactic(auto, unfolding(crate::specs::Grammar::new_arguments))]
fn new_arguments(line: &[u8]) -> Result<Command, FaultKind>
    ensures exact { Gives (λ x. x) result (new_arguments_of (words line.now)) }
    ensures fits { IfOk result CommandFits }
{
    let (word, rest) = due(line)?;
    let dst = register(word)?;
    let (word, rest) = due(rest)?;
    let len = number_in(0, u64::from(MOST_FIELDS), FaultKind::BadNumber, word)?;
    ended(rest)?;
    Ok(Command::New {
        dst,
        len: len as u32,
    })
}

/// `R S.F`, after `get`.
#[tactic(auto, unfolding(crate::specs::Grammar::get_arguments))]
fn get_arguments(line: &[u8]) -> Result<Command, FaultKind>
    ensures exact { Gives (λ x. x) result (get_arguments_of (words line.now)) }
    ensures fits { IfOk result CommandFits }
{
    let (word, rest) = due(line)?;
    let dst = register(word)?;
    let (word, rest) = due(rest)?;
    let (obj, field) = place(word)?;
    ended(rest)?;
    Ok(Command::Get { dst, obj, field })
}

/// `S.F V`, after `put`.
#[tactic(auto, unfolding(crate::specs::Grammar::put_arguments))]
fn put_arguments(line: &[u8]) -> Result<Command, FaultKind>
    ensures exact { Gives (λ x. x) result (put_arguments_of (words line.now)) }
    ensures fits { IfOk result CommandFits }
{
    let (word, rest) = due(line)?;
    let (obj, field) = place(word)?;
    let (word, rest) = due(rest)?;
    let what = operand(word)?;
    ended(rest)?;
    Ok(Command::Put { obj, field, what })
}

/// `R S.F V V`, after `cas`.
#[tactic(auto, unfolding(crate::specs::Grammar::cas_arguments))]
fn cas_arguments(line: &[u8]) -> Result<Command, FaultKind>
    ensures exact { Gives (λ x. x) result (cas_arguments_of (words line.now)) }
    ensures fits { IfOk result CommandFits }
{
    let (word, rest) = due(line)?;
    let dst = register(word)?;
    let (word, rest) = due(rest)?;
    let (obj, field) = place(word)?;
    let (word, rest) = due(rest)?;
    let expected = operand(word)?;
    let (word, rest) = due(rest)?;
    let value = operand(word)?;
    ended(rest)?;
    Ok(Command::Cas {
        dst,
        obj,
        field,
        expected,
        value,
    })
}

/// `R S`, after `copy`.
#[tactic(auto, unfolding(crate::specs::Grammar::copy_arguments))]
fn copy_arguments(line: &[u8]) -> Result<Command, FaultKind>
    ensures exact { Gives (λ x. x) result (copy_arguments_of (words line.now)) }
    ensures fits { IfOk result CommandFits }
{
    let (word, rest) = due(line)?;
    let dst = register(word)?;
    let (word, rest) = due(rest)?;
    let src = register(word)?;
    ended(rest)?;
    Ok(Command::Copy { dst, src })
}

/// `R`, after `drop`.
#[tactic(auto, unfolding(crate::specs::Grammar::drop_arguments))]
fn drop_arguments(line: &[u8]) -> Result<Command, FaultKind>
    ensures exact { Gives (λ x. x) result (drop_arguments_of (words line.now)) }
    ensures fits { IfOk result CommandFits }
{
    let (word, rest) = due(line)?;
    let dst = register(word)?;
    ended(rest)?;
    Ok(Command::Drop { dst })
}

/// Nothing, after `poll`.
#[tactic(auto, unfolding(crate::specs::Grammar::poll_arguments))]
fn poll_arguments(line: &[u8]) -> Result<Command, FaultKind>
    ensures exact { Gives (λ x. x) result (poll_arguments_of (words line.now)) }
    ensures fits { IfOk result CommandFits }
{
    ended(line)?;
    Ok(Command::Poll)
}

/// What stands after a command's name.
#[tactic(auto, unfolding(crate::specs::Grammar::arguments))]
fn arguments(name: &[u8], line: &[u8]) -> Result<Command, FaultKind>
    ensures exact { Gives (λ x. x) result (arguments_of name.now (words line.now)) }
    ensures fits { IfOk result CommandFits }
{
    if name == b"new".as_slice() {
        new_arguments(line)
    } else if name == b"get".as_slice() {
        get_arguments(line)
    } else if name == b"put".as_slice() {
        put_arguments(line)
    } else if name == b"cas".as_slice() {
        cas_arguments(line)
    } else if name == b"copy".as_slice() {
        copy_arguments(line)
    } else if name == b"drop".as_slice() {
        drop_arguments(line)
    } else if name == b"poll".as_slice() {
        poll_arguments(line)
    } else {
        Err(FaultKind::BadWord)
    }
}

/// `T NAME ..`, with one of `passes` threads.
#[tactic(auto, unfolding(crate::specs::Grammar::command))]
fn command(passes: u32, line: &[u8]) -> Result<Line, FaultKind>
    ensures exact { Gives (λ x. x) result (command_of passes (words line.now)) }
    ensures fits { IfOk result (LineFits passes) }
{
    let (word, rest) = due(line)?;
    let thread = number_in(1, u64::from(passes), FaultKind::BadThread, word)?;
    let (name, rest) = due(rest)?;
    let command = arguments(name, rest)?;
    Ok(Line {
        thread: thread as u32,
        command,
    })
}

/// What a line says after the heap line and `count` commands: nothing, or a command.
#[tactic(auto, unfolding(crate::specs::Grammar::command_line))]
pub(crate) fn command_line(
    passes: u32,
    count: usize,
    line: &[u8],
) -> Result<Option<Line>, FaultKind>
    ensures exact { Gives (λ x. x) result (command_line_of passes count line.now) }
    ensures fits { IfOk result (λ said. IfSome said (λ l. LineFits passes l × (count < 65536))) }
{
    if !all_printable(line) {
        Err(FaultKind::NotAscii)
    } else if passed_over(line) {
        Ok(None)
    } else if 65_536 <= count {
        Err(FaultKind::TooManyLines)
    } else {
        let c = command(passes, line)?;
        Ok(Some(c))
    }
}
