//! The places of a line: the words that are due, and what each must be.

ghost use Rattle.std.specs.Prelude.{◌≡◌, ◌≤◌, ◌<◌, ◌^◌, ◌+◌, ◌-◌, List, length, IfOk};
ghost use Rattle.heap_words.specs.declared.limits.TheConstants.{MOST_FIELDS, REGISTERS};
ghost use Rattle.heap_script.specs.Words.{words};
ghost use Rattle.heap_script.specs.Scripts.{OperandFits};
ghost use Rattle.heap_script.specs.Gives.{Gives};
ghost use Rattle.heap_script.specs.Grammar.{due as due_of, ended as ended_of, number_in as number_in_of, register as register_of, place as place_of, operand as operand_of};

use crate::fault::FaultKind;
use crate::words::{cut, first_byte, next_word, number};
use heap_words::{MOST_FIELDS, NUMBER_LIMIT, Operand};

/// A word that is due, and the bytes after it.
pub(crate) fn due(line: &[u8]) -> Result<(&[u8], &[u8]), FaultKind>
    ensures { Gives (λ x. (x.0.now, words x.1.now)) result (due_of (words line.now)) }
{
    match next_word(line) {
        None => Err(FaultKind::BadWord),
        Some((word, rest)) => Ok((word, rest)),
    }
}

/// No further word stands.
pub(crate) fn ended(line: &[u8]) -> Result<(), FaultKind>
    ensures { Gives (λ x. tt) result (ended_of (words line.now)) }
{
    match next_word(line) {
        None => Ok(()),
        Some(_) => Err(FaultKind::BadWord),
    }
}

/// A number from `low` to `high`, or `fault`.
#[tactic(auto, unfolding(crate::specs::Grammar::number_in))]
pub(crate) fn number_in(
    low: u64,
    high: u64,
    fault: FaultKind,
    word: &[u8],
) -> Result<u64, FaultKind>
    ensures exact { Gives (λ x. x) result (number_in_of low high fault word.now) }
    ensures within { IfOk result (λ n. (low ≤ n) × (n ≤ high)) }
{
    match number(word) {
        Some(n) if u128::from(low) <= n && n <= u128::from(high) => Ok(n as u64),
        _ => Err(fault),
    }
}

/// A letter `a` to `h`, counted from 0.
#[tactic(auto, unfolding(crate::specs::Grammar::register))]
pub(crate) fn register(word: &[u8]) -> Result<u32, FaultKind>
    ensures exact { Gives (λ x. x) result (register_of word.now) }
    ensures fits { IfOk result (λ r. r < REGISTERS) }
{
    if word.len() == 1 && b'a' <= word[0] && word[0] <= b'h' {
        Ok(u32::from(word[0] - b'a'))
    } else {
        Err(FaultKind::BadRegister)
    }
}

/// `S.F`: the register of an object, and a field.
#[tactic(auto, unfolding(crate::specs::Grammar::place))]
pub(crate) fn place(word: &[u8]) -> Result<(u32, u32), FaultKind>
    ensures exact { Gives (λ x. x) result (place_of word.now) }
    ensures fits { IfOk result (λ p. (p.0 < REGISTERS) × (p.1 ≤ MOST_FIELDS - 1)) }
{
    match cut(word, b'.') {
        None => Err(FaultKind::BadWord),
        Some((obj, field)) => {
            let obj = register(obj)?;
            let field = number_in(0, u64::from(MOST_FIELDS - 1), FaultKind::BadNumber, field)?;
            Ok((obj, field as u32))
        }
    }
}

/// A number below 2^48, or a register.
#[tactic(auto, unfolding(crate::specs::Grammar::operand))]
pub(crate) fn operand(word: &[u8]) -> Result<Operand, FaultKind>
    ensures exact { Gives (λ x. x) result (operand_of word.now) }
    ensures fits { IfOk result OperandFits }
{
    if first_byte(word).is_ascii_digit() {
        let n = number_in(0, NUMBER_LIMIT - 1, FaultKind::BadNumber, word)?;
        Ok(Operand::Num(n))
    } else {
        let r = register(word)?;
        Ok(Operand::Reg(r))
    }
}
