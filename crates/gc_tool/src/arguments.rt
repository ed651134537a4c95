//! The words that the program was called with.

ghost use Rattle.std.specs.Prelude.{◌≡◌, ◌≤◌, ℕ, List, Option, None, length, drop, IfOk, IfSome, option_map, slice_get};
ghost use Rattle.gc_tool.specs.Outside.{IsWord};
ghost use Rattle.gc_tool.specs.Forms.{words_of};

use call_steps::OutOfMemory;
use std::alloc::{AllocError, Global};
use std::env::{Env, FillError};

/// How many bytes of a word are asked for first.
const FIRST_ROOM: usize = 256;

/// The words of a call, the program's name first. They need not be text.
pub trait Arguments {
    /// These words, where they are told.
    ghost told: { Self → Option (List (List ℕ)) };

    /// Puts the word of this place, counted from 0, at the beginning of the buffer and says how long it is.
    ///
    /// # Errors
    ///
    /// `NotPresent` after the last word, and `TooLong` where the buffer has too little room for the word.
    fn word(&self, place: usize, buffer: &mut [u8]) -> Result<usize, FillError>
        ensures fits { IfOk result (λ count. count ≤ length buffer.new) }
        ensures told { IfSome (told self.now) (λ words. IsWord words place result buffer.new) };
}

/// The words that the system gives. They are not told.
#[derive(Drop)]
pub struct SystemArguments<'a, R> {
    system: &'a R,
}

impl<'a, R: Env> SystemArguments<'a, R> {
    pub fn new(system: &'a R) -> SystemArguments<'a, R> {
        SystemArguments { system }
    }
}

impl<R: Env> Arguments for SystemArguments<'_, R> {
    ghost told = { λ _. None };

    fn word(&self, place: usize, buffer: &mut [u8]) -> Result<usize, FillError> {
        self.system.arg(place, buffer)
    }
}

/// The word of this place, or None after the last one. The room for it doubles until it fits.
fn word_at<A: Arguments>(
    alloc: Global,
    arguments: &A,
    place: usize,
) -> Result<Option<Vec<u8>>, OutOfMemory>
    ensures { IfSome (A.told arguments.now) (λ words.
        IfOk result (λ found. option_map (λ word. word.items) found ≡ slice_get words place)) }
{
    let mut room = FIRST_ROOM;
    for _ in 0..usize::BITS {
        let mut buffer = vec![in alloc; 0u8; room]?;
        match arguments.word(place, &mut buffer) {
            Ok(count) => {
                buffer.truncate(count);
                return Ok(Some(buffer));
            }
            Err(FillError::NotPresent) => return Ok(None),
            Err(FillError::TooLong) => room = room.saturating_mul(2),
        }
    }
    Err(AllocError)
}

/// The words after the program's name, each as it is.
pub fn words_after_name<A: Arguments>(
    alloc: Global,
    arguments: &A,
) -> Result<Vec<Vec<u8>>, OutOfMemory>
    ensures { IfSome (A.told arguments.now) (λ told. IfOk result (λ words. words_of words.items ≡ drop 1 told)) }
{
    let mut words = Vec::new(alloc);
    for place in 1..usize::MAX {
        match word_at(alloc, arguments, place)? {
            None => return Ok(words),
            Some(word) => words.push(word)?,
        }
    }
    Err(AllocError)
}

#[cfg(test)]
mod tests {
    use super::*;
    use std::test::Fail;

    #[derive(Drop)]
    struct Given<'a> {
        words: &'a [&'a [u8]],
    }

    impl Arguments for Given<'_> {
        ghost told = { λ _. None };

        fn word(&self, place: usize, buffer: &mut [u8]) -> Result<usize, FillError> {
            let Some(word) = self.words.get(place) else {
                return Err(FillError::NotPresent);
            };
            if word.len() > buffer.len() {
                return Err(FillError::TooLong);
            }
            buffer[..word.len()].copy_from_slice(word);
            Ok(word.len())
        }
    }

    #[test]
    fn gives_each_word_after_the_name(rt: HostRuntime) -> Result<(), Fail> {
        let alloc = rt.alloc();
        let words = [b"\xff".as_slice(), b"", b"caf\xe9", &[b'x'; 300]];
        let found = words_after_name(alloc, &Given { words: &words })?;
        assert_eq!(rt; found.len(), 3);
        for (found, word) in found.iter().zip(words.iter().skip(1)) {
            assert_eq!(rt; found.as_slice(), *word);
        }
        assert!(rt; words_after_name(alloc, &Given { words: &[] })?.is_empty());
        Ok(())
    }
}
