//! Words that one thread steps on.

ghost use Rattle.std.specs.Prelude.{◌≡◌, ◌≢◌, ℕ, ◌<◌, ◌^◌, length, slice_index, slice_set, replicate, IfOk};
ghost use Rattle.call_steps.specs.Steps.{applied, found_by, place_of, IsInside, AreWords};

use crate::step::Step;
use std::alloc::{AllocError, Global};
use std::marker::Model;

/// There was no memory.
pub type OutOfMemory = AllocError;

/// A fixed number of words, below 2^32, at the addresses from 0 on. Contracts see the list of them.
#[derive(Debug, Drop)]
pub struct PlainWords {
    words: Vec<u64>,
}

impl Model for PlainWords {
    ghost use Rattle.std.specs.Prelude.{List, ℕ, ◌<◌, ◌^◌, length};

    ghost Value = { List ℕ };

    ghost view = { λ w. w.words.items };

    ghost invariant = { λ w. length w.words.items < 2 ^ 32 };
}

impl PlainWords {
    /// `len` words, each of them 0. The only error is want of memory.
    pub fn zeros(alloc: Global, len: u32) -> Result<PlainWords, OutOfMemory>
        ensures { IfOk result (λ words. words ≡ replicate len 0) }
    {
        let words = vec![in alloc; 0u64; len as usize]?;
        Ok(PlainWords { words })
    }

    /// Does the step, and gives the word that stood there before it. An exchange puts only where the
    /// word is the wanted one, Add and Sub wrap at 2^64, and Ended changes nothing and gives 0.
    pub fn apply(&mut self, step: Step) -> u64
        requires { IsInside (length self.old) step }
        ensures words { self.new ≡ applied step self.old }
        ensures found { result ≡ found_by step self.old }

        // At most the word on which it steps changes.
        ensures others { (at : ℕ) → at ≢ place_of step
            → slice_index self.new at ≡ slice_index self.old at }
        ensures len { length self.new ≡ length self.old }
    {
        match step {
            Step::Load { at } => self.word(at),
            Step::Store { at, put } => self.replace(at, put),
            Step::Exchange { at, want, put } => {
                let found = self.word(at);
                if found == want {
                    self.replace(at, put);
                }
                found
            }
            Step::Add { at, by } => {
                let found = self.word(at);
                self.replace(at, found.wrapping_add(by))
            }
            Step::Sub { at, by } => {
                let found = self.word(at);
                self.replace(at, found.wrapping_sub(by))
            }
            Step::Ended => 0,
        }
    }

    // Puts a word, and gives the one that stood there before it.
    fn replace(&mut self, place: u32, put: u64) -> u64
        requires { place < length self.old }
        ensures words { self.new ≡ slice_set self.old place put }
        ensures found { result ≡ slice_index self.old place }
    {
        let found = self.words[place as usize];
        self.words[place as usize] = put;
        found
    }

    /// The word at an address.
    pub fn word(&self, at: u32) -> u64
        requires { at < length self.now }
        ensures { result ≡ slice_index self.now at }
    {
        self.words[at as usize]
    }

    /// How many words there are.
    pub fn len(&self) -> u32
        ensures number { result ≡ length self.now }
        ensures fits { AreWords self.now }
    {
        let words = self.words.as_slice();
        words.len() as u32
    }
}
