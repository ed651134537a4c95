//! The fixed heap.

ghost use Rattle.std.specs.Prelude.{◌≡◌, ℕ, None, Some, IsSome, IfOk, OnOk, OnErr, MatchOption, is_some};
ghost use Rattle.heap_history.specs.declared.call.Reply.TheVariants.{Made};
ghost use Rattle.heap_history.specs.FixedHeaps.{opening, fields_of, is_birth_of, is_there, value_in, write_in, answer, after};

use crate::call::{Call, Reply, Value};
use heap_words::{BIRTHS_BETWEEN_PASSES, BIRTHS_OF_PASS, COMMON_BIRTH, COMMON_LEN};
use std::alloc::{AllocError, Global};
use std::collections::BTreeMap;
use std::marker::Model;

/// There was no memory left.
pub type OutOfMemory = AllocError;

/// A heap whose objects never move. Each object has a birth number and fields, and none is ever removed.
/// It is seen as the list of its birth numbers, in rising order, with the values of the fields.
#[derive(Debug, Drop)]
pub struct FixedHeap {
    alloc: Global,
    common: [Value; COMMON_LEN as usize],
    made: BTreeMap<u32, Vec<Value>>,
}

impl Model for FixedHeap {
    ghost use Rattle.std.specs.Prelude.{◌∷◌};
    ghost use Rattle.heap_words.specs.declared.limits.TheConstants.{COMMON_BIRTH};
    ghost use Rattle.heap_history.specs.FixedHeaps.{Heap, objects_of};

    ghost Value = { Heap };

    ghost view = { λ heap. (COMMON_BIRTH, heap.common) ∷ objects_of heap.made.entries };
}

/// Whether a birth number is one of the pass.
fn is_birth_of(pass: u32, birth: u32) -> bool
    ensures { result ≡ is_birth_of pass birth }
{
    let base = pass as u64 * u64::from(BIRTHS_BETWEEN_PASSES);
    base < birth as u64 && birth as u64 <= base + u64::from(BIRTHS_OF_PASS)
}

impl FixedHeap {
    /// A heap with the one object that is there from the start: birth number 1, and eight fields of 0.
    /// That takes no memory; later objects take it from `alloc`.
    pub fn opening(alloc: Global) -> FixedHeap
        ensures { result ≡ opening }
    {
        FixedHeap {
            alloc,
            common: [Value::Num(0); COMMON_LEN as usize],
            made: BTreeMap::new(alloc),
        }
    }

    /// The fields of an object, or `None` where it is not there.
    fn fields(&self, object: u32) -> Option<&[Value]>
        ensures { MatchOption result (fields_of self.now object ≡ None)
            (λ values. fields_of self.now object ≡ Some values.now) }
    {
        if object == COMMON_BIRTH {
            return Some(&self.common);
        }
        match self.made.get(&object) {
            None => None,
            Some(values) => Some(values),
        }
    }

    /// The value of a field, or `None` where the object or the field is not there. Takes no memory.
    pub fn look(&self, object: u32, field: u32) -> Option<Value>
        ensures { result ≡ value_in self.now object field }
    {
        self.fields(object)?.get(field as usize).copied()
    }

    /// Answers a call, and does what it asks.
    ///
    /// The reply is `NotThere`, and nothing changes, exactly where a named object or field is not there;
    /// where the new value of a write or an exchange names an object that is not there; or where the birth
    /// number of a new object is there already, or is not p * 524,288 + s for its pass p and an s from 1 to
    /// 262,144. The value that an exchange expects may name any object.
    ///
    /// # Errors
    ///
    /// `OutOfMemory` comes only for a call that would be answered `Made`, and leaves the heap unchanged.
    pub fn apply(&mut self, call: Call) -> Result<Reply, OutOfMemory>
        ensures reply { IfOk result (λ reply. reply ≡ answer self.old call) }
        ensures heap { OnOk result (self.new ≡ after self.old call) }
        ensures memory { OnErr result (answer self.old call ≡ Made) }
        ensures err { OnErr result (self.new ≡ self.old) }
    {
        match call {
            Call::NewObject { pass, birth, len } => self.make(pass, birth, len),
            Call::Read { object, field, .. } => Ok(match self.look(object, field) {
                Some(value) => Reply::Got(value),
                None => Reply::NotThere,
            }),
            Call::Write {
                object,
                field,
                value,
                ..
            } => Ok(self.write(object, field, value)),
            Call::Exchange {
                object,
                field,
                expected,
                value,
                ..
            } => Ok(self.exchange(object, field, expected, value)),
        }
    }

    /// Makes an object of zeros.
    fn make(&mut self, pass: u32, birth: u32, len: u32) -> Result<Reply, OutOfMemory>
        ensures reply { IfOk result (λ reply. reply ≡ answer self.old (Call.NewObject pass birth len)) }
        ensures heap { OnOk result (self.new ≡ after self.old (Call.NewObject pass birth len)) }
        ensures memory { OnErr result (answer self.old (Call.NewObject pass birth len) ≡ Made) }
        ensures err { OnErr result (self.new ≡ self.old) }
    {
        if !is_birth_of(pass, birth) || self.has(birth) {
            return Ok(Reply::NotThere);
        }
        let zeros = vec![in self.alloc; Value::Num(0); len as usize]?;
        self.made.insert(birth, zeros)?;
        Ok(Reply::Made)
    }

    /// Whether an object is there.
    fn has(&self, birth: u32) -> bool
        ensures { result ≡ is_some (fields_of self.now birth) }
    {
        birth == COMMON_BIRTH || self.made.contains_key(&birth)
    }

    /// Whether what a value names is there.
    fn is_there(&self, value: Value) -> bool
        ensures { result ≡ is_there self.now value }
    {
        match value {
            Value::Num(_) => true,
            Value::Object(birth) => self.has(birth),
        }
    }

    /// Sets a field that is there, in place.
    fn set(&mut self, object: u32, field: u32, value: Value)
        requires { IsSome (value_in self.old object field) }
        ensures { self.new ≡ write_in self.old object field value }
    {
        if object == COMMON_BIRTH {
            self.common[field as usize] = value;
        } else if let Some(values) = self.made.get_mut(&object) {
            values[field as usize] = value;
        }
    }

    /// Writes a field.
    fn write(&mut self, object: u32, field: u32, value: Value) -> Reply
        ensures reply { (pass : ℕ) → result ≡ answer self.old (Call.Write pass object field value) }
        ensures heap { (pass : ℕ) → self.new ≡ after self.old (Call.Write pass object field value) }
    {
        if !self.is_there(value) || self.look(object, field).is_none() {
            return Reply::NotThere;
        }
        self.set(object, field, value);
        Reply::Wrote
    }

    /// Writes a field that holds the expected value.
    fn exchange(&mut self, object: u32, field: u32, expected: Value, value: Value) -> Reply
        ensures reply { (pass : ℕ) → result ≡ answer self.old (Call.Exchange pass object field expected value) }
        ensures heap { (pass : ℕ) → self.new ≡ after self.old (Call.Exchange pass object field expected value) }
    {
        if !self.is_there(value) {
            return Reply::NotThere;
        }
        match self.look(object, field) {
            None => Reply::NotThere,
            Some(held) if held != expected => Reply::Differs(held),
            Some(_) => {
                self.set(object, field, value);
                Reply::Done
            }
        }
    }
}
