//! The tree of values that a JSON text stands for.
ghost use Rattle.std.specs.Prelude.{◌≡◌, ◌≢◌, Some, None, MatchOption, AllPairs};
ghost use Rattle.json_tree.specs.Keys.{value_of, keys_of};
ghost use Rattle.json_tree.specs.Tree.{null};

use crate::members::Members;
use arrow_core::{Error, Items, Reason, Text};
use std::mem::{self, ManuallyDrop};

/// A JSON number as it is encoded (RFC 8259, section 6): the mantissa, which is all that stands
/// before `e` or `E`, and the exponent, which is what follows with any sign, or is empty.
#[derive(Debug, Drop)]
pub enum Number {
    /// The mantissa has no point.
    Integer(Text, Text),
    /// The mantissa has a point.
    Float(Text, Text),
}

/// What a JSON text stands for (RFC 8259, section 3).
#[cycle(types)]
#[derive(Drop)]
pub enum Value {
    /// `null`.
    Null,
    /// `true` or `false`.
    Bool(bool),
    /// A number, as it is encoded.
    Number(Number),
    /// The text that a string stands for, with a character in place of each escape.
    String(Text),
    /// The items of an array, in the order of the text.
    Array(Items<Value>),
    /// The members of an object, each key once, in the order in which the keys first stand.
    Object(Object),
}

/// The members of a JSON object (RFC 8259, section 4), in the order in which their keys first
/// stand. Each key stands once: where a text names a key again, the key stays at its first index
/// and takes its last value.
#[cycle(types)]
#[derive(Drop)]
pub struct Object {
    pub(crate) members: Members<Value>,
}

/// Why bytes give no JSON value.
#[derive(Clone, Copy, PartialEq, Eq, Debug)]
pub enum JsonFault {
    /// The bytes are no JSON text.
    Text,
    /// More than 128 brackets are open at once.
    Depth,
    /// There is no memory.
    Memory,
}

/// A type with a value that holds nothing. Another value is then read over it.
pub(crate) trait Blank: Drop {
    fn blank() -> Self;
}

impl Blank for Value {
    fn blank() -> Value {
        Value::Null
    }
}

impl Value {
    // Lets go what this value owns.
    #[cold]
    #[inline(never)]
    fn clear(&mut self)
        ensures { self.new ≡ null }
    {
        *self = Value::Null;
    }

    /// Becomes this value. What stood here is mostly `Null`, which owns nothing and needs no drop.
    /// A drop would look for the kind of the old value each time.
    #[inline(always)]
    pub(crate) fn fill(&mut self, value: Value)
        ensures { self.new ≡ value }
    {
        if !matches!(*self, Value::Null) {
            self.clear();
        }
        let _null = ManuallyDrop::new(mem::replace(self, value));
    }
}

impl Object {
    /// The members in order, as pairs of key and value.
    pub fn members(&self) -> &[(Text, Value)]
        ensures members { result.now ≡ self.now.members }
        ensures distinct { AllPairs (λ one other. one ≢ other) (keys_of self.now.members) }
    {
        self.members.as_slice()
    }

    /// The key's value, or `None` exactly where no member has the key.
    pub fn get(&self, key: &str) -> Option<&Value>
        ensures { MatchOption result (value_of key.now self.now.members ≡ None)
            (λ v. value_of key.now self.now.members ≡ Some v.now) }
    {
        self.members.get(key)
    }

    /// The same of a key that mostly stands at the index `near`, where it is looked for first.
    pub fn get_near(&self, near: usize, key: &str) -> Option<&Value>
        ensures { MatchOption result (value_of key.now self.now.members ≡ None)
            (λ v. value_of key.now self.now.members ≡ Some v.now) }
    {
        self.members.get_near(near, key)
    }
}

impl From<JsonFault> for Error {
    ghost use Rattle.json_tree.specs.Meaning.{IsErrorOf};

    ghost from_gives = { IsErrorOf };

    fn from(fault: JsonFault) -> Error {
        match fault {
            JsonFault::Text => Error::ExternalFormat(Reason::Json),
            JsonFault::Depth => Error::LimitExceeded,
            JsonFault::Memory => Error::OutOfMemory,
        }
    }
}
