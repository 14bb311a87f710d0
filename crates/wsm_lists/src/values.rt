// Values of data elements.
ghost use Rattle.std.specs.{Prelude.{◌≡◌, ◌≤◌, ◌<◌, ◌++◌, [], take, length, IfOk, IfSome, IsSome, ◌↔◌, IsTrue}, Option.option_copied};
ghost use Rattle.wsm_lists.specs.Values.{kind_of, same_value, same_option_value, value_in};

use crate::NoMemory;
use crate::listings::Listing;
use std::alloc::Global;
use std::marker::Model;

/// What an element may hold.
#[derive(Clone, Copy, PartialEq, Eq, Debug)]
pub enum ElementKind {
    Int,
    Text,
}

/// A value of an element.
#[derive(Drop)]
pub enum Value {
    Int(i64),
    Text(ShortText),
}

/// A text of at most 256 bytes.
#[derive(Drop)]
pub struct ShortText {
    bytes: Vec<u8>,
}

impl Model for ShortText {
    ghost use Rattle.std.specs.Prelude.{ℕ, List, ◌≤◌, length};

    ghost Value = { List ℕ };

    ghost view = { λ a. a.bytes.items };

    ghost invariant = { λ a. length a.bytes.items ≤ 256 };
}

/// The elements that a start read, each with its value, or None where it had none.
pub type ReadValues = Listing<(u32, Option<Value>)>;

/// The elements that were written, each with its value.
pub type Writes = Listing<(u32, Value)>;

impl ShortText {
    /// The text of these bytes. None where there are more than 256.
    pub fn of(alloc: Global, bytes: &[u8]) -> Result<Option<ShortText>, NoMemory>
        ensures short { IfOk result (λ text. IsSome text ↔ (length bytes.now ≤ 256)) }
        ensures same { IfOk result (λ text. IfSome text (λ t. t ≡ bytes.now)) }
    {
        if bytes.len() > 256 {
            return Ok(None);
        }
        Ok(Some(ShortText {
            bytes: Vec::from_slice(alloc, bytes)?,
        }))
    }

    /// The bytes of the text.
    pub fn bytes(&self) -> &[u8]
        ensures bytes { result.now ≡ self.now }
        ensures short { length result.now ≤ 256 }
    {
        &self.bytes
    }

    /// An equal text.
    pub fn copy(&self, alloc: Global) -> Result<ShortText, NoMemory>
        ensures { IfOk result (λ new. new ≡ self.now) }
    {
        Ok(ShortText {
            bytes: Vec::from_slice(alloc, &self.bytes)?,
        })
    }
}

impl Value {
    /// What kind of value it is.
    pub fn kind(&self) -> ElementKind
        ensures { result ≡ kind_of self.now }
    {
        match self {
            Value::Int(_) => ElementKind::Int,
            Value::Text(_) => ElementKind::Text,
        }
    }

    /// An equal value.
    pub fn copy(&self, alloc: Global) -> Result<Value, NoMemory>
        ensures { IfOk result (λ new. new ≡ self.now) }
    {
        match self {
            Value::Int(n) => Ok(Value::Int(*n)),
            Value::Text(text) => Ok(Value::Text(text.copy(alloc)?)),
        }
    }

    /// Whether two values are equal.
    pub fn same(&self, other: &Value) -> bool
        ensures same { result ≡ same_value self.now other.now }
        ensures equal { IsTrue result ↔ (self.now ≡ other.now) }
    {
        match (self, other) {
            (Value::Int(a), Value::Int(b)) => a == b,
            (Value::Text(a), Value::Text(b)) => a.bytes() == b.bytes(),
            _ => false,
        }
    }
}

impl Listing<(u32, Value)> {
    /// The value that these writes give to an element: the first, where several name it.
    pub fn value(&self, element: u32) -> Option<&Value>
        ensures { option_copied result ≡ value_in element self.now }
    {
        for write in self.as_slice() {
            if write.0 == element {
                return Some(&write.1);
            }
        }
        None
    }

    /// Equal writes.
    pub fn duplicate(&self, alloc: Global) -> Result<Writes, NoMemory>
        ensures { IfOk result (λ new. new ≡ self.now) }
    {
        let mut writes = Vec::new(alloc);
        for write in self.as_slice() {
            writes.push((write.0, write.1.copy(alloc)?))?;
        }
        Ok(Writes::from_vec(writes))
    }
}

impl Listing<(u32, Option<Value>)> {
    /// Equal reads.
    pub fn duplicate(&self, alloc: Global) -> Result<ReadValues, NoMemory>
        ensures { IfOk result (λ new. new ≡ self.now) }
    {
        let mut reads = Vec::new(alloc);
        for read in self.as_slice() {
            reads.push((read.0, copy_option(alloc, read.1.as_ref())?))?;
        }
        Ok(ReadValues::from_vec(reads))
    }
}

/// An equal value, or None where there is none.
pub fn copy_option(alloc: Global, value: Option<&Value>) -> Result<Option<Value>, NoMemory>
    ensures { IfOk result (λ new. new ≡ option_copied value.entry) }
{
    match value {
        None => Ok(None),
        Some(value) => Ok(Some(value.copy(alloc)?)),
    }
}
