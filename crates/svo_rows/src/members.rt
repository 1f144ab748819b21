//! Values of the table, read key by key: a derived reader, which keeps what it has of each field through a
//! loop over the keys, costs far more to prove than a call for each.

use crate::faults::{RowFault, malformed};
use serde::DeserializeOwned;
use serde_json::{Value, from_value};
use std::alloc::Global;
use std::collections::BTreeMap;

/// What is read of a value of the table.
pub trait FromValue: Sized + Drop {
    /// Reads it. A value of another form is a fault that says so.
    fn read(alloc: Global, value: Value) -> Result<Self, RowFault>;
}

/// Reads each value of a list.
pub fn read_all<T: FromValue>(alloc: Global, values: Vec<Value>) -> Result<Vec<T>, RowFault> {
    let mut all = Vec::new(alloc);
    for value in values {
        all.push(T::read(alloc, value)?)?;
    }
    Ok(all)
}

/// Reads a value that may not be there.
pub fn read_if<T: FromValue>(alloc: Global, value: Option<Value>) -> Result<Option<T>, RowFault> {
    match value {
        None => Ok(None),
        Some(value) => Ok(Some(T::read(alloc, value)?)),
    }
}

/// A number, a text, a list of such, or any value, that stands behind a key.
pub fn plain<T: DeserializeOwned + Drop>(
    alloc: Global,
    key: &str,
    value: Value,
) -> Result<T, RowFault> {
    match from_value::<T>(alloc, value) {
        Ok(read) => Ok(read),
        Err(error) => Err(RowFault::Malformed(format!(in alloc; "{key}: {error}")?)),
    }
}

/// The one key of an object, and its value.
pub fn only_member(alloc: Global, value: Value) -> Result<(String, Value), RowFault> {
    let mut members = Members::of(alloc, value)?;
    match members.left.pop_first() {
        None => Err(malformed(alloc, "one key is wanted")),
        Some(member) => {
            members.end(alloc)?;
            Ok(member)
        }
    }
}

/// A fault that names a key which says nothing here.
pub fn unknown_key<T>(alloc: Global, key: &str) -> Result<T, RowFault> {
    Err(RowFault::Malformed(format!(in alloc; "unknown field `{key}`")?))
}

/// The members of an object that were not read yet.
#[derive(Drop)]
pub struct Members {
    left: BTreeMap<String, Value>,
}

impl Members {
    /// The members of an object; another value is no object.
    pub fn of(alloc: Global, value: Value) -> Result<Members, RowFault> {
        match value {
            Value::Object(left) => Ok(Members { left }),
            _ => Err(malformed(alloc, "an object is wanted")),
        }
    }

    /// Whether the object has a key that was not read yet.
    pub fn has(&self, key: &str) -> bool {
        self.left.contains_key(key)
    }

    /// The value of a key, if the object has it.
    pub fn optional<T: DeserializeOwned + Drop>(
        &mut self,
        alloc: Global,
        key: &str,
    ) -> Result<Option<T>, RowFault> {
        match self.left.remove(key) {
            None => Ok(None),
            Some(value) => Ok(Some(plain(alloc, key, value)?)),
        }
    }

    /// The value of a key, or another where the object does not have it.
    pub fn or<T: DeserializeOwned + Drop>(
        &mut self,
        alloc: Global,
        key: &str,
        usual: T,
    ) -> Result<T, RowFault> {
        match self.optional(alloc, key)? {
            Some(read) => Ok(read),
            None => Ok(usual),
        }
    }

    /// The value of a key that the object must have.
    pub fn required<T: DeserializeOwned + Drop>(
        &mut self,
        alloc: Global,
        key: &str,
    ) -> Result<T, RowFault> {
        match self.optional(alloc, key)? {
            Some(read) => Ok(read),
            None => Err(RowFault::Malformed(format!(in alloc; "missing field `{key}`")?)),
        }
    }

    /// Refuses a key that nothing asked for.
    pub fn end(&self, alloc: Global) -> Result<(), RowFault> {
        match self.left.keys().next() {
            None => Ok(()),
            Some(key) => unknown_key(alloc, key.as_str()),
        }
    }
}
