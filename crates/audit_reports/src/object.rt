//! Objects of JSON, made member by member. `json!` makes the same, but takes the prover four times as long:
//! what it has made so far is left to drop wherever the next step fails.

use serde_json::{Map, Value};
use std::alloc::{AllocError, Global};

#[derive(Drop)]
pub(crate) struct Object {
    alloc: Global,
    members: Map<String, Value>,
}

impl Object {
    pub(crate) fn new(alloc: Global) -> Self {
        Object {
            alloc,
            members: Map::new(alloc),
        }
    }

    /// The object with one more member, or the error that its value is.
    pub(crate) fn with(
        self,
        name: &str,
        value: Result<Value, AllocError>,
    ) -> Result<Self, AllocError> {
        let mut object = self;
        serde_json::put(&mut object.members, object.alloc, name, value?)?;
        Ok(object)
    }

    pub(crate) fn text(self, name: &str, text: &str) -> Result<Self, AllocError> {
        let value = Value::try_from_str(self.alloc, text);
        self.with(name, value)
    }

    pub(crate) fn value(self) -> Value {
        Value::Object(self.members)
    }
}

pub(crate) fn with_one(
    alloc: Global,
    name: &str,
    value: Result<Value, AllocError>,
) -> Result<Value, AllocError> {
    Ok(Object::new(alloc).with(name, value)?.value())
}

pub(crate) fn array_of_one(
    alloc: Global,
    value: Result<Value, AllocError>,
) -> Result<Value, AllocError> {
    let mut list = Vec::new(alloc);
    list.push(value?)?;
    Ok(Value::Array(list))
}
