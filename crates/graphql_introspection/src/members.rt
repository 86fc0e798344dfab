//! The members of the answer. Each call begins with the path at an object. One that enters leaves it at the member, and any other at the
//! object; after an error the path leads to what is wrong.

use super::errors::{Problem, Refusal};
use super::names::is_name;
use super::paths::Path;
use json::Value;

fn string_of<'a>(value: &Value<'a>) -> Result<&'a str, Problem> {
    value.as_str().ok_or(Problem::NotAString)
}

fn name_of<'a>(value: &Value<'a>) -> Result<&'a str, Problem> {
    let name = string_of(value)?;
    if is_name(name) {
        Ok(name)
    } else {
        Err(Problem::NotAName)
    }
}

/// The items of a list.
pub(crate) fn items_of<'v, 'a>(value: &'v Value<'a>) -> Result<&'v [Value<'a>], Problem> {
    match value {
        Value::Array(items) => Ok(items.as_slice()),
        _ => Err(Problem::NotAList),
    }
}

impl Path {
    /// Enters a member. None, if it is missing or null.
    pub(crate) fn enter_optional<'v, 'a>(
        &mut self,
        object: &'v Value<'a>,
        name: &'static str,
    ) -> Result<Option<&'v Value<'a>>, Refusal> {
        if !matches!(object, Value::Object(_)) {
            return Err(Refusal::Member(Problem::NotAnObject));
        }
        self.enter_member(name)?;
        match object.get(name) {
            Some(Value::Null) => Ok(None),
            found => Ok(found),
        }
    }

    /// Enters the member of this name. The error is `Missing` if there is none or if it is null, and
    /// `NotAnObject` if this is no object.
    pub(crate) fn enter<'v, 'a>(
        &mut self,
        object: &'v Value<'a>,
        name: &'static str,
    ) -> Result<&'v Value<'a>, Refusal> {
        match self.enter_optional(object, name)? {
            Some(value) => Ok(value),
            None => Err(Refusal::Member(Problem::Missing)),
        }
    }

    /// Enters a member that is a list.
    pub(crate) fn enter_list<'v, 'a>(
        &mut self,
        object: &'v Value<'a>,
        name: &'static str,
    ) -> Result<&'v [Value<'a>], Refusal> {
        let value = self.enter(object, name)?;
        Ok(items_of(value)?)
    }

    /// A member that is a string.
    pub(crate) fn string<'a>(
        &mut self,
        object: &Value<'a>,
        name: &'static str,
    ) -> Result<&'a str, Refusal> {
        let value = self.enter(object, name)?;
        let string = string_of(value)?;
        self.leave();
        Ok(string)
    }

    /// A member that is a string. None, if it is missing or null.
    pub(crate) fn optional_string<'a>(
        &mut self,
        object: &Value<'a>,
        name: &'static str,
    ) -> Result<Option<&'a str>, Refusal> {
        let string = match self.enter_optional(object, name)? {
            Some(value) => Some(string_of(value)?),
            None => None,
        };
        self.leave();
        Ok(string)
    }

    /// The name of an object.
    pub(crate) fn name<'a>(&mut self, object: &Value<'a>) -> Result<&'a str, Refusal> {
        let value = self.enter(object, "name")?;
        let name = name_of(value)?;
        self.leave();
        Ok(name)
    }

    /// A string that is a name.
    pub(crate) fn name_itself<'a>(&self, value: &Value<'a>) -> Result<&'a str, Refusal> {
        Ok(name_of(value)?)
    }

    /// Whether a member is true. One that is missing or null is not.
    pub(crate) fn flag(&mut self, object: &Value<'_>, name: &'static str) -> Result<bool, Refusal> {
        let flag = match self.enter_optional(object, name)? {
            Some(value) => value.as_bool().ok_or(Problem::NotABoolean)?,
            None => false,
        };
        self.leave();
        Ok(flag)
    }
}
