//! JSON objects that are told: members are put in one after another, and stand in byte order of their keys.
ghost use Rattle.std.specs.Prelude.{◌≡◌, IfOk, false, Some, None};
ghost use Rattle.serde_json.specs.Data as json;
ghost use Rattle.serde_json.specs.Data.{put, no_members};
ghost use Rattle.serde_json.specs.View.{view};
ghost use Rattle.serde_json.specs.Written.{has_float};
ghost use Rattle.told_objects.specs.Members.{written};
ghost use Rattle.told_entries.specs.Members as said;
ghost use Rattle.told_entries.specs.Seen.{seen, seen_items};

use crate::object::{Listed, Told};
use news_types::{Bytes, Memory, Moment, Name};
use serde_json::{Map, Value};
use std::alloc::{AllocError, Global};

impl Told {
    /// An object without members.
    pub(crate) fn new(alloc: Global) -> Told
        ensures { seen result ≡ no_members }
    {
        Told {
            alloc,
            members: Map::new(alloc),
        }
    }

    /// The object with one value more.
    #[tactic(auto, using(crate::proofs::Plain::put_plain))]
    fn with(self, key: &str, value: Value) -> Result<Told, AllocError>
        requires { has_float (view value) ≡ false }
        ensures { IfOk result (λ told. seen told ≡ put key.now (view value) (seen self)) }
    {
        let Told { alloc, mut members } = self;
        serde_json::put(&mut members, alloc, key, value)?;
        Ok(Told { alloc, members })
    }

    /// The object with a text more.
    pub(crate) fn text(self, key: &str, text: &str) -> Result<Told, AllocError>
        ensures { IfOk result (λ told. seen told ≡ put key.now (json.string text.now) (seen self)) }
    {
        let value = Value::try_from_str(self.alloc, text)?;
        self.with(key, value)
    }

    /// The object with a number more.
    pub(crate) fn number(self, key: &str, n: u64) -> Result<Told, AllocError>
        ensures { IfOk result (λ told. seen told
            ≡ put key.now (json.number (json.unsigned n)) (seen self)) }
    {
        self.with(key, Value::from(n))
    }

    /// The object with a number more, unless it is 0.
    #[tactic(auto, unfolding(crate::specs::Members::number_unless_zero))]
    pub(crate) fn unless_zero(self, key: &str, n: u64) -> Result<Told, AllocError>
        ensures { IfOk result (λ told. seen told ≡ said.number_unless_zero key.now n (seen self)) }
    {
        if n == 0 {
            return Ok(self);
        }
        self.number(key, n)
    }

    /// The object with a flag more.
    pub(crate) fn flag(self, key: &str, flag: bool) -> Result<Told, AllocError>
        ensures { IfOk result (λ told. seen told ≡ put key.now (json.boolean flag) (seen self)) }
    {
        self.with(key, Value::from(flag))
    }

    /// The object with an object more.
    pub(crate) fn inner(self, key: &str, inside: Told) -> Result<Told, AllocError>
        ensures { IfOk result (λ told. seen told
            ≡ put key.now (json.object (seen inside)) (seen self)) }
    {
        self.with(key, inside.into_value())
    }

    /// The object with a list more.
    pub(crate) fn list(self, key: &str, list: Listed) -> Result<Told, AllocError>
        ensures { IfOk result (λ told. seen told
            ≡ put key.now (json.array (seen_items list)) (seen self)) }
    {
        self.with(key, list.into_value())
    }

    /// The object with a name more, or null.
    pub(crate) fn given_name(self, key: &str, name: Option<Name>) -> Result<Told, AllocError>
        ensures { IfOk result (λ told. seen told
            ≡ put key.now (said.text_or_null name) (seen self)) }
    {
        match name {
            None => self.with(key, Value::Null),
            Some(name) => self.text(key, name.as_str()),
        }
    }

    /// The object with a moment more, or null.
    pub(crate) fn given_moment(self, key: &str, moment: Option<Moment>) -> Result<Told, AllocError>
        ensures { IfOk result (λ told. seen told
            ≡ put key.now (said.number_or_null moment) (seen self)) }
    {
        match moment {
            None => self.with(key, Value::Null),
            Some(moment) => self.number(key, moment),
        }
    }

    /// The object with a number of seconds more, or null.
    pub(crate) fn given_seconds(self, key: &str, seconds: Option<u32>) -> Result<Told, AllocError>
        ensures { IfOk result (λ told. seen told
            ≡ put key.now (said.number_or_null seconds) (seen self)) }
    {
        match seconds {
            None => self.with(key, Value::Null),
            Some(seconds) => self.number(key, seconds as u64),
        }
    }

    /// The object with a null more.
    pub(crate) fn null(self, key: &str) -> Result<Told, AllocError>
        ensures { IfOk result (λ told. seen told ≡ put key.now json.null (seen self)) }
    {
        self.with(key, Value::Null)
    }

    /// The object as a value.
    pub(crate) fn into_value(self) -> Value
        ensures value { view result ≡ json.object (seen self) }
        ensures plain { has_float (view result) ≡ false }
    {
        Value::Object(self.members)
    }

    /// The object as bytes.
    pub(crate) fn written(self) -> Result<Bytes, Memory>
        ensures { IfOk result (λ bytes. bytes ≡ written (seen self)) }
    {
        let alloc = self.alloc;
        Ok(Bytes::of(self.into_value().to_vec(alloc)?))
    }
}
