//! Members are put into an object one after another, and stand in byte order of their keys.
ghost use Rattle.std.specs.Prelude.{◌≡◌, IfOk, false, List, ℕ, codes};
ghost use Rattle.serde_json.specs.Data as json;
ghost use Rattle.serde_json.specs.Data.{put, no_members};
ghost use Rattle.serde_json.specs.View.{view, items_view};
ghost use Rattle.serde_json.specs.Written.{has_float, items_have_float};
ghost use Rattle.told_objects.specs.Members as said;
ghost use Rattle.told_objects.specs.Seen.{seen};

use crate::object::Object;
use news_types::{Bytes, Memory, Name, Text};
use serde_json::{Map, Value};
use std::alloc::{AllocError, Global};

impl Object {
    /// An object without members.
    pub fn new(alloc: Global) -> Object
        ensures { seen result ≡ no_members }
    {
        Object {
            alloc,
            members: Map::new(alloc),
        }
    }

    /// An object with this answer alone.
    pub fn answering(alloc: Global, word: &str) -> Result<Object, AllocError>
        ensures { IfOk result (λ told. seen told ≡ put (codes "answer") (json.string word.now) no_members) }
    {
        Object::new(alloc).text("answer", word)
    }

    // The object with one value more.
    #[tactic(auto, using(crate::proofs::Plain::put_plain))]
    fn with(self, key: &str, value: Value) -> Result<Object, AllocError>
        requires { has_float (view value) ≡ false }
        ensures { IfOk result (λ told. seen told ≡ put key.now (view value) (seen self)) }
    {
        let Object { alloc, mut members } = self;
        serde_json::put(&mut members, alloc, key, value)?;
        Ok(Object { alloc, members })
    }

    /// The object with a text more.
    pub fn text(self, key: &str, text: &str) -> Result<Object, AllocError>
        ensures { IfOk result (λ told. seen told ≡ put key.now (json.string text.now) (seen self)) }
    {
        let value = Value::try_from_str(self.alloc, text)?;
        self.with(key, value)
    }

    /// The object with a number more.
    pub fn number(self, key: &str, n: u64) -> Result<Object, AllocError>
        ensures { IfOk result (λ told. seen told ≡ put key.now (json.number (json.unsigned n)) (seen self)) }
    {
        self.with(key, Value::from(n))
    }

    /// The object with a flag more.
    pub fn flag(self, key: &str, flag: bool) -> Result<Object, AllocError>
        ensures { IfOk result (λ told. seen told ≡ put key.now (json.boolean flag) (seen self)) }
    {
        self.with(key, Value::from(flag))
    }

    /// The object with a null more.
    pub fn null(self, key: &str) -> Result<Object, AllocError>
        ensures { IfOk result (λ told. seen told ≡ put key.now json.null (seen self)) }
    {
        self.with(key, Value::Null)
    }

    /// The object with an object more.
    pub fn inner(self, key: &str, inside: Object) -> Result<Object, AllocError>
        ensures { IfOk result (λ told. seen told ≡ put key.now (json.object (seen inside)) (seen self)) }
    {
        self.with(key, inside.into_value())
    }

    /// The object with a list of objects more.
    pub fn list<T: Shown>(self, key: &str, rows: &[T]) -> Result<Object, AllocError>
        ensures { IfOk result (λ told. seen told ≡ put key.now (json.array (said.objects T.members rows.now)) (seen self)) }
    {
        let list = objects(self.alloc, rows)?;
        self.with(key, Value::Array(list))
    }

    /// The object with a list of objects more, which are there already.
    pub fn rows(self, key: &str, rows: Vec<Object>) -> Result<Object, AllocError>
        ensures { IfOk result (λ told. seen told ≡ put key.now (json.array (said.objects seen rows.items)) (seen self)) }
    {
        let list = values(self.alloc, rows)?;
        self.with(key, Value::Array(list))
    }

    /// The object with a list of texts more.
    pub fn texts<T: Spelled>(self, key: &str, texts: &[T]) -> Result<Object, AllocError>
        ensures { IfOk result (λ told. seen told ≡ put key.now (json.array (said.strings T.text_of texts.now)) (seen self)) }
    {
        let list = strings(self.alloc, texts)?;
        self.with(key, Value::Array(list))
    }

    fn into_value(self) -> Value
        ensures value { view result ≡ json.object (seen self) }
        ensures plain { has_float (view result) ≡ false }
    {
        Value::Object(self.members)
    }

    /// The object as bytes.
    pub fn written(self) -> Result<Bytes, Memory>
        ensures { IfOk result (λ bytes. bytes ≡ said.written (seen self)) }
    {
        let alloc = self.alloc;
        Ok(Bytes::of(self.into_value().to_vec(alloc)?))
    }
}

/// A row that is told as an object.
pub trait Shown {
    ghost members: { Self → json.Members };

    /// The row's object.
    fn shown(&self, alloc: Global) -> Result<Object, AllocError>
        ensures { IfOk result (λ told. seen told ≡ members self.now) };
}

/// What is told as a text.
pub trait Spelled {
    ghost text_of: { Self → List ℕ };

    /// Its characters.
    fn spelled(&self) -> &str
        ensures { result.now ≡ text_of self.now };
}

impl Spelled for Name {
    ghost text_of = { λ name. name };

    fn spelled(&self) -> &str {
        self.as_str()
    }
}

impl Spelled for Text {
    ghost text_of = { λ text. text };

    fn spelled(&self) -> &str {
        self.as_str()
    }
}

fn objects<T: Shown>(alloc: Global, rows: &[T]) -> Result<Vec<Value>, AllocError>
    ensures rows { IfOk result (λ list. items_view list.items ≡ said.objects T.members rows.now) }
    ensures plain { IfOk result (λ list. items_have_float (items_view list.items) ≡ false) }
{
    let mut list = Vec::new(alloc);
    for row in rows {
        list.push(row.shown(alloc)?.into_value())?;
    }
    Ok(list)
}

fn values(alloc: Global, rows: Vec<Object>) -> Result<Vec<Value>, AllocError>
    ensures rows { IfOk result (λ list. items_view list.items ≡ said.objects seen rows.items) }
    ensures plain { IfOk result (λ list. items_have_float (items_view list.items) ≡ false) }
{
    let mut list = Vec::new(alloc);
    for row in rows {
        list.push(row.into_value())?;
    }
    Ok(list)
}

fn strings<T: Spelled>(alloc: Global, texts: &[T]) -> Result<Vec<Value>, AllocError>
    ensures rows { IfOk result (λ list. items_view list.items ≡ said.strings T.text_of texts.now) }
    ensures plain { IfOk result (λ list. items_have_float (items_view list.items) ≡ false) }
{
    let mut list = Vec::new(alloc);
    for text in texts {
        list.push(Value::try_from_str(alloc, text.spelled())?)?;
    }
    Ok(list)
}
