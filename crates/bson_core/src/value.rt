ghost use Rattle.std.specs.Prelude.{◌≡◌, IfOk};

use crate::text::{Bytes, Name, Text};
use sqlite_items::Items;
use std::alloc::{AllocError, Global};

/// Binary data: a subtype, which says what the bytes mean, and the bytes.
#[derive(Debug, Drop)]
pub struct Bin {
    pub subtype: u8,
    pub bytes: Bytes,
}

impl Bin {
    pub fn copy(&self, alloc: Global) -> Result<Bin, AllocError>
        ensures { IfOk result (λ b. b ≡ self.now) }
    {
        Ok(Bin {
            subtype: self.subtype,
            bytes: self.bytes.copy(alloc)?,
        })
    }
}

/// A document: fields in their order. A name may stand more than once.
pub type Doc = Items<(Name, Value)>;

/// A list of values.
pub type List = Items<Value>;

/// A value of a document.
#[derive(Debug, Drop)]
pub enum Value {
    Text(Text),
    Doc(Doc),
    List(List),
    Bin(Bin),
    /// An object id of 12 bytes.
    Oid([u8; 12]),
    Bool(bool),
    /// Milliseconds since 1970 began, in UTC.
    Date(i64),
    Null,
    Int(i32),
    /// A timestamp: seconds in the high 32 bits, an increment in the low ones.
    Stamp(u64),
    Long(i64),
}

impl Value {
    #[cycle(copy)]
    pub fn copy(&self, alloc: Global) -> Result<Value, AllocError>
        ensures { IfOk result (λ v. v ≡ self.now) }
    {
        match self {
            Value::Text(text) => Ok(Value::Text(text.copy(alloc)?)),
            Value::Doc(doc) => Ok(Value::Doc(copy_doc(alloc, doc)?)),
            Value::List(list) => Ok(Value::List(copy_list(alloc, list)?)),
            Value::Bin(bin) => Ok(Value::Bin(bin.copy(alloc)?)),
            Value::Oid(bytes) => Ok(Value::Oid(*bytes)),
            Value::Bool(flag) => Ok(Value::Bool(*flag)),
            Value::Date(moment) => Ok(Value::Date(*moment)),
            Value::Null => Ok(Value::Null),
            Value::Int(number) => Ok(Value::Int(*number)),
            Value::Stamp(number) => Ok(Value::Stamp(*number)),
            Value::Long(number) => Ok(Value::Long(*number)),
        }
    }
}

/// An equal document.
#[cycle(copy)]
pub fn copy_doc(alloc: Global, doc: &Doc) -> Result<Doc, AllocError>
    ensures { IfOk result (λ d. d ≡ doc.now) }
{
    let mut copy = Vec::new(alloc);
    for (name, value) in doc.as_slice() {
        copy.push((name.copy(alloc)?, value.copy(alloc)?))?;
    }
    Ok(Items::from_vec(copy))
}

/// An equal list.
#[cycle(copy)]
pub fn copy_list(alloc: Global, list: &List) -> Result<List, AllocError>
    ensures { IfOk result (λ l. l ≡ list.now) }
{
    let mut copy = Vec::new(alloc);
    for value in list.as_slice() {
        copy.push(value.copy(alloc)?)?;
    }
    Ok(Items::from_vec(copy))
}
