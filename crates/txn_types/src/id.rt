ghost use Rattle.std.specs.Prelude.{◌≡◌, ◌↔◌, None, Some, IfOk, length, refl};
ghost use Rattle.std.specs.Cmp.{
  partial_order_from_total,
  eq_by_cmp_equiv,
  partial_equiv_from_equiv,
};
ghost use Rattle.std.specs.Ordering.{eq_by_cmp, as_partial_cmp};
ghost use Rattle.txn_types.specs.Totals.{id_is_total};
ghost use Rattle.txn_types.specs.Ids.{id_of, id_in};
ghost use Rattle.txn_types.specs.Order.{id_cmp, kind_of, number_of, length_of, subtype_of, content_of};
ghost use Rattle.txn_types.specs.declared.id.IdErr.TheVariants.{Memory};

use bson_core::{Bin, Doc, Text, Value, get};
use std::alloc::{AllocError, Global};
use std::cmp::Ordering;

/// The value of a document's `_id`: of the kinds of values, a number, a text, a binary, an object
/// id, a truth value or a moment. An int32 and an int64 of one value are one id.
#[derive(Drop)]
pub enum Id {
    Num(i64),
    Text(Text),
    Bin(Bin),
    /// An object id of 12 bytes.
    Oid([u8; 12]),
    Bool(bool),
    /// Milliseconds since 1970 began, in UTC.
    Date(i64),
}

/// Why a value is no id.
#[derive(Clone, Copy, PartialEq, Eq)]
pub enum IdErr {
    /// Its kind is none that an id may have: a document, a list, null or a timestamp.
    BadId,
    /// There was no memory.
    Memory,
}

impl From<AllocError> for IdErr {
    ghost from_gives = { λ _ e. e ≡ Memory };

    fn from(_e: AllocError) -> IdErr {
        IdErr::Memory
    }
}

impl Id {
    /// The id that the value is.
    pub fn of(alloc: Global, value: &Value) -> Result<Id, IdErr>
        ensures ok { IfOk result (λ i. id_of value.now ≡ Some i) }
        ensures bad { (result ≡ Err IdErr.BadId) ↔ (id_of value.now ≡ None) }
    {
        match value {
            Value::Int(number) => Ok(Id::Num(i64::from(*number))),
            Value::Long(number) => Ok(Id::Num(*number)),
            Value::Text(text) => Ok(Id::Text(text.copy(alloc)?)),
            Value::Bin(bin) => Ok(Id::Bin(bin.copy(alloc)?)),
            Value::Oid(bytes) => Ok(Id::Oid(*bytes)),
            Value::Bool(flag) => Ok(Id::Bool(*flag)),
            Value::Date(moment) => Ok(Id::Date(*moment)),
            _ => Err(IdErr::BadId),
        }
    }

    /// The id of the document, where it has an `_id` that is one.
    pub fn in_doc(alloc: Global, doc: &Doc) -> Result<Option<Id>, AllocError>
        ensures { IfOk result (λ o. o ≡ id_in doc.now) }
    {
        let Some(value) = get(doc, "_id") else {
            return Ok(None);
        };
        match Id::of(alloc, value) {
            Ok(id) => Ok(Some(id)),
            Err(IdErr::BadId) => Ok(None),
            Err(IdErr::Memory) => Err(AllocError),
        }
    }

    /// The bracket of its kind in the order of values.
    fn kind(&self) -> u8
        ensures { result ≡ kind_of self.now }
    {
        match self {
            Id::Num(_) => 2,
            Id::Text(_) => 3,
            Id::Bin(_) => 6,
            Id::Oid(_) => 7,
            Id::Bool(_) => 8,
            Id::Date(_) => 9,
        }
    }

    /// What is compared first within a kind: the number, the moment, false before true.
    fn number(&self) -> i64
        ensures { result ≡ number_of self.now }
    {
        match self {
            Id::Num(number) | Id::Date(number) => *number,
            Id::Bool(flag) => i64::from(*flag),
            Id::Text(_) | Id::Bin(_) | Id::Oid(_) => 0,
        }
    }

    /// The number of bytes of a binary.
    fn length(&self) -> usize
        ensures { result ≡ length_of self.now }
    {
        match self {
            Id::Bin(bin) => bin.bytes.as_slice().len(),
            _ => 0,
        }
    }

    /// The subtype of a binary.
    fn subtype(&self) -> u8
        ensures { result ≡ subtype_of self.now }
    {
        match self {
            Id::Bin(bin) => bin.subtype,
            _ => 0,
        }
    }

    /// The bytes of a text, a binary or an object id.
    fn content(&self) -> &[u8]
        ensures { result.now ≡ content_of self.now }
    {
        match self {
            Id::Text(text) => text.as_str().as_bytes(),
            Id::Bin(bin) => bin.bytes.as_slice(),
            Id::Oid(bytes) => bytes,
            Id::Num(_) | Id::Bool(_) | Id::Date(_) => &[],
        }
    }

    /// Where the id stands beside another. It takes no memory.
    pub fn compare(&self, other: &Id) -> Ordering
        ensures { result ≡ id_cmp self.now other.now }
    {
        self.kind()
            .cmp(&other.kind())
            .then_with(|| self.number().cmp(&other.number()))
            .then_with(|| self.length().cmp(&other.length()))
            .then_with(|| self.subtype().cmp(&other.subtype()))
            .then_with(|| self.content().cmp(other.content()))
    }

    pub fn copy(&self, alloc: Global) -> Result<Id, AllocError>
        ensures { IfOk result (λ i. i ≡ self.now) }
    {
        match self {
            Id::Num(number) => Ok(Id::Num(*number)),
            Id::Text(text) => Ok(Id::Text(text.copy(alloc)?)),
            Id::Bin(bin) => Ok(Id::Bin(bin.copy(alloc)?)),
            Id::Oid(bytes) => Ok(Id::Oid(*bytes)),
            Id::Bool(flag) => Ok(Id::Bool(*flag)),
            Id::Date(moment) => Ok(Id::Date(*moment)),
        }
    }
}

impl PartialEq for Id {
    ghost eq = { eq_by_cmp id_cmp };

    ghost laws = { partial_equiv_from_equiv (eq_by_cmp_equiv id_is_total) };

    fn eq(&self, other: &Id) -> bool {
        self.compare(other).is_eq()
    }
}

impl Eq for Id {
    ghost laws = { eq_by_cmp_equiv id_is_total };
}

impl PartialOrd for Id {
    ghost partial_cmp = { as_partial_cmp id_cmp };

    ghost laws = { partial_order_from_total id_is_total };

    fn partial_cmp(&self, other: &Id) -> Option<Ordering> {
        Some(self.compare(other))
    }
}

/// The order of `compare`, for maps by id.
impl Ord for Id {
    ghost cmp = { id_cmp };

    ghost total = { id_is_total };

    ghost matches_partial_cmp = { λ x y. refl };

    ghost matches_eq = { λ x y. refl };

    fn cmp(&self, other: &Id) -> Ordering {
        self.compare(other)
    }
}
