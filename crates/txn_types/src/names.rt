ghost use Rattle.std.specs.Prelude.{◌≡◌, ◌↔◌, ◌==◌, ◌&&◌, IfOk, true, false, not, nat_le, length};
ghost use Rattle.std.specs.List.{list_all};
ghost use Rattle.txn_types.specs.Names.{is_name_byte, is_database, is_collection, namespace_of, IsNamespace};
ghost use Rattle.txn_types.specs.declared.names.NsErr.TheVariants.{Memory};
ghost use Rattle.std.specs.Prelude.{refl};
ghost use Rattle.std.specs.Cmp.{
  partial_order_from_total,
  eq_by_cmp_equiv,
  partial_equiv_from_equiv,
};
ghost use Rattle.std.specs.Cmp.Lexicographic.{slice_cmp};
ghost use Rattle.std.specs.Ordering.{nat_cmp, eq_by_cmp, as_partial_cmp};
ghost use Rattle.std.proofs.lemmas.Cmp.{nat_list_cmp_total};

use std::alloc::{AllocError, AllocFailed, Global};
use std::cmp::Ordering;
use std::marker::Model;

/// The tag of a transaction: the router that began it, that router's boot, and the serial that it
/// drew.
#[derive(Clone, Copy, PartialEq, Eq)]
pub struct Tag {
    pub router: u16,
    pub boot: u32,
    pub serial: u64,
}

impl Tag {
    pub fn copy(&self) -> Tag
        ensures { result ≡ self.now }
    {
        *self
    }
}

/// Why two names make no namespace.
#[derive(Clone, Copy, PartialEq, Eq)]
pub enum NsErr {
    /// The first is no name of a database: 1 to 63 bytes, none below 0x21, no 0x7F, no `$` and no
    /// full stop.
    Database,
    /// The second is no name of a collection: 1 to 200 bytes, none below 0x21, no 0x7F and no `$`.
    Collection,
    /// There was no memory.
    Memory,
}

impl From<AllocError> for NsErr {
    ghost from_gives = { λ _ e. e ≡ Memory };

    fn from(_e: AllocError) -> NsErr {
        NsErr::Memory
    }
}

impl<T: Drop> From<AllocFailed<T>> for NsErr {
    ghost from_gives = { λ _ e. e ≡ Memory };

    fn from(_e: AllocFailed<T>) -> NsErr {
        NsErr::Memory
    }
}

/// A namespace: a database name, a full stop and a collection name, in UTF-8. Contracts see its
/// bytes.
#[derive(Drop)]
pub struct Ns {
    text: String,
}

impl Model for Ns {
    ghost use Rattle.std.specs.Prelude.{List, ℕ, string_bytes};
    ghost use Rattle.txn_types.specs.Names.{IsNamespace};

    ghost Value = { List ℕ };

    ghost view = { λ n. string_bytes n.text };

    ghost invariant = { λ n. IsNamespace (string_bytes n.text) };
}

/// Whether the byte may stand in a name.
fn is_name_byte(byte: u8) -> bool
    ensures { result ≡ is_name_byte byte }
{
    0x21 <= byte && byte != 0x7f && byte != b'$'
}

/// Whether the byte may stand in the name of a database.
fn is_database_byte(byte: u8) -> bool
    ensures { result ≡ (is_name_byte byte && not (byte == 46)) }
{
    is_name_byte(byte) && byte != b'.'
}

/// Whether there are 1 to `most` bytes.
fn has_length(bytes: &[u8], most: usize) -> bool
    ensures { result ≡ (nat_le 1 (length bytes.now) && nat_le (length bytes.now) most) }
{
    1 <= bytes.len() && bytes.len() <= most
}

fn are_database_bytes(bytes: &[u8]) -> bool
    ensures { result ≡ list_all (λ b. is_name_byte b && not (b == 46)) bytes.now }
{
    bytes.iter().all(|byte| is_database_byte(*byte))
}

fn are_name_bytes(bytes: &[u8]) -> bool
    ensures { result ≡ list_all is_name_byte bytes.now }
{
    bytes.iter().all(|byte| is_name_byte(*byte))
}

/// Whether the text is a database name.
fn is_database(name: &str) -> bool
    ensures { result ≡ is_database name.now }
{
    has_length(name.as_bytes(), 63) && are_database_bytes(name.as_bytes())
}

/// Whether the text is a collection name.
fn is_collection(name: &str) -> bool
    ensures { result ≡ is_collection name.now }
{
    has_length(name.as_bytes(), 200) && are_name_bytes(name.as_bytes())
}

impl Ns {
    /// The namespace of a collection in a database.
    pub fn of(alloc: Global, database: &str, collection: &str) -> Result<Ns, NsErr>
        ensures ok { IfOk result (λ n. (n ≡ namespace_of database.now collection.now)
            × (is_database database.now ≡ true) × (is_collection collection.now ≡ true)) }
        ensures database { (result ≡ Err NsErr.Database) ↔ (is_database database.now ≡ false) }
        ensures collection { (result ≡ Err NsErr.Collection)
            ↔ ((is_database database.now ≡ true) × (is_collection collection.now ≡ false)) }
    {
        if !is_database(database) {
            return Err(NsErr::Database);
        }
        if !is_collection(collection) {
            return Err(NsErr::Collection);
        }
        let mut text = String::from_str(alloc, database)?;
        text.push('.')?;
        text.push_str(collection)?;
        Ok(Ns { text })
    }

    pub fn as_slice(&self) -> &[u8]
        ensures bytes { result.now ≡ self.now }
        ensures namespace { IsNamespace self.now }
    {
        self.text.as_bytes()
    }

    pub fn as_str(&self) -> &str
        ensures bytes { result.now ≡ self.now }
        ensures namespace { IsNamespace self.now }
    {
        self.text.as_str()
    }

    pub fn copy(&self, alloc: Global) -> Result<Ns, AllocError>
        ensures { IfOk result (λ n. n ≡ self.now) }
    {
        Ok(Ns {
            text: String::from_str(alloc, self.text.as_str())?,
        })
    }
}

impl PartialEq for Ns {
    ghost eq = { eq_by_cmp (slice_cmp nat_cmp) };

    ghost laws = { partial_equiv_from_equiv (eq_by_cmp_equiv nat_list_cmp_total) };

    fn eq(&self, other: &Ns) -> bool {
        self.cmp(other).is_eq()
    }
}

impl Eq for Ns {
    ghost laws = { eq_by_cmp_equiv nat_list_cmp_total };
}

impl PartialOrd for Ns {
    ghost partial_cmp = { as_partial_cmp (slice_cmp nat_cmp) };

    ghost laws = { partial_order_from_total nat_list_cmp_total };

    fn partial_cmp(&self, other: &Ns) -> Option<Ordering> {
        Some(self.cmp(other))
    }
}

/// Namespaces stand in the order of their bytes.
impl Ord for Ns {
    ghost cmp = { slice_cmp nat_cmp };

    ghost total = { nat_list_cmp_total };

    ghost matches_partial_cmp = { λ x y. refl };

    ghost matches_eq = { λ x y. refl };

    fn cmp(&self, other: &Ns) -> Ordering {
        self.as_slice().cmp(other.as_slice())
    }
}
