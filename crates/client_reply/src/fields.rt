ghost use Rattle.std.specs.Prelude.{◌≡◌, [], ◌∷◌, ◌++◌, string_bytes, IfOk, OnOk, IsTrue};
ghost use Rattle.bson_core.specs.Names.{has_no_zero};
ghost use Rattle.bson_core.specs.declared.value.Value.TheVariants as kinds;
ghost use Rattle.client_reply.specs.Times.{signature, cluster_time, times};

use bson_core::{Bin, Bytes, Doc, Name, Text, Value};
use sqlite_items::Items;
use std::alloc::{AllocError, Global};
use txn_types::Ts;

/// The fields of a document that is being made.
pub type Fields = Vec<(Name, Value)>;

pub fn put(alloc: Global, fields: &mut Fields, name: &str, value: Value) -> Result<(), AllocError>
    requires { IsTrue (has_no_zero name.now) }
    ensures { OnOk result (fields.new.items ≡ fields.old.items ++ (name.now, value) ∷ []) }
{
    fields.push((Name::from_str(alloc, name)?, value))?;
    Ok(())
}

pub fn put_text(
    alloc: Global,
    fields: &mut Fields,
    name: &str,
    text: String,
) -> Result<(), AllocError>
    requires { IsTrue (has_no_zero name.now) }
    ensures { OnOk result
        (fields.new.items ≡ fields.old.items ++ (name.now, kinds.Text (string_bytes text)) ∷ []) }
{
    put(alloc, fields, name, Value::Text(Text::new(text)))
}

/// The signature of a cluster time by no key: 20 bytes 00, and the key's id 0.
fn signature(alloc: Global) -> Result<Doc, AllocError>
    ensures { IfOk result (λ d. d ≡ signature) }
{
    let mut fields = Vec::new(alloc);
    let hash = Bin {
        subtype: 0,
        bytes: Bytes::new(vec![in alloc; 0; 20]?),
    };
    put(alloc, &mut fields, "hash", Value::Bin(hash))?;
    put(alloc, &mut fields, "keyId", Value::Long(0))?;
    Ok(Items::from_vec(fields))
}

/// The cluster's time with its signature, as gossip carries it.
fn cluster_time(alloc: Global, time: Ts) -> Result<Doc, AllocError>
    ensures { IfOk result (λ d. d ≡ cluster_time time) }
{
    let mut fields = Vec::new(alloc);
    put(alloc, &mut fields, "clusterTime", Value::Stamp(time.0))?;
    let signature = Value::Doc(signature(alloc)?);
    put(alloc, &mut fields, "signature", signature)?;
    Ok(Items::from_vec(fields))
}

/// The fields `operationTime` and `$clusterTime`, where the router knows a time.
pub fn put_times(alloc: Global, fields: &mut Fields, time: Ts) -> Result<(), AllocError>
    ensures { OnOk result (fields.new.items ≡ fields.old.items ++ times time) }
{
    if time.0 == 0 {
        return Ok(());
    }
    put(alloc, fields, "operationTime", Value::Stamp(time.0))?;
    let cluster_time = Value::Doc(cluster_time(alloc, time)?);
    put(alloc, fields, "$clusterTime", cluster_time)
}
