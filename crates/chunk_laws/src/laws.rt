//! Laws of the definitions: a law is the contract of a function with an empty body.
ghost use Rattle.std.specs.Prelude.{◌≡◌, ◌<◌, ℕ, List, Some, true, false};
ghost use Rattle.bson_core.specs.Fields.{Document};
ghost use Rattle.txn_types.specs.Ids.{id_in};
ghost use Rattle.txn_types.specs.declared.filter.Filter.{Filter};
ghost use Rattle.txn_types.specs.declared.id.Id.{Id};
ghost use Rattle.txn_types.specs.declared.operation.Op.{Op};
ghost use Rattle.txn_semantics.specs.Filters.{matches};
ghost use Rattle.txn_semantics.specs.Meaning.{document_rules, ns_of};
ghost use Rattle.txn_semantics.specs.Routed.{IsRouted};
ghost use Rattle.txn_semantics.specs.Splits.{times};
ghost use Rattle.chunk_map.specs.Map.{Map, IsMap};
ghost use Rattle.chunk_map.specs.Place.{shard_of, shards_for};
ghost use Rattle.chunk_map.specs.Parts.{shards_of, has_spread};
ghost use Rattle.chunk_laws.specs.Routing.{IndicesOfItemsRise};

/// The shard of a document that a filter matches is one of those that are asked for it, and is
/// named there once.
pub fn what_matches_is_asked_for()
    ensures { (m : Map) (ns : List ℕ) (wanted : Filter) (id : Id) (doc : Document) → IsMap m
        → id_in doc ≡ Some id → matches wanted doc ≡ true
        → times (shard_of m ns id) (shards_for m ns wanted) ≡ 1 }
{}

/// A statement whose items for one document have each one shard, as a router sees to, is sent where
/// its filters and documents belong, so that what is told of its parts is what is told of the
/// whole.
pub fn a_statement_is_routed()
    ensures { (m : Map) (op : Op) → IsMap m → IndicesOfItemsRise op → has_spread m op ≡ false
        → IsRouted document_rules (shard_of m (ns_of op)) (shards_of m op) op }
{}
