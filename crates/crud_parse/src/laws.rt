//! Laws of the definitions: a law is the contract of a function with an empty body.
ghost use Rattle.std.specs.Prelude.{◌≡◌};
ghost use Rattle.bson_core.specs.Fields.{Document};
ghost use Rattle.crud_parse.specs.Filters.{filter_by, filter_of};

/// The filters in a filter are read as it is, at any depth.
pub fn filters_in_filters_are_read_alike()
    ensures { (doc : Document) → filter_of doc ≡ filter_by filter_of doc }
{}
