//! Laws of the definitions: a law is the contract of a function with an empty body.
ghost use Rattle.bson_core.specs.Fields.{Document};
ghost use Rattle.bson_core.specs.declared.value.Value.{Value};
ghost use Rattle.bson_text.specs.Text.{IsOneLine, document_text, value_text};

/// Each text is one line, whatever the texts and names within it hold.
#[tactic(auto, using(crate::proofs::Printable::one_line_value, crate::proofs::Printable::one_line_document))]
pub fn texts_are_one_line()
    ensures value { (value : Value) → IsOneLine (value_text value) }
    ensures document { (doc : Document) → IsOneLine (document_text doc) }
{}
