use bson_core::{Bin, Bytes, Doc, Name, Text, Value};
use bson_text::{print, print_value};
use sqlite_items::Items;
use std::alloc::{AllocError, Global};

/// A document or a list whose end isn't read yet.
#[derive(Drop)]
struct Open {
    is_list: bool,
    name: Option<Name>,
    fields: Vec<(Name, Value)>,
}

impl Open {
    fn new(alloc: Global, is_list: bool) -> Open {
        Open {
            is_list,
            name: None,
            fields: Vec::new(alloc),
        }
    }

    /// Appends a value, under the name that was read in front of it.
    fn push(&mut self, alloc: Global, value: Value) -> Result<(), AllocError> {
        let name = match self.name.take() {
            Some(name) => name,
            None => Name::from_str(alloc, "")?,
        };
        self.fields.push((name, value))?;
        Ok(())
    }

    /// Whether a name comes next.
    fn wants_name(&self) -> bool {
        !self.is_list && self.name.is_none()
    }

    fn into_value(self, alloc: Global) -> Result<Value, AllocError> {
        let Open {
            is_list,
            fields,
            ..
        } = self;
        if is_list {
            let values: Vec<Value> = fields.into_iter().map(|field| field.1).collect(alloc)?;
            return Ok(Value::List(Items::from_vec(values)));
        }
        Ok(Value::Doc(Items::from_vec(fields)))
    }
}

/// A moment as `d:1000`, an object id as `o:` and 24 digits, or a binary as `b4:00ff`.
fn marked(alloc: Global, word: &str) -> Result<Option<Value>, AllocError> {
    let Some((mark, rest)) = word.split_once(":") else {
        return Ok(None);
    };
    if mark == "d"
        && let Ok(moment) = rest.parse::<i64>()
    {
        return Ok(Some(Value::Date(moment)));
    }
    let Ok(bytes) = hex::decode(alloc, rest) else {
        return Ok(None);
    };
    if mark == "o"
        && let Ok(id) = <[u8; 12]>::try_from(bytes.as_slice())
    {
        return Ok(Some(Value::Oid(id)));
    }
    if let Some(digits) = mark.strip_prefix("b")
        && let Ok(subtype) = digits.parse::<u8>()
    {
        let bytes = Bytes::new(bytes);
        return Ok(Some(Value::Bin(Bin { subtype, bytes })));
    }
    Ok(None)
}

/// A value that holds no others: `null`, `true`, `false`, an int32, an int64 with an `L` after it,
/// one with a mark, or else a text.
fn leaf(alloc: Global, word: &str) -> Result<Value, AllocError> {
    if word == "null" {
        return Ok(Value::Null);
    }
    if word == "true" || word == "false" {
        return Ok(Value::Bool(word == "true"));
    }
    if let Ok(number) = word.parse::<i32>() {
        return Ok(Value::Int(number));
    }
    if let Some(digits) = word.strip_suffix('L')
        && let Ok(number) = digits.parse::<i64>()
    {
        return Ok(Value::Long(number));
    }
    if let Some(value) = marked(alloc, word)? {
        return Ok(value);
    }
    Ok(Value::Text(Text::new(String::from_str(alloc, word)?)))
}

/// The value that the words are, with spaces between all of them, as `{ a [ 1 2L ] }`.
pub fn value_of(alloc: Global, words: &str) -> Result<Value, AllocError> {
    let mut opens: Vec<Open> = Vec::new(alloc);
    let mut last = Value::Null;
    for word in words.split_whitespace() {
        if word == "{" || word == "[" {
            opens.push(Open::new(alloc, word == "["))?;
            continue;
        }
        let value = if word == "}" || word == "]" {
            match opens.pop() {
                Some(open) => open.into_value(alloc)?,
                None => Value::Null,
            }
        } else {
            if let Some(open) = opens.last_mut()
                && open.wants_name()
                && Name::fits(word)
            {
                open.name = Some(Name::from_str(alloc, word)?);
                continue;
            }
            leaf(alloc, word)?
        };
        match opens.last_mut() {
            Some(open) => open.push(alloc, value)?,
            None => last = value,
        }
    }
    Ok(last)
}

/// The document that the words are; an empty one where they are another value.
pub fn document_of(alloc: Global, words: &str) -> Result<Doc, AllocError> {
    match value_of(alloc, words)? {
        Value::Doc(doc) => Ok(doc),
        _ => Ok(Items::new(alloc)),
    }
}

/// The text of a value.
pub fn text_of(alloc: Global, value: &Value) -> Result<String, AllocError> {
    match print_value(alloc, value) {
        Ok(text) => Ok(text),
        Err(_) => Err(AllocError),
    }
}

/// The text of a document.
pub fn document_text(alloc: Global, doc: &Doc) -> Result<String, AllocError> {
    match print(alloc, doc) {
        Ok(text) => Ok(text),
        Err(_) => Err(AllocError),
    }
}
