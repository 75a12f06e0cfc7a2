ghost use Rattle.std.specs.Prelude.{◌≡◌, ◌↔◌, IfOk, IsTrue, string_bytes, true};
ghost use Rattle.std.specs.Str.{is_utf8};
ghost use Rattle.bson_core.specs.Names.{has_no_zero, IsName};

use std::alloc::{AllocError, Global};
use std::marker::Model;

/// A text, which contracts see as its bytes, in UTF-8.
#[derive(Debug, Drop)]
pub struct Text {
    string: String,
}

impl Model for Text {
    ghost use Rattle.std.specs.Prelude.{◌≡◌, List, ℕ, true, string_bytes};
    ghost use Rattle.std.specs.Str.{is_utf8};

    ghost Value = { List ℕ };

    ghost view = { λ t. string_bytes t.string };

    ghost invariant = { λ t. is_utf8 (string_bytes t.string) ≡ true };
}

impl Text {
    pub fn new(string: String) -> Text
        ensures { result ≡ string_bytes string }
    {
        let _text = string.as_str();
        Text { string }
    }

    pub fn as_str(&self) -> &str
        ensures text { result.now ≡ self.now }
        ensures utf8 { is_utf8 self.now ≡ true }
    {
        self.string.as_str()
    }

    pub fn copy(&self, alloc: Global) -> Result<Text, AllocError>
        ensures { IfOk result (λ t. t ≡ self.now) }
    {
        Ok(Text::new(String::from_str(alloc, self.string.as_str())?))
    }
}

/// The name of a field, which contracts see as its bytes, in UTF-8. No byte of it is 00, since a 00
/// ends it.
#[derive(Debug, Drop)]
pub struct Name {
    string: String,
}

impl Model for Name {
    ghost use Rattle.std.specs.Prelude.{List, ℕ, string_bytes};
    ghost use Rattle.bson_core.specs.Names.{IsName};

    ghost Value = { List ℕ };

    ghost view = { λ n. string_bytes n.string };

    ghost invariant = { λ n. IsName (string_bytes n.string) };
}

impl Name {
    /// Whether the text can be a name.
    pub fn fits(text: &str) -> bool
        ensures { result ≡ has_no_zero text.now }
    {
        text.as_bytes().iter().all(|b| *b != 0)
    }

    pub fn new(string: String) -> Name
        requires { IsTrue (has_no_zero (string_bytes string)) }
        ensures { result ≡ string_bytes string }
    {
        let _text = string.as_str();
        Name { string }
    }

    pub fn from_str(alloc: Global, text: &str) -> Result<Name, AllocError>
        requires { IsTrue (has_no_zero text.now) }
        ensures { IfOk result (λ n. n ≡ text.now) }
    {
        Ok(Name::new(String::from_str(alloc, text)?))
    }

    pub fn as_str(&self) -> &str
        ensures text { result.now ≡ self.now }
        ensures name { IsName self.now }
    {
        self.string.as_str()
    }

    pub fn copy(&self, alloc: Global) -> Result<Name, AllocError>
        ensures { IfOk result (λ n. n ≡ self.now) }
    {
        Name::from_str(alloc, self.as_str())
    }
}

/// Bytes, which contracts see as a list.
#[derive(Debug, Drop)]
pub struct Bytes {
    bytes: Vec<u8>,
}

impl Model for Bytes {
    ghost use Rattle.std.specs.Prelude.{List, ℕ};

    ghost Value = { List ℕ };

    ghost view = { λ b. b.bytes.items };
}

impl Bytes {
    pub fn new(bytes: Vec<u8>) -> Bytes
        ensures { result ≡ bytes.items }
    {
        Bytes { bytes }
    }

    pub fn as_slice(&self) -> &[u8]
        ensures { result.now ≡ self.now }
    {
        self.bytes.as_slice()
    }

    pub fn into_vec(self) -> Vec<u8>
        ensures { result.items ≡ self }
    {
        let Bytes { bytes } = self;
        bytes
    }

    pub fn copy(&self, alloc: Global) -> Result<Bytes, AllocError>
        ensures { IfOk result (λ b. b ≡ self.now) }
    {
        Ok(Bytes::new(Vec::from_slice(alloc, self.bytes.as_slice())?))
    }
}
