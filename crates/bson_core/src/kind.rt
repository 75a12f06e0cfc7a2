ghost use Rattle.std.specs.Prelude.{◌≡◌};
ghost use Rattle.bson_core.specs.Kinds.{kind_of};

/// The kind of a value that holds no others.
#[derive(Clone, Copy, Debug, PartialEq, Eq)]
pub enum Leaf {
    Text,
    Bin,
    Oid,
    Bool,
    Date,
    Null,
    Int,
    Stamp,
    Long,
}

/// The kind of a value.
#[derive(Clone, Copy, Debug, PartialEq, Eq)]
pub enum Kind {
    Doc,
    List,
    Leaf(Leaf),
}

impl Kind {
    /// The kind with that type byte, which are those of BSON 1.1 but for doubles, decimals, regular
    /// expressions, code and what is out of use.
    pub fn of(byte: u8) -> Option<Kind>
        ensures { result ≡ kind_of byte }
    {
        match byte {
            0x02 => Some(Kind::Leaf(Leaf::Text)),
            0x03 => Some(Kind::Doc),
            0x04 => Some(Kind::List),
            0x05 => Some(Kind::Leaf(Leaf::Bin)),
            0x07 => Some(Kind::Leaf(Leaf::Oid)),
            0x08 => Some(Kind::Leaf(Leaf::Bool)),
            0x09 => Some(Kind::Leaf(Leaf::Date)),
            0x0a => Some(Kind::Leaf(Leaf::Null)),
            0x10 => Some(Kind::Leaf(Leaf::Int)),
            0x11 => Some(Kind::Leaf(Leaf::Stamp)),
            0x12 => Some(Kind::Leaf(Leaf::Long)),
            _ => None,
        }
    }
}
