//! The keys that a table of a file may have. A file's format is a list of keys for each of its
//! tables; `Level` judges a table by such a list.

ghost use Rattle.std.specs.Prelude.{◌≡◌};
ghost use Rattle.toml_keys.specs.Keys.{required_key, optional_key};

use std::marker::Model;

/// The kind of one value.
#[derive(Clone, Copy, Debug, PartialEq, Eq)]
pub enum Kind {
    /// An integer of 64 bits, signed.
    Integer,
    /// A string.
    Text,
    /// A table.
    Table,
}

/// The shape of a key's value.
#[derive(Clone, Copy, Debug, PartialEq, Eq)]
pub enum Shape {
    /// One value of a kind.
    One(Kind),
    /// An array, with each item of a kind.
    ListOf(Kind),
}

impl Shape {
    /// An integer.
    pub const INTEGER: Shape = Shape::One(Kind::Integer);
    /// A string.
    pub const TEXT: Shape = Shape::One(Kind::Text);
    /// A table.
    pub const TABLE: Shape = Shape::One(Kind::Table);
    /// An array of integers.
    pub const INTEGERS: Shape = Shape::ListOf(Kind::Integer);
    /// An array of strings.
    pub const TEXTS: Shape = Shape::ListOf(Kind::Text);
    /// An array of tables.
    pub const TABLES: Shape = Shape::ListOf(Kind::Table);
}

/// A key of a table: its name, the shape of its value, and whether it must be there.
#[derive(Drop)]
pub struct Key {
    name: &'static str,
    shape: Shape,
    required: bool,
}

impl Model for Key {
    ghost use Rattle.toml_keys.specs.Keys.{KeyRule};

    ghost Value = { KeyRule };

    ghost view = { λ k. record { name = k.name.now; shape = k.shape; required = k.required } };
}

impl Key {
    /// Answers the key's name.
    pub fn name(&self) -> &'static str
        ensures { result.now ≡ self.now.name }
    {
        self.name
    }

    /// Answers the shape of the key's value.
    pub fn shape(&self) -> Shape
        ensures { result ≡ self.now.shape }
    {
        self.shape
    }

    /// Answers whether the key must be there.
    pub fn is_required(&self) -> bool
        ensures { result ≡ self.now.required }
    {
        self.required
    }
}

/// Makes a key that must be there.
pub fn required(name: &'static str, shape: Shape) -> Key
    ensures { result ≡ required_key name.entry.now shape }
{
    Key {
        name,
        shape,
        required: true,
    }
}

/// Makes a key that may be left out.
pub fn optional(name: &'static str, shape: Shape) -> Key
    ensures { result ≡ optional_key name.entry.now shape }
{
    Key {
        name,
        shape,
        required: false,
    }
}
