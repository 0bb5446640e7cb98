//! A table of a document, judged by a list of keys and read key by key.

ghost use Rattle.std.specs.Prelude.{◌≡◌, IfOk, map, option_map};
ghost use Rattle.std.specs.List.{list_all, list_any};
ghost use Rattle.std.specs.Str.{bytes_eq};
ghost use Rattle.toml.specs.Data.{get_member};
ghost use Rattle.toml.specs.View.{view, items_view, table_view};
ghost use Rattle.toml_keys.specs.Keys.{is_of, all_of, fits, fits_rule, is_key, has_only, has_types, if_table};
ghost use Rattle.toml_keys.specs.Level.{level_members};
ghost use Rattle.toml_keys.specs.Values.{integer_or, integer_at, text_at, table_at, items_at, integers_of, integers_at, texts_of, texts_at, tables_of, tables_at};

use crate::key::{Key, Kind, Shape};
use soc_base::{Items, NoMemory, Text};
use std::alloc::Global;
use toml::{Table, Value};

// Whether a value is of a kind.
fn is_of(kind: Kind, value: &Value) -> bool
    ensures { result ≡ is_of kind (view value.now) }
{
    match (kind, value) {
        (Kind::Integer, Value::Integer(_)) => true,
        (Kind::Text, Value::String(_)) => true,
        (Kind::Table, Value::Table(_)) => true,
        _ => false,
    }
}

// Whether each value of an array is of a kind.
fn all_of(kind: Kind, values: &[Value]) -> bool
    ensures { result ≡ all_of kind (items_view values.now) }
{
    for value in values {
        if !is_of(kind, value) {
            return false;
        }
    }
    true
}

// Whether a value has a shape.
fn fits(shape: Shape, value: &Value) -> bool
    ensures { result ≡ fits shape (view value.now) }
{
    match shape {
        Shape::One(kind) => is_of(kind, value),
        Shape::ListOf(kind) => match value {
            Value::Array(items) => all_of(kind, items.as_slice()),
            _ => false,
        },
    }
}

// Whether what stands at a key, if anything, is as the key's rule says.
fn fits_rule(key: &Key, value: Option<&Value>) -> bool
    ensures { result ≡ fits_rule key.now (option_map (λ v. view v.now) value.entry) }
{
    match value {
        Some(value) => fits(key.shape(), value),
        None => !key.is_required(),
    }
}

// Whether a key is in the list.
fn is_key(keys: &[Key], name: &str) -> bool
    ensures { result ≡ is_key keys.now name.now }
{
    keys.iter().any(|key| key.name() == name)
}

// Whether each key of a table is in the list.
#[tactic(auto, unfolding(crate::specs::Keys::has_only))]
fn table_has_only(table: &Table, keys: &[Key]) -> bool
    ensures { result ≡ has_only keys.now (table_view table.now) }
{
    for (name, _value) in table.iter() {
        if !is_key(keys, name.as_str()) {
            return false;
        }
    }
    true
}

// What stands at a key of a table.
fn entry<'a>(table: &'a Table, name: &str) -> Option<&'a Value>
    ensures { option_map (λ v. view v.now) result ≡ get_member name.now (table_view table.now) }
{
    table.get(name)
}

/// A table of a document, or the empty table. Contracts see its members, `level_members`.
#[derive(Clone, Copy)]
pub struct Level<'a> {
    table: Option<&'a Table>,
}

impl<'a> Level<'a> {
    /// Makes the level of a table.
    pub fn new(table: &'a Table) -> Level<'a>
        ensures { level_members result ≡ table_view table.entry.now }
    {
        Level { table: Some(table) }
    }

    /// Answers whether each key of the table is in the list.
    #[tactic(auto, unfolding(crate::specs::Keys::has_only))]
    pub fn has_only(&self, keys: &[Key]) -> bool
        ensures { result ≡ has_only keys.now (level_members self.now) }
    {
        match self.table {
            Some(table) => table_has_only(table, keys),
            None => true,
        }
    }

    /// Answers whether each required key of the list is there, and each key that is there has a
    /// value of its shape.
    #[tactic(auto, unfolding(crate::specs::Keys::has_types))]
    pub fn has_types(&self, keys: &[Key]) -> bool
        ensures { result ≡ has_types keys.now (level_members self.now) }
    {
        keys.iter()
            .all(|key| fits_rule(key, self.entry(key.name())))
    }

    /// Answers whether each table of the array at a key has only keys of the list. Items that are
    /// no tables are passed over.
    #[tactic(auto, using(crate::proofs::Tables::all_so_far, crate::proofs::Tables::one_fails), unfolding(crate::specs::Values::tables_at))]
    pub fn tables_have_only(&self, name: &str, keys: &[Key]) -> bool
        ensures { result ≡ list_all (has_only keys.now) (tables_at name.now (level_members self.now)) }
    {
        for value in self.items(name) {
            if !value_has_only(value, keys) {
                return false;
            }
        }
        true
    }

    /// Answers whether each table of the array at a key has the types of the list. Items that are
    /// no tables are passed over.
    #[tactic(auto, using(crate::proofs::Tables::all_so_far, crate::proofs::Tables::one_fails), unfolding(crate::specs::Values::tables_at))]
    pub fn tables_have_types(&self, name: &str, keys: &[Key]) -> bool
        ensures { result ≡ list_all (has_types keys.now) (tables_at name.now (level_members self.now)) }
    {
        for value in self.items(name) {
            if !value_has_types(value, keys) {
                return false;
            }
        }
        true
    }

    // What stands at a key.
    fn entry(&self, name: &str) -> Option<&'a Value>
        ensures { option_map (λ v. view v.now) result ≡ get_member name.now (level_members self.now) }
    {
        match self.table {
            Some(table) => entry(table, name),
            None => None,
        }
    }

    // The items of the array at a key, or none.
    #[tactic(auto, unfolding(crate::specs::Values::items_at))]
    fn items(&self, name: &str) -> &'a [Value]
        ensures { items_view result.now ≡ items_at name.now (level_members self.now) }
    {
        match self.entry(name) {
            Some(Value::Array(items)) => items.as_slice(),
            _ => &[],
        }
    }

    /// Answers the integer at a key, or the default where no integer stands there.
    #[tactic(auto, unfolding(crate::specs::Values::integer_or))]
    pub fn integer_or(&self, name: &str, default: i64) -> i64
        ensures { result ≡ integer_or name.now default (level_members self.now) }
    {
        match self.entry(name) {
            Some(Value::Integer(integer)) => *integer,
            _ => default,
        }
    }

    /// Answers the integer at a key, or 0 where no integer stands there.
    pub fn integer(&self, name: &str) -> i64
        ensures { result ≡ integer_at name.now (level_members self.now) }
    {
        self.integer_or(name, 0)
    }

    /// Answers the text at a key, or the empty text where no text stands there.
    #[tactic(auto, unfolding(crate::specs::Values::text_at))]
    pub fn text(&self, name: &str) -> &'a str
        ensures { result.now ≡ text_at name.now (level_members self.now) }
    {
        match self.entry(name) {
            Some(Value::String(text)) => text.as_str(),
            _ => "",
        }
    }

    /// Answers the table at a key, or the empty table where no table stands there.
    #[tactic(auto, unfolding(crate::specs::Values::table_at))]
    pub fn table(&self, name: &str) -> Level<'a>
        ensures { level_members result ≡ table_at name.now (level_members self.now) }
    {
        match self.entry(name) {
            Some(value) => Level {
                table: value.as_table(),
            },
            None => Level { table: None },
        }
    }

    /// Answers the integers of the array at a key, in order: none where no array stands there.
    #[tactic(auto, unfolding(crate::specs::Values::integers_at))]
    pub fn integers(&self, alloc: Global, name: &str) -> Result<Items<i64>, NoMemory>
        ensures { IfOk result (λ r. r ≡ integers_at name.now (level_members self.now)) }
    {
        let mut integers = Items::new(alloc);
        for value in self.items(name) {
            if let Value::Integer(integer) = value {
                integers.push(*integer)?;
            }
        }
        Ok(integers)
    }

    /// Answers the texts of the array at a key, in order: none where no array stands there.
    #[tactic(auto, unfolding(crate::specs::Values::texts_at))]
    pub fn texts(&self, alloc: Global, name: &str) -> Result<Items<Text>, NoMemory>
        ensures { IfOk result (λ r. r ≡ texts_at name.now (level_members self.now)) }
    {
        let mut texts = Items::new(alloc);
        for value in self.items(name) {
            if let Value::String(text) = value {
                texts.push(Text::from_str(alloc, text.as_str())?)?;
            }
        }
        Ok(texts)
    }

    /// Answers the tables of the array at a key, in order: none where no array stands there.
    #[tactic(auto, unfolding(crate::specs::Values::tables_at))]
    pub fn tables(&self, alloc: Global, name: &str) -> Result<Vec<Level<'a>>, NoMemory>
        ensures { IfOk result (λ r. map level_members r.items ≡ tables_at name.now (level_members self.now)) }
    {
        let mut tables = Vec::new(alloc);
        for value in self.items(name) {
            if let Value::Table(table) = value {
                tables.push(Level::new(table))?;
            }
        }
        Ok(tables)
    }
}

// Whether a value, if it is a table, has only keys of the list.
fn value_has_only(value: &Value, keys: &[Key]) -> bool
    ensures { result ≡ if_table (has_only keys.now) (view value.now) }
{
    match value {
        Value::Table(table) => Level::new(table).has_only(keys),
        _ => true,
    }
}

// Whether a value, if it is a table, has the types of the list.
fn value_has_types(value: &Value, keys: &[Key]) -> bool
    ensures { result ≡ if_table (has_types keys.now) (view value.now) }
{
    match value {
        Value::Table(table) => Level::new(table).has_types(keys),
        _ => true,
    }
}

#[cfg(test)]
mod tests {
    use super::*;
    use crate::key::{optional, required};
    use crate::read_document;
    use std::test::Fail;

    #[test]
    fn reads_what_stands_at_a_key(rt: HostRuntime) -> Result<(), Fail> {
        let bytes =
            b"n = -5\ns = \"hi\"\nns = [3, 1]\nss = [\"a\", \"\"]\nt.n = 7\n[[ts]]\nn = 8\n[[ts]]\nn = 9\n";
        let table = read_document(rt.alloc(), bytes)?;
        let level = Level::new(&table);
        assert_eq!(rt; level.integer("n"), -5);
        assert_eq!(rt; level.integer_or("none", 4), 4);
        assert_eq!(rt; level.text("s"), "hi");
        assert_eq!(rt;
            level.integers(rt.alloc(), "ns")?.as_slice(),
            [3, 1].as_slice()
        );
        let texts = level.texts(rt.alloc(), "ss")?.into_vec();
        assert_eq!(rt; texts.len(), 2);
        assert_eq!(rt; texts[0].as_str(), "a");
        assert_eq!(rt; texts[1].as_str(), "");
        assert_eq!(rt; level.table("t").integer("n"), 7);
        let tables = level.tables(rt.alloc(), "ts")?;
        assert_eq!(rt; tables.len(), 2);
        assert_eq!(rt; tables[0].integer("n"), 8);
        assert_eq!(rt; tables[1].integer("n"), 9);
        Ok(())
    }

    #[test]
    fn judges_keys_and_types(rt: HostRuntime) -> Result<(), Fail> {
        let cases: [(&[u8], bool, bool); 9] = [
            (b"a = 1\n", true, true),
            (b"a = 1\nb = [\"x\"]\n", true, true),
            (b"b = []\n", true, false),
            (b"a = 1\nc = 2\n", false, true),
            (b"a = 1\n\"a \" = 2\n", false, true),
            (b"a = 1.0\n", true, false),
            (b"a = 1\nb = [\"x\", 1]\n", true, false),
            (b"a = 1\nb = \"x\"\n", true, false),
            (b"a.a = 1\nB = 1\n", false, false),
        ];
        let keys = [required("a", Shape::INTEGER), optional("b", Shape::TEXTS)];
        for (bytes, known, typed) in cases {
            let table = read_document(rt.alloc(), bytes)?;
            let level = Level::new(&table);
            assert_eq!(rt; level.has_only(&keys), known, "{bytes:?}");
            assert_eq!(rt; level.has_types(&keys), typed, "{bytes:?}");
        }
        Ok(())
    }
}
