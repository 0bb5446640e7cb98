//! Tables and values of TOML documents, and the text of a document.

ghost use Rattle.std.specs.Prelude.{◌≡◌, ◌≤◌, Some, OnOk, IfOk, string_bytes};
ghost use Rattle.toml.specs.Data.{string, array, table, members_depth};
ghost use Rattle.toml.specs.Parse.{parse_document};
ghost use Rattle.toml.specs.View.{view, array_view, table_view};
ghost use Rattle.workload.specs.Documents.{number, numbers};
ghost use Rattle.workload.specs.inner.Inserted.{with_key};

use soc_base::{NoMemory, Text};
use std::alloc::Global;
use toml::{Table, Value};

// Puts a value at a key of a table.
fn put(alloc: Global, into: &mut Table, key: &str, value: Value) -> Result<(), NoMemory>
    ensures { OnOk result (table_view into.new ≡ with_key key.now (view value) (table_view into.old)) }
{
    let key = String::from_str(alloc, key)?;
    drop(into.insert(key, value)?);
    Ok(())
}

/// Puts a number at a key of a table.
pub fn put_number(alloc: Global, into: &mut Table, key: &str, value: u32) -> Result<(), NoMemory>
    ensures { OnOk result (table_view into.new ≡ with_key key.now (number value) (table_view into.old)) }
{
    put(alloc, into, key, Value::Integer(i64::from(value)))
}

// Makes an array of numbers.
fn array_of(alloc: Global, values: &[u8]) -> Result<Value, NoMemory>
    ensures { IfOk result (λ array. view array ≡ numbers values.now) }
{
    let mut items = Vec::new(alloc);
    for value in values {
        items.push(Value::Integer(i64::from(*value)))?;
    }
    Ok(Value::Array(items))
}

/// Puts an array of numbers at a key of a table.
pub fn put_numbers(
    alloc: Global,
    into: &mut Table,
    key: &str,
    values: &[u8],
) -> Result<(), NoMemory>
    ensures { OnOk result (table_view into.new ≡ with_key key.now (numbers values.now) (table_view into.old)) }
{
    let values = array_of(alloc, values)?;
    put(alloc, into, key, values)
}

/// Puts a text at a key of a table.
pub fn put_text(alloc: Global, into: &mut Table, key: &str, text: String) -> Result<(), NoMemory>
    ensures { OnOk result (table_view into.new
        ≡ with_key key.now (string (string_bytes text)) (table_view into.old)) }
{
    put(alloc, into, key, Value::String(text))
}

/// Puts an array of values at a key of a table.
pub fn put_array(
    alloc: Global,
    into: &mut Table,
    key: &str,
    values: Vec<Value>,
) -> Result<(), NoMemory>
    ensures { OnOk result (table_view into.new ≡ with_key key.now (array (array_view values)) (table_view into.old)) }
{
    put(alloc, into, key, Value::Array(values))
}

/// Puts a table at a key of a table.
pub fn put_table(alloc: Global, into: &mut Table, key: &str, inner: Table) -> Result<(), NoMemory>
    ensures { OnOk result (table_view into.new ≡ with_key key.now (table (table_view inner)) (table_view into.old)) }
{
    put(alloc, into, key, Value::Table(inner))
}

/// Makes the text of a document. It is no deeper than 80, which is as deep as the library `toml` reads.
pub fn document_text(alloc: Global, document: &Table) -> Result<Text, NoMemory>
    requires { members_depth (table_view document.now) ≤ 80 }
    ensures { IfOk result (λ text. parse_document text ≡ Some (table_view document.now)) }
{
    match toml::table_to_string(alloc, document) {
        Ok(text) => Ok(Text::from_string(text)),
        // The library refuses dates that are none besides, and no document here has a date.
        Err(_) => Err(NoMemory),
    }
}
