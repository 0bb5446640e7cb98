//! Reading a TOML file key by key: which keys a table may have, of which shape each value is, and
//! what stands at a key.
//!
//! `specs/` has the meanings that the readers above cite: `Keys` (a table has only known keys, and
//! its values have their shapes), `Values` (what stands at a key), `Document` (the bytes are a
//! document) and `Judged` (the least rule that a file breaks, or what it gives).
#![tactic(auto)]

/// The document that the bytes of a file are.
mod document;
/// The keys of a table, and their shapes.
mod key;
/// A table of a document, and what stands in it.
mod level;

pub use document::{DocumentFault, read_document};
pub use key::{Key, Kind, Shape, optional, required};
pub use level::Level;
