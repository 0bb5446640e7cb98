//! The document that the bytes of a file are.

ghost use Rattle.std.specs.Prelude.{◌≡◌, IfOk};
ghost use Rattle.toml.specs.View.{table_view};
ghost use Rattle.toml_keys.specs.Document.{Reads};

use soc_base::MOST_FILE_BYTES;
use std::alloc::Global;
use thiserror::Error;
use toml::Table;

/// Why a file was not read.
#[derive(Clone, Copy, Debug, PartialEq, Eq, Error)]
pub enum DocumentFault {
    /// The bytes are more than `MOST_FILE_BYTES`, aren't UTF-8 or aren't a document of the library `toml`.
    #[error("no document")]
    NoDocument,
    /// Memory was wanted and not had.
    #[error("no memory")]
    NoMemory,
}

/// Reads the document that the bytes of a file are. Refuses bytes that are none.
pub fn read_document(alloc: Global, bytes: &[u8]) -> Result<Table, DocumentFault>
    ensures value { IfOk result (λ table. Reads bytes.now (Some (table_view table))) }
    ensures refused { result ≡ Err DocumentFault.NoDocument → Reads bytes.now None }
{
    if bytes.len() > MOST_FILE_BYTES {
        return Err(DocumentFault::NoDocument);
    }
    let Ok(text) = std::str::from_utf8(bytes) else {
        return Err(DocumentFault::NoDocument);
    };
    match toml::table_from_str(alloc, text) {
        Ok(table) => Ok(table),
        Err(error) => {
            if error.is_memory() {
                return Err(DocumentFault::NoMemory);
            }
            Err(DocumentFault::NoDocument)
        }
    }
}

#[cfg(test)]
mod tests {
    use super::*;

    #[test]
    fn reads_documents_alone(rt: HostRuntime) {
        let cases: [(&[u8], bool); 9] = [
            (b"", true),
            (b"a = 1\r\nb = [\"x\"]\r\n", true),
            (b"\xef\xbb\xbfa = 1\n", true),
            (b"a = 9223372036854775807\n", true),
            (b"a = 9223372036854775808\n", false),
            (b"a =", false),
            (b"a = \"\xff\"\n", false),
            (b"a = 1\na = 2\n", false),
            (b"a = \"x", false),
        ];
        for (bytes, is_document) in cases {
            let read = read_document(rt.alloc(), bytes);
            assert_eq!(rt; read.is_ok(), is_document, "{bytes:?}");
        }
    }
}
