ghost use Rattle.std.specs.Prelude.{◌≡◌};
ghost use Rattle.toml.specs.View.{table_view};
ghost use Rattle.taps_table.specs.Refusals.{Shows};
ghost use Rattle.taps_table.specs.Documents.{document};

use crate::PreError;
use std::alloc::Global;
use toml::Table;

/// The document that the bytes are.
#[tactic(auto, using(crate::proofs::Documents::document_read, crate::proofs::Documents::document_refused))]
pub fn read_document(alloc: Global, bytes: &[u8]) -> Result<Table, PreError>
    ensures { Shows (λ t. table_view t) result (document bytes.now) }
{
    match toml::table_from_slice(alloc, bytes) {
        Ok(table) => Ok(table),
        Err(e) => {
            if e.is_memory() {
                Err(PreError::NoMemory)
            } else {
                Err(PreError::NotToml)
            }
        }
    }
}
