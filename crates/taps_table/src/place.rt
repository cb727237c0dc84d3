ghost use Rattle.std.specs.Prelude.{◌≡◌, IfOk, string_bytes};
ghost use Rattle.taps_table.specs.Places as spec;

use std::alloc::{AllocError, Global};

/// A place in a document. Its text is made for a refusal alone.
#[derive(Clone, Copy)]
pub enum Place<'a> {
    /// The top table.
    Top,
    /// The key of a table.
    Key(&'a Place<'a>, &'a str),
    /// The item of an array, counted from 0.
    Item(&'a Place<'a>, usize),
}

impl<'a> Place<'a> {
    /// Its text, as `remote[0].address`.
    pub fn text(&self, alloc: Global) -> Result<String, AllocError>
        ensures { IfOk result (λ s. string_bytes s ≡ spec.place_text self.now) }
    {
        match self {
            Place::Top => Ok(String::new(alloc)),
            Place::Key(table, key) => {
                let text = table.text(alloc)?;
                key_text(alloc, text.as_str(), key)
            }
            Place::Item(array, index) => {
                let text = array.text(alloc)?;
                item_text(alloc, text.as_str(), *index)
            }
        }
    }
}

fn key_text(alloc: Global, table: &str, key: &str) -> Result<String, AllocError>
    ensures { IfOk result (λ s. string_bytes s ≡ spec.key_text table.now key.now) }
{
    if table.is_empty() {
        String::from_str(alloc, key)
    } else {
        format!(in alloc; "{table}.{key}")
    }
}

fn item_text(alloc: Global, array: &str, index: usize) -> Result<String, AllocError>
    ensures { IfOk result (λ s. string_bytes s ≡ spec.item_text array.now index) }
{
    format!(in alloc; "{array}[{index}]")
}
