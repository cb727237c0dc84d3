//! Tables of a TOML document, read by their keys: each key has a kind of value, a table's least unknown
//! key is refused first, and a refusal names the place of what it refuses.
#![tactic(auto)]

mod array;
mod document;
mod key;
mod keys;
mod kind;
mod place;
mod pre_error;
mod text;
mod word;

pub use array::{ArrayOf, Each, Item};
pub use document::read_document;
pub use key::{key_rule, present, read_value, rule};
pub use keys::{And, Keys, Named, Names, read_keys, read_known};
pub use kind::{Flag, FromTable, Kind, Number, Tabled};
pub use place::Place;
pub use pre_error::{PreError, out_of_range, too_many, wrong_kind};
pub use text::{NameText, Text, read_name};
pub use word::{Word, WordList};
