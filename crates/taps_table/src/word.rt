ghost use Rattle.std.specs.Prelude.{◌≡◌, List, ℕ};
ghost use Rattle.toml.specs.View.{view};
ghost use Rattle.taps_table.specs.Words.{word_in, listed_words, word_of};

use crate::kind::Kind;
use crate::pre_error::{out_of_range, wrong_kind};
use crate::{Place, PreError};
use std::alloc::Global;
use std::marker::PhantomData;
use toml::Value;

/// Words, each of which stands for a value.
pub trait WordList {
    type Value: Copy + Drop + 'static;

    ghost words: { List (List ℕ × Self.Value) };

    /// The words, each with its value.
    fn words() -> &'static [(&'static str, Self::Value)]
        ensures { listed_words result.now ≡ words };
}

/// A word of a list.
#[derive(Clone, Copy, Drop)]
pub struct Word<W> {
    of: PhantomData<W>,
}

impl<W> Word<W> {
    /// A word of this list.
    pub fn new() -> Word<W> {
        Word { of: PhantomData }
    }
}

impl<W: WordList> Kind for Word<W> {
    type Output = W::Value;

    ghost reads = { λ _. word_of W.words };

    fn read(&self, alloc: Global, place: &Place<'_>, value: &Value) -> Result<W::Value, PreError> {
        match value.as_str() {
            None => wrong_kind(alloc, place),
            Some(word) => match find_word(W::words(), word) {
                Some(it) => Ok(it),
                None => out_of_range(alloc, place),
            },
        }
    }
}

fn find_word<T: Copy>(words: &[(&str, T)], word: &str) -> Option<T>
    ensures { result ≡ word_in (listed_words words.now) word.now }
{
    match words {
        [] => None,
        [first, rest @ ..] => {
            if first.0 == word {
                Some(first.1)
            } else {
                find_word(rest, word)
            }
        }
    }
}
