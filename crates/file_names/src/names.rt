// Names.
ghost use Rattle.std.specs.Prelude.{◌≡◌, true, Some, None, IfOk, if◌then◌else◌};
ghost use Rattle.file_names.specs.ShortNames.{is_short_name};

use file_limits::MAX_NAME;
use file_words::{NameWord, NoMemory, is_name};
use std::alloc::Global;
use std::marker::Model;
use wsm_lists::Listing;

/// A name: 1 to 64 ASCII letters, digits, `_`, `-` and `.`, of which the first is a letter or `_`.
#[derive(Drop)]
pub struct Name64 {
    bytes: Vec<u8>,
}

impl Model for Name64 {
    ghost use Rattle.std.specs.Prelude.{◌≡◌, ℕ, List, true};
    ghost use Rattle.file_names.specs.ShortNames.{is_short_name};

    ghost Value = { List ℕ };

    ghost view = { λ a. a.bytes.items };

    ghost invariant = { λ a. is_short_name a.bytes.items ≡ true };
}

/// Whether a word is a name that a file may keep.
pub fn is_short_name(word: &[u8]) -> bool
    ensures { result ≡ is_short_name word.now }
{
    is_name(word) && word.len() <= MAX_NAME
}

/// Names by their numbers: the name at an index has that number.
pub type Names = Listing<Name64>;

impl Name64 {
    /// The name of these bytes. None where they are no name.
    pub fn of(alloc: Global, bytes: &[u8]) -> Result<Option<Name64>, NoMemory>
        ensures { IfOk result (λ name. name ≡ (if is_short_name bytes.now then Some bytes.now else None)) }
    {
        match NameWord::of(bytes) {
            None => Ok(None),
            Some(word) => {
                if word.bytes.len() > MAX_NAME {
                    return Ok(None);
                }
                Ok(Some(Name64::of_word(alloc, word)?))
            }
        }
    }

    /// The name of a word that is short enough.
    pub fn of_word(alloc: Global, word: NameWord<'_>) -> Result<Name64, NoMemory>
        requires { is_short_name word.bytes.now ≡ true }
        ensures { IfOk result (λ name. name ≡ word.entry.bytes.now) }
    {
        Ok(Name64 {
            bytes: Vec::from_slice(alloc, word.bytes)?,
        })
    }

    pub(crate) fn from_bytes(bytes: Vec<u8>) -> Name64
        requires { is_short_name bytes.items ≡ true }
        ensures { result ≡ bytes.items }
    {
        Name64 { bytes }
    }

    /// The name as a word.
    pub fn word(&self) -> NameWord<'_>
        ensures bytes { result.bytes.now ≡ self.now }
        ensures short { is_short_name result.bytes.now ≡ true }
    {
        NameWord { bytes: &self.bytes }
    }

    pub(crate) fn into_bytes(self) -> Vec<u8>
        ensures bytes { result.items ≡ self }
        ensures name { is_short_name result.items ≡ true }
    {
        self.bytes
    }

    /// The bytes of the name.
    pub fn bytes(&self) -> &[u8]
        ensures bytes { result.now ≡ self.now }
        ensures name { is_short_name result.now ≡ true }
    {
        &self.bytes
    }
}
