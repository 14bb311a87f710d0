// Names in a line.
ghost use Rattle.std.specs.{Prelude.{◌≡◌, true, false, IfSome, IfNone}, List.list_all};
ghost use Rattle.file_words.specs.Names.{is_name, starts_name, in_name};

/// A letter or `_`.
fn starts_name(byte: u8) -> bool
    ensures { result ≡ starts_name byte }
{
    matches!(byte, b'a'..=b'z' | b'A'..=b'Z' | b'_')
}

// Each byte that may stand in a name stands at its own place, and a comma at every other place.
static IN_NAMES: [u8; 256] = *b"\
    ,,,,,,,,,,,,,,,,,,,,,,,,,,,,,,,,\
    ,,,,,,,,,,,,,-.,0123456789,,,,,,\
    ,ABCDEFGHIJKLMNOPQRSTUVWXYZ,,,,_\
    ,abcdefghijklmnopqrstuvwxyz,,,,,\
    ,,,,,,,,,,,,,,,,,,,,,,,,,,,,,,,,\
    ,,,,,,,,,,,,,,,,,,,,,,,,,,,,,,,,\
    ,,,,,,,,,,,,,,,,,,,,,,,,,,,,,,,,\
    ,,,,,,,,,,,,,,,,,,,,,,,,,,,,,,,,";

/// Also a digit, `-` or `.`.
fn in_name(byte: u8) -> bool
    ensures { result ≡ in_name byte }
{
    IN_NAMES[byte as usize] != b','
}

fn all_in_name(word: &[u8]) -> bool
    ensures { result ≡ list_all in_name word.now }
{
    word.iter().all(|byte| in_name(*byte))
}

/// Whether the bytes are those of a name, of any length.
pub fn is_name(word: &[u8]) -> bool
    ensures { result ≡ is_name word.now }
{
    0 < word.len() && starts_name(word[0]) && all_in_name(word)
}

/// A word that is a name, of any length.
#[derive(Clone, Copy)]
pub struct NameWord<'a> {
    pub bytes: &'a [u8],
    ghost is_name: { is_name bytes.now ≡ true },
}

impl<'a> NameWord<'a> {
    /// The word as a name, where it is one.
    pub fn of(word: &'a [u8]) -> Option<NameWord<'a>>
        ensures some { IfSome result (λ name. name.bytes.now ≡ word.now) }
        ensures none { IfNone result (is_name word.now ≡ false) }
    {
        if is_name(word) {
            Some(NameWord { bytes: word })
        } else {
            None
        }
    }
}
