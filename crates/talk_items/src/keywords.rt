// Words that tell what a line is.
ghost use Rattle.std.specs.Prelude.{◌≡◌, ◌||◌, codes, false};
ghost use Rattle.file_words.specs.Words.{is};
ghost use Rattle.talk_items.specs.Keywords.{keyword};

/// What a word is, as far as it tells what its line is.
#[derive(Clone, Copy, Debug, PartialEq, Eq, Default)]
pub enum Keyword {
    /// `?`
    Question,
    /// `if`
    If,
    /// `move`
    Move,
    /// `type`
    Type,
    /// `actor`, `case` or `phase`
    Declaration,
    /// `change` or `install`
    Change,
    /// `end`
    End,
    /// `adept`
    Adept,
    /// `1`, `2` or `3`
    Format,
    /// A word whose first byte is `#`.
    Comment,
    #[default]
    Other,
}

// Whether a word is one of those behind an actor's name that open a group: most words are shorter.
#[tactic(auto, using(crate::proofs::Changes::short_is_none))]
fn is_change(word: &[u8]) -> bool
    ensures { result ≡ (is (codes "change") word.now || is (codes "install") word.now) }
{
    if word.len() < 6 {
        return false;
    }
    word == b"change".as_slice() || word == b"install".as_slice()
}

// What any other word is.
fn other_keyword(word: &[u8]) -> Keyword
    requires { (is (codes "change") word.now || is (codes "install") word.now) ≡ false }
    ensures { result ≡ keyword word.now }
{
    match word {
        [b'#', ..] => Keyword::Comment,
        b"?" => Keyword::Question,
        b"if" => Keyword::If,
        b"move" => Keyword::Move,
        b"type" => Keyword::Type,
        b"actor" => Keyword::Declaration,
        b"case" => Keyword::Declaration,
        b"phase" => Keyword::Declaration,
        b"end" => Keyword::End,
        b"adept" => Keyword::Adept,
        b"1" => Keyword::Format,
        b"2" => Keyword::Format,
        b"3" => Keyword::Format,
        _ => Keyword::Other,
    }
}

// What a word is.
#[tactic(auto, using(crate::proofs::Changes::change_is))]
pub(crate) fn keyword_of(word: &[u8]) -> Keyword
    ensures { result ≡ keyword word.now }
{
    if is_change(word) {
        Keyword::Change
    } else {
        other_keyword(word)
    }
}
