// Numbers in a line.
ghost use Rattle.std.specs.{Prelude.{◌≡◌, ◌≤◌, ◌+◌, ◌^◌, length, option_map, neg_ℤ, pos, true}, List.list_all};
ghost use Rattle.file_words.specs.{Names.is_digit, Numbers.{are_digits, value_from, number, role, code, integer}};

fn is_digit(byte: u8) -> bool
    ensures { result ≡ is_digit byte }
{
    matches!(byte, b'0'..=b'9')
}

fn all_digits(word: &[u8]) -> bool
    ensures { result ≡ list_all is_digit word.now }
{
    word.iter().all(|byte| is_digit(*byte))
}

/// Whether the word is 1 to `most` digits.
fn are_digits(most: usize, word: &[u8]) -> bool
    ensures { result ≡ are_digits most word.now }
{
    0 < word.len() && word.len() <= most && all_digits(word)
}

/// The value of at most 20 digits.
fn value(digits: &[u8]) -> u128
    requires short { length digits.now ≤ 20 }
    requires digits { list_all is_digit digits.now ≡ true }
    ensures { result ≡ value_from 0 digits.now }
{
    let mut n: u128 = 0;
    for digit in digits {
        n = n * 10 + (*digit - b'0') as u128;
    }
    n
}

/// The role of a word that is one.
pub fn role(word: &[u8]) -> Option<u32>
    ensures { result ≡ role word.now }
{
    if !are_digits(10, word) {
        return None;
    }
    let n = value(word);
    if n < 1 << 32 { Some(n as u32) } else { None }
}

/// The code of a word that is one.
pub fn code(word: &[u8]) -> Option<u16>
    ensures { result ≡ code word.now }
{
    if !are_digits(5, word) {
        return None;
    }
    let n = value(word);
    if n < 1 << 16 { Some(n as u16) } else { None }
}

fn positive(digits: &[u8]) -> Option<i64>
    ensures { result ≡ option_map pos (number 20 (2 ^ 63) digits.now) }
{
    if !are_digits(20, digits) {
        return None;
    }
    let n = value(digits);
    if n < 1 << 63 { Some(n as i64) } else { None }
}

fn negative(digits: &[u8]) -> Option<i64>
    ensures { result ≡ option_map (λ n. neg_ℤ (pos n)) (number 20 (2 ^ 63 + 1) digits.now) }
{
    if !are_digits(20, digits) {
        return None;
    }
    let n = value(digits);
    if n <= 1 << 63 {
        Some((-(n as i128)) as i64)
    } else {
        None
    }
}

/// The value of a word that is an integer of 64 bits, with its sign.
pub fn integer(word: &[u8]) -> Option<i64>
    ensures { result ≡ integer word.now }
{
    match word {
        [] => None,
        [b'-', digits @ ..] => negative(digits),
        _ => positive(word),
    }
}
