//! Lines, words and numbers.

ghost use Rattle.std.specs.Prelude.{◌≡◌, ◌+◌, ◌<◌, ◌≤◌, ℕ, List, [], ◌∷◌, length, MatchOption, IsTrue, ◌==◌, slice_index};
ghost use Rattle.std.specs.List.{position, slice_split, before_first, after_first, position_or_len};
ghost use Rattle.std.specs.Str.Lines.{lines, strip_carriage_return};
ghost use Rattle.heap_script.specs.Words.{words, is_passed_over, is_printable, number_of};

/// Where the byte stands first.
fn index_of(bytes: &[u8], at: u8) -> Option<usize>
    ensures { result ≡ position (λ b. b == at) bytes.now }
{
    bytes.iter().position(|b| *b == at)
}

/// A line without one CR at its end.
fn without_return(line: &[u8]) -> &[u8]
    ensures { result.now ≡ strip_carriage_return line.now }
{
    let len = line.len();
    if len > 0 && line[len - 1] == b'\r' {
        &line[..len - 1]
    } else {
        line
    }
}

/// What stands before the first such byte, and what stands after it; None if there is none.
pub(crate) fn cut(bytes: &[u8], at: u8) -> Option<(&[u8], &[u8])>
    ensures { MatchOption result (length bytes.now ≤ position_or_len (λ b. b == at) bytes.now)
        (λ x. (position_or_len (λ b. b == at) bytes.now < length bytes.now)
        × (x.0.now ≡ before_first (λ b. b == at) bytes.now)
        × (x.1.now ≡ after_first (λ b. b == at) bytes.now)) }
{
    match index_of(bytes, at) {
        None => None,
        Some(i) => Some((&bytes[..i], &bytes[i + 1..])),
    }
}

/// The first line, and the bytes after it.
pub(crate) fn next_line(bytes: &[u8]) -> (&[u8], &[u8])
    requires { 0 < length bytes.now }
    ensures found { lines bytes.now ≡ result.0.now ∷ lines result.1.now }
    ensures shorter { length result.1.now < length bytes.now }
{
    match cut(bytes, b'\n') {
        None => (bytes, &[]),
        Some((line, rest)) => (without_return(line), rest),
    }
}

/// The first word, and the bytes after it; None if there is no word.
pub(crate) fn next_word(line: &[u8]) -> Option<(&[u8], &[u8])>
    ensures { MatchOption result (words line.now ≡ []) (λ x. words line.now ≡ x.0.now ∷ words x.1.now) }
{
    let mut left = line;
    while let Some((word, rest)) = cut(left, b' ') {
        if !word.is_empty() {
            return Some((word, rest));
        }
        left = rest;
    }
    if left.is_empty() {
        None
    } else {
        Some((left, &[]))
    }
}

/// The first byte, or 0 for no bytes.
pub(crate) fn first_byte(word: &[u8]) -> u8
    ensures { result ≡ slice_index word.now 0 }
{
    match word {
        [] => 0,
        [b, ..] => *b,
    }
}

/// Whether each byte is one of 32 to 126.
pub(crate) fn all_printable(line: &[u8]) -> bool
    ensures { result ≡ is_printable line.now }
{
    line.iter().all(|b| 32 <= *b && *b <= 126)
}

/// Whether the line says nothing: it has no words, or the first begins with `;`.
pub(crate) fn passed_over(line: &[u8]) -> bool
    ensures { result ≡ is_passed_over (words line.now) }
{
    match next_word(line) {
        None => true,
        Some((word, _)) => first_byte(word) == b';',
    }
}

/// The number that the word is: 1 to 20 digits, so less than 10^20.
pub fn number(word: &[u8]) -> Option<u128>
    ensures { result ≡ number_of word.now }
{
    if word.is_empty() || word.len() > 20 {
        return None;
    }
    let mut n = 0u128;
    for b in word {
        if !b.is_ascii_digit() {
            return None;
        }
        n = n * 10 + u128::from(*b - b'0');
    }
    Some(n)
}
