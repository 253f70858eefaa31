// Words of a line.
ghost use Rattle.std.specs.Prelude.{◌≡◌, ◌<◌, not, length, option_map};
ghost use Rattle.std.specs.List.{position};
ghost use Rattle.swss_script.specs.Words.{is_blank, IsNextWord, the_word, three_words, two_words, words_in};

/// The first word of a text and the text behind it, or None where there is no word. Spaces and tabs separate words.
pub fn next_word(text: &str) -> Option<(&str, &str)>
    ensures { IsNextWord text.now (option_map (λ parts. (parts.0.now, parts.1.now)) result) }
{
    let start = word_start(text.as_bytes())?;
    let text = &text[start..];
    match word_end(text.as_bytes()) {
        Some(end) => Some((&text[..end], &text[end..])),
        None => Some((text, "")),
    }
}

/// The one word of a text, or None where it has none or more.
pub fn one_word(text: &str) -> Option<&str>
    ensures { option_map (λ word. word.now) result ≡ the_word (words_in text.now) }
{
    let (word, behind) = next_word(text)?;
    match next_word(behind) {
        Some(_) => None,
        None => Some(word),
    }
}

/// The two words of a text, or None where it has fewer or more.
pub fn two_words(text: &str) -> Option<(&str, &str)>
    ensures { option_map (λ words. (words.0.now, words.1.now)) result ≡ two_words (words_in text.now) }
{
    let (first, behind) = next_word(text)?;
    let second = one_word(behind)?;
    Some((first, second))
}

/// The three words of a text, or None where it has fewer or more.
pub fn three_words(text: &str) -> Option<(&str, &str, &str)>
    ensures { option_map (λ words. (words.0.now, words.1.now, words.2.now)) result ≡ three_words (words_in text.now) }
{
    let (first, behind) = next_word(text)?;
    let (second, third) = two_words(behind)?;
    Some((first, second, third))
}

/// The place of the first byte of a word.
fn word_start(text: &[u8]) -> Option<usize>
    ensures { result ≡ position (λ byte. not (is_blank byte)) text.now }
{
    text.iter().position(|byte| !is_blank(*byte))
}

/// The place of the first blank.
fn word_end(text: &[u8]) -> Option<usize>
    ensures { result ≡ position is_blank text.now }
{
    text.iter().position(|byte| is_blank(*byte))
}

/// Whether a byte separates words.
fn is_blank(byte: u8) -> bool
    ensures { result ≡ is_blank byte }
{
    byte == b' ' || byte == b'\t'
}
