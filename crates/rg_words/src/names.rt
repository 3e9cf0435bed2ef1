//! Names of words and of parts, and the words that are kept for the language.

ghost use Rattle.std.specs.Prelude.{◌≡◌, is_some, IfSome};
ghost use Rattle.std.specs.List.{list_any, list_all};
ghost use Rattle.std.specs.Str.{bytes_eq};
ghost use Rattle.rg_words.specs.Names.{is_word_start, is_word_byte, is_keyword, is_word, is_name};

/// The words that are kept for the language.
const KEYWORDS: [&str; 38] = [
    "words", "fixed", "show", "pre", "rely", "guar", "post", "part", "begin", "end", "skip",
    "await", "do", "if", "then", "else", "while", "not", "and", "or", "implies", "iff", "true",
    "false", "inv", "band", "bor", "bxor", "shl", "shr", "line", "from", "basic", "atomic", "seq",
    "loop", "conseq", "at",
];

/// Whether a name may begin with this byte: an ASCII letter or `_`.
pub fn is_word_start(byte: u8) -> bool
    ensures { result ≡ is_word_start byte }
{
    byte.is_ascii_alphabetic() || byte == b'_'
}

/// Whether a name may go on with this byte: an ASCII letter, a digit or `_`.
pub fn is_word_byte(byte: u8) -> bool
    ensures { result ≡ is_word_byte byte }
{
    byte.is_ascii_alphanumeric() || byte == b'_'
}

/// Whether the text is one of these words.
fn is_among(words: &[&str], text: &str) -> bool
    ensures { result ≡ list_any (λ word. bytes_eq text.now word.now) words.now }
{
    words.iter().any(|word| text == *word)
}

/// Whether the text is kept for the language.
#[tactic(auto, unfolding(crate::specs::Names::is_keyword, crate::specs::Names::keywords))]
pub fn is_keyword(text: &str) -> bool
    ensures { result ≡ is_keyword text.now }
{
    is_among(&KEYWORDS, text)
}

/// Whether a name may go on with all of these bytes.
fn all_word_bytes(bytes: &[u8]) -> bool
    ensures { result ≡ list_all is_word_byte bytes.now }
{
    bytes.iter().all(|byte| is_word_byte(*byte))
}

/// Whether the text is a letter or `_`, and then letters, digits and `_`.
fn is_word(text: &str) -> bool
    ensures { result ≡ is_word text.now }
{
    match text.as_bytes() {
        [first, rest @ ..] => is_word_start(*first) && all_word_bytes(rest),
        [] => false,
    }
}

/// Whether a word or a part may be called so: a letter or `_`, then letters, digits and `_`, and no keyword.
#[tactic(auto, unfolding(crate::specs::Names::is_name))]
pub fn is_name(text: &str) -> bool
    ensures { result ≡ is_name text.now }
{
    is_word(text) && !is_keyword(text)
}

/// The bytes as the text of a name, where they are one.
pub fn as_name(bytes: &[u8]) -> Option<&str>
    ensures exact { is_some result ≡ is_name bytes.now }
    ensures text { IfSome result (λ text. text.now ≡ bytes.now) }
{
    let Ok(text) = str::from_utf8(bytes) else {
        return None;
    };
    if is_name(text) { Some(text) } else { None }
}
