//! The tokens of a source.

ghost use Rattle.std.specs.Prelude.{◌≡◌, ℕ, ◌+◌, ◌<◌, ◌≤◌, ◌⊎◌, ◌↔◌, true, List, length, All, IfOk, IfErr, IsErrOf, IsErrAnd, IsSome, MatchResult};
ghost use Rattle.rg_words.specs.Refusals.{no_memory, refused_at};
ghost use Rattle.rg_words.specs.Names.{is_keyword};
ghost use Rattle.rg_text.specs.Spelling.{keyword_of};
ghost use Rattle.rg_text.specs.declared.token.Token.{Token};
ghost use Rattle.rg_text.specs.Tokenization.{line_at, IsTokenized, IsBadByte, IsTokenOf, IsReadRefusal};

use crate::gap::{gap_len, line_feeds};
use crate::scan::token_at;
use crate::token::Token;
use rg_words::limits::MOST_TEXT_BYTES;
use rg_words::{Place, Refusal, RefusalNumber, SourceFile};
use std::alloc::Global;
use std::marker::Model;

/// The tokens of a source, in the order of the text.
#[derive(Drop)]
pub struct Tokens {
    tokens: Vec<Token>,
}

impl Model for Tokens {
    ghost use Rattle.std.specs.Prelude.{List};
    ghost use Rattle.rg_text.specs.declared.token.Token.{Token};

    ghost Value = { List Token };

    ghost view = { λ t. t.tokens.items };
}

impl Tokens {
    /// The tokens of a source. `file` is the file that a refusal names.
    ///
    /// # Errors
    ///
    /// - `Limit` at line 1, where the source has more than `MOST_TEXT_BYTES` bytes; before all else.
    /// - `BadByte` at the line of the first byte that begins no token.
    /// - `Memory` where memory is refused.
    pub fn read(alloc: Global, source: &[u8], file: SourceFile) -> Result<Tokens, Refusal>
        ensures fits { IfOk result (λ tokens. length source.now ≤ MOST_TEXT_BYTES) }
        ensures tokens { IfOk result (λ tokens. IsTokenized source.now tokens) }
        ensures each { IfOk result (λ tokens. All (IsTokenOf source.now) tokens) }
        ensures lines { IfOk result (λ tokens. All (λ t. t.line ≤ MOST_TEXT_BYTES + 1) tokens) }
        ensures refused { IfErr result (IsReadRefusal file source.now) }
        // A source that is too large is refused, whatever it holds.
        ensures too_large { MOST_TEXT_BYTES < length source.now
            → IsErrOf result (refused_at RefusalNumber.Limit file 1) }
        // What is tokenized so is read so, unless memory runs out.
        ensures only_tokens { (ts : List Token) → length source.now ≤ MOST_TEXT_BYTES
            → IsTokenized source.now ts
            → MatchResult result (λ tokens. tokens ≡ ts) (λ e. e ≡ no_memory) }
        // A bad byte is refused at its line, unless memory runs out.
        ensures only_bad_byte { (place : ℕ) → length source.now ≤ MOST_TEXT_BYTES
            → IsBadByte source.now place
            → IsErrAnd result (λ e. (e ≡ no_memory)
            ⊎ (e ≡ refused_at RefusalNumber.BadByte file (line_at source.now place))) }
    {
        if source.len() > MOST_TEXT_BYTES {
            return Err(refusal(RefusalNumber::Limit, file, 1));
        }
        let tokens = cut(alloc, source, file)?;
        Ok(Tokens { tokens })
    }

    /// The tokens, in the order of the text.
    pub fn as_slice(&self) -> &[Token]
        ensures { result.now ≡ self.now }
    {
        &self.tokens
    }
}

/// The tokens of a source whose size is within the limit.
fn cut(alloc: Global, source: &[u8], file: SourceFile) -> Result<Vec<Token>, Refusal>
    requires { length source.now ≤ MOST_TEXT_BYTES }
    ensures tokens { IfOk result (λ tokens. IsTokenized source.now tokens.items) }
    ensures refused { IfErr result (λ e. (e ≡ no_memory)
        ⊎ ((place : ℕ) × IsBadByte source.now place
        × (e ≡ refused_at RefusalNumber.BadByte file (line_at source.now place)))) }
{
    let mut tokens = Vec::new(alloc);
    let mut line = 1;
    let mut end = 0;
    loop {
        let start = end + gap_len(&source[end..]);
        line += line_feeds(&source[end..start]) as u32;
        if start == source.len() {
            return Ok(tokens);
        }
        let Some((len, kind)) = token_at(&source[start..]) else {
            return Err(refusal(RefusalNumber::BadByte, file, line));
        };
        end = start + len;
        tokens.push(Token {
            kind,
            start,
            end,
            line,
        })?;
    }
}

fn refusal(number: RefusalNumber, file: SourceFile, line: u32) -> Refusal
    ensures { result ≡ refused_at number file line }
{
    Refusal {
        number,
        file: Some(file),
        place: Some(Place::Line(u64::from(line))),
    }
}

/// A source has one list of tokens, or one bad byte after some tokens, and never both.
pub fn one_tokenization()
    ensures tokens { (source : List ℕ) (ts us : List Token)
        → IsTokenized source ts → IsTokenized source us → ts ≡ us }
    ensures bad_byte { (source : List ℕ) (place other : ℕ)
        → IsBadByte source place → IsBadByte source other → place ≡ other }
    ensures never_both { (source : List ℕ) (ts : List Token) (place : ℕ)
        → IsTokenized source ts → IsBadByte source place → ⊥ }
{}

/// The words that are kept for the language are the keywords.
pub fn kept_words_are_keywords()
    ensures { (text : List ℕ) → (is_keyword text ≡ true) ↔ IsSome (keyword_of text) }
{}
