//! The path from bytes to an answer, which is one for all kinds of text.

ghost use Rattle.std.specs.Prelude.{◌≡◌, ◌⊎◌, ℕ, List, map, IfOk, IfErr};
ghost use Rattle.rg_words.specs.Refusals.{no_memory};
ghost use Rattle.rg_syntax.specs.Grammar.{lexeme_of};
ghost use Rattle.rg_syntax.specs.declared.text_kind.TextKind.{TextKind};
ghost use Rattle.rg_resolve.specs.Faults.{Fault, IsRefusal};
ghost use Rattle.rg_parse.specs.Parse.{last_line};
ghost use Rattle.rg_parse.specs.Spelled.{Said, IsParsed, IsWithin, Spells, SpellsUpTo, IsTextRefusal};
ghost use Rattle.rg_parse.specs.Inner.Reading.{Meaning, IsSaid};

use rg_text::Tokens;
use rg_text::token::Token;
use rg_words::{Refusal, SourceFile};
use std::alloc::Global;

/// What reads texts of one kind.
pub(crate) trait Reader {
    /// The tree as it is written.
    type Written: Drop;

    /// What the text stands for.
    type Answer;

    /// The kind of text.
    ghost kind: { TextKind };

    /// What a tree says, whose words and numbers are of these bytes.
    ghost says: { List ℕ → Self.Written → Said kind };

    /// What the answer is, seen as a value.
    ghost view: { Self.Answer → Meaning kind };

    /// What is said stands for this.
    ghost stands: { Self → Said kind → Meaning kind → Type 0 };

    /// The faults of what is said, in the order of the text.
    ghost faults: { Self → Said kind → List Fault };

    /// What is true of each answer.
    ghost holds: { Self → Self.Answer → Type 0 };

    /// The tree that the tokens of a file spell, or the first fault of their shape.
    fn parse(
        &self,
        alloc: Global,
        file: SourceFile,
        tokens: &[Token],
    ) -> Result<Self::Written, Refusal>
        ensures answers { (src : List ℕ) → IsParsed kind (says src) file src tokens.now result }
        ensures accepts { (src : List ℕ) → IsWithin kind (map (lexeme_of src) tokens.now) → IfErr result (λ e. e ≡ no_memory) };

    /// What the tree stands for, or the first fault of its meaning.
    fn resolve(
        &self,
        alloc: Global,
        file: SourceFile,
        source: &[u8],
        written: &Self::Written,
    ) -> Result<Self::Answer, Refusal>
        requires { IsSaid kind source.now (says source.now written.now) }
        ensures stands { IfOk result (λ a. stands self.now (says source.now written.now) (view a)) }
        ensures holds { IfOk result (holds self.now) }
        ensures refused { IfErr result (λ e. (e ≡ no_memory)
            ⊎ ((m : Meaning kind) → stands self.now (says source.now written.now) m → ⊥)) }
        ensures fault { IfErr result (IsRefusal file (faults self.now (says source.now written.now))) };
}

/// The line of the last token, and 1 where there is none.
fn last_line(tokens: &[Token]) -> u32
    ensures { result ≡ last_line tokens.now }
{
    match tokens.get(tokens.len().saturating_sub(1)) {
        Some(token) => token.line,
        None => 1,
    }
}

/// What the bytes of a file stand for, and the line of their last token, 1 where there is none.
pub(crate) fn read_with_last_line<R: Reader>(
    reader: &R,
    alloc: Global,
    file: SourceFile,
    source: &[u8],
) -> Result<(R::Answer, u32), Refusal>
    ensures spells { IfOk result (λ r. SpellsUpTo R.kind (R.stands reader.now) source.now (R.view r.0) r.1) }
    ensures holds { IfOk result (λ r. R.holds reader.now r.0) }
    ensures refused { IfErr result (IsTextRefusal R.kind (R.faults reader.now) file source.now) }
    ensures accepts { (m : Meaning R.kind) → Spells R.kind (R.stands reader.now) source.now m → IfErr result (λ e. e ≡ no_memory) }
{
    let tokens = match Tokens::read(alloc, source, file) {
        Ok(tokens) => tokens,
        Err(refusal) => return Err(refusal),
    };
    let written = match reader.parse(alloc, file, tokens.as_slice()) {
        Ok(written) => written,
        Err(refusal) => return Err(refusal),
    };
    let last = last_line(tokens.as_slice());
    match reader.resolve(alloc, file, source, &written) {
        Ok(answer) => Ok((answer, last)),
        Err(refusal) => Err(refusal),
    }
}

/// What the bytes of a file stand for.
pub(crate) fn read<R: Reader>(
    reader: &R,
    alloc: Global,
    file: SourceFile,
    source: &[u8],
) -> Result<R::Answer, Refusal>
    ensures spells { IfOk result (λ a. Spells R.kind (R.stands reader.now) source.now (R.view a)) }
    ensures holds { IfOk result (R.holds reader.now) }
    ensures refused { IfErr result (IsTextRefusal R.kind (R.faults reader.now) file source.now) }
    ensures accepts { (m : Meaning R.kind) → Spells R.kind (R.stands reader.now) source.now m → IfErr result (λ e. e ≡ no_memory) }
{
    match read_with_last_line(reader, alloc, file, source) {
        Ok((answer, _)) => Ok(answer),
        Err(refusal) => Err(refusal),
    }
}
