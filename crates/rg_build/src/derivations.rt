//! The lines of a derivation, built token by token.

ghost use Rattle.std.specs.Prelude.{◌≡◌, false, ℕ, List, [], ◌∷◌, map, option_map, IsTrue, IfOk};
ghost use Rattle.rg_text.specs.Text.{leaf_of};
ghost use Rattle.rg_syntax.specs.Written.{claim, line_text};
ghost use Rattle.rg_build.specs.Inner.Building.{whole_of};
ghost use Rattle.rg_build.specs.Frames.{stack, whole};
ghost use Rattle.rg_syntax.specs.Grammar.{DerivationSpelling, derivation, lexeme_as, lexeme_of};
ghost use Rattle.rg_syntax.specs.Texts.{derivation_of};
ghost use Rattle.rg_build.specs.Inner.BuildingLines.{sign, said, line_start, earlier, head, open_line, drafted, in_claim, one_premise_more, on_head, next_claim, end_line, on_claim, line_step, line_steps, whole_lines, nothing_read};

use crate::formulas::take_whole;
use crate::{Frame, put, take_token};
use rg_syntax::written::{FormulaText, LineText, SpecText};
use rg_text::kind::{Keyword, Kind, Terminal};
use rg_text::token::Token;
use rg_tree::line::Rule;
use std::alloc::{AllocError, Global};

/// What a token says outside the formulas of a derivation.
#[derive(Clone, Copy)]
pub enum LineSign {
    /// A line begins with it.
    Line(Token),
    Number(Token),
    Rule(Rule),
    /// The first formula of a line follows.
    Pre,
    /// Another of its formulas follows.
    Next,
    Other,
}

/// A line before its specification.
#[derive(Drop)]
pub struct LineHead {
    pub begin: Token,
    pub number: Token,
    pub rule: Rule,
    pub statement: Token,
    pub premises: Vec<Token>,
}

/// The formulas of a line before the one that is read.
#[derive(Drop)]
pub enum Claims {
    None,
    Pre(FormulaText),
    Rely(FormulaText, FormulaText),
    Guar(FormulaText, FormulaText, FormulaText),
}

/// How far a line is read before its specification.
#[derive(Drop)]
pub enum HeadSoFar {
    /// Its `line` is wanted.
    Unread,
    /// After that word.
    Begun(Token),
    /// After its own number.
    Numbered(Token, Token),
    /// After its rule.
    Ruled(Token, Token, Rule),
    /// After the number of its statement, and after its premises.
    Premises(LineHead),
}

/// Where a derivation is read: before the specification of a line, or in one of its formulas.
#[derive(Drop)]
pub enum LinePlace {
    Head(HeadSoFar),
    Claim(LineHead, Claims, Vec<Frame>),
}

/// The whole lines, and the one that is open.
#[derive(Drop)]
pub struct DerivationDraft {
    pub lines: Vec<LineText>,
    pub place: LinePlace,
}

/// What the token says outside formulas.
fn sign_of(token: Token) -> LineSign
    ensures { (src : List ℕ) → sign src result ≡ said (lexeme_of src token) }
{
    match token.kind {
        Kind::Name | Kind::Primed => LineSign::Other,
        Kind::Number => LineSign::Number(token),
        Kind::Fixed(terminal) => sign_of_terminal(terminal, token),
    }
}

/// What a keyword or a symbol says.
fn sign_of_terminal(terminal: Terminal, token: Token) -> LineSign
    ensures { (src : List ℕ) → sign src result ≡ said (lexeme_as (Kind.Fixed terminal) (leaf_of src token)) }
{
    match terminal {
        Terminal::If => LineSign::Rule(Rule::If),
        Terminal::Section(keyword) => sign_of_keyword(keyword, token),
        _ => LineSign::Other,
    }
}

/// What a keyword says.
fn sign_of_keyword(keyword: Keyword, token: Token) -> LineSign
    ensures { (src : List ℕ) → sign src result ≡ said (lexeme_as (Kind.Fixed (Terminal.Section keyword)) (leaf_of src token)) }
{
    match keyword {
        Keyword::Line => LineSign::Line(token),
        Keyword::Basic => LineSign::Rule(Rule::Basic),
        Keyword::Atomic => LineSign::Rule(Rule::Atomic),
        Keyword::Seq => LineSign::Rule(Rule::Seq),
        Keyword::Loop => LineSign::Rule(Rule::Loop),
        Keyword::Conseq => LineSign::Rule(Rule::Conseq),
        Keyword::Pre => LineSign::Pre,
        Keyword::Rely | Keyword::Guar | Keyword::Post => LineSign::Next,
        _ => LineSign::Other,
    }
}

/// The place before the formula after these.
fn claim_wanted(alloc: Global, line: LineHead, claims: Claims) -> Result<LinePlace, AllocError>
    ensures { IfOk result (λ p. (src : List ℕ) → open_line src p ≡ in_claim (line_start src line) (earlier src claims) (whole ∷ [])) }
{
    let mut frames = Vec::new(alloc);
    put(&mut frames, Frame::Whole)?;
    Ok(LinePlace::Claim(line, claims, frames))
}

/// The line with one premise more.
fn with_premise(line: LineHead, premise: Token) -> Result<LineHead, AllocError>
    ensures { IfOk result (λ h. (src : List ℕ) → line_start src h ≡ one_premise_more (line_start src line) (leaf_of src premise)) }
{
    let mut premises = line.premises;
    put(&mut premises, premise)?;
    Ok(LineHead {
        begin: line.begin,
        number: line.number,
        rule: line.rule,
        statement: line.statement,
        premises,
    })
}

/// Takes a token before the specification of a line.
fn on_head(alloc: Global, begun: HeadSoFar, next: LineSign) -> Result<LinePlace, AllocError>
    ensures { IfOk result (λ p. (src : List ℕ) → open_line src p ≡ on_head (head src begun) (sign src next)) }
{
    match (begun, next) {
        (HeadSoFar::Unread, LineSign::Line(begin)) => Ok(LinePlace::Head(HeadSoFar::Begun(begin))),
        (HeadSoFar::Begun(begin), LineSign::Number(number)) => {
            Ok(LinePlace::Head(HeadSoFar::Numbered(begin, number)))
        }
        (HeadSoFar::Numbered(begin, number), LineSign::Rule(rule)) => {
            Ok(LinePlace::Head(HeadSoFar::Ruled(begin, number, rule)))
        }
        (HeadSoFar::Ruled(begin, number, rule), LineSign::Number(statement)) => {
            Ok(LinePlace::Head(HeadSoFar::Premises(LineHead {
                begin,
                number,
                rule,
                statement,
                premises: Vec::new(alloc),
            })))
        }
        (HeadSoFar::Premises(line), LineSign::Number(premise)) => {
            let line = with_premise(line, premise)?;
            Ok(LinePlace::Head(HeadSoFar::Premises(line)))
        }
        (HeadSoFar::Premises(line), LineSign::Pre) => claim_wanted(alloc, line, Claims::None),
        (other, _) => Ok(LinePlace::Head(other)),
    }
}

/// The place after a formula that another follows.
fn next_claim(
    alloc: Global,
    line: LineHead,
    claims: Claims,
    formula: Option<FormulaText>,
) -> Result<LinePlace, AllocError>
    ensures { IfOk result (λ p. (src : List ℕ) → open_line src p ≡ next_claim (line_start src line) (earlier src claims) (option_map (claim src) formula)) }
{
    match (claims, formula) {
        (Claims::None, Some(pre)) => claim_wanted(alloc, line, Claims::Pre(pre)),
        (Claims::Pre(pre), Some(rely)) => claim_wanted(alloc, line, Claims::Rely(pre, rely)),
        (Claims::Rely(pre, rely), Some(guar)) => {
            claim_wanted(alloc, line, Claims::Guar(pre, rely, guar))
        }
        (claims, formula) => {
            drop(claims);
            drop(formula);
            Ok(LinePlace::Head(HeadSoFar::Unread))
        }
    }
}

/// The lines with one that ends after this formula.
fn end_line(
    lines: Vec<LineText>,
    line: LineHead,
    claims: Claims,
    formula: Option<FormulaText>,
) -> Result<Vec<LineText>, AllocError>
    ensures { IfOk result (λ ls. (src : List ℕ) → map (line_text src) ls.items
        ≡ end_line (map (line_text src) lines.items) (line_start src line) (earlier src claims) (option_map (claim src) formula)) }
{
    match (claims, formula) {
        (Claims::Guar(pre, rely, guar), Some(post)) => {
            let spec = SpecText {
                pre,
                rely,
                guar,
                post,
            };
            let line = LineText {
                begin: line.begin,
                number: line.number,
                rule: line.rule,
                statement: line.statement,
                premises: line.premises,
                spec,
            };
            let mut lines = lines;
            put(&mut lines, line)?;
            Ok(lines)
        }
        (claims, formula) => {
            drop(claims);
            drop(formula);
            Ok(lines)
        }
    }
}

/// The formula, where nothing else is open.
fn whole_claim(frames: Vec<Frame>) -> Option<FormulaText>
    ensures { (src : List ℕ) → option_map (claim src) result ≡ whole_of (stack src frames) }
{
    let mut frames = frames;
    take_whole(&mut frames)
}

/// Takes a token in a formula of a line.
fn on_claim(
    alloc: Global,
    lines: Vec<LineText>,
    line: LineHead,
    claims: Claims,
    frames: Vec<Frame>,
    token: Token,
) -> Result<DerivationDraft, AllocError>
    ensures { IfOk result (λ d. (src : List ℕ) → drafted src d
        ≡ on_claim (map (line_text src) lines.items) (line_start src line) (earlier src claims) (stack src frames) (said (lexeme_of src token)) (lexeme_of src token)) }
{
    match sign_of(token) {
        LineSign::Line(begin) => {
            let lines = end_line(lines, line, claims, whole_claim(frames))?;
            let place = LinePlace::Head(HeadSoFar::Begun(begin));
            Ok(DerivationDraft { lines, place })
        }
        LineSign::Next => {
            let place = next_claim(alloc, line, claims, whole_claim(frames))?;
            Ok(DerivationDraft { lines, place })
        }
        _ => {
            let mut frames = frames;
            take_token(alloc, &mut frames, token)?;
            let place = LinePlace::Claim(line, claims, frames);
            Ok(DerivationDraft { lines, place })
        }
    }
}

/// Takes one token.
fn take(alloc: Global, draft: DerivationDraft, token: Token) -> Result<DerivationDraft, AllocError>
    ensures { IfOk result (λ d. (src : List ℕ) → drafted src d ≡ line_step (drafted src draft) (lexeme_of src token)) }
{
    let DerivationDraft { lines, place } = draft;
    match place {
        LinePlace::Head(head) => {
            let place = on_head(alloc, head, sign_of(token))?;
            Ok(DerivationDraft { lines, place })
        }
        LinePlace::Claim(line, claims, frames) => {
            on_claim(alloc, lines, line, claims, frames, token)
        }
    }
}

/// Takes a token in place where it is one of a formula's, and says whether it did; else nothing is changed.
fn take_inside(alloc: Global, draft: &mut DerivationDraft, token: Token) -> Result<bool, AllocError>
    ensures taken { IfOk result (λ b. IsTrue b → (src : List ℕ) → drafted src draft.new ≡ line_step (drafted src draft.old) (lexeme_of src token)) }
    ensures same { IfOk result (λ b. b ≡ false → draft.new ≡ draft.old) }
{
    if let LineSign::Line(_) | LineSign::Next = sign_of(token) {
        return Ok(false);
    }
    match &mut draft.place {
        LinePlace::Head(_) => Ok(false),
        LinePlace::Claim(_, _, frames) => {
            take_token(alloc, frames, token)?;
            Ok(true)
        }
    }
}

/// What is read of a derivation after all its tokens.
fn read(alloc: Global, tokens: &[Token]) -> Result<DerivationDraft, AllocError>
    ensures { IfOk result (λ d. (src : List ℕ) → drafted src d ≡ line_steps nothing_read (map (lexeme_of src) tokens.now)) }
{
    let mut draft = DerivationDraft {
        lines: Vec::new(alloc),
        place: LinePlace::Head(HeadSoFar::Unread),
    };
    for token in tokens {
        // (most tokens are of formulas, and a draft is large to be moved)
        if !take_inside(alloc, &mut draft, *token)? {
            draft = take(alloc, draft, *token)?;
        }
    }
    Ok(draft)
}

/// All lines, with the one that ends with the text.
fn finish(draft: DerivationDraft) -> Result<Vec<LineText>, AllocError>
    ensures { IfOk result (λ ls. (src : List ℕ) →
        map (line_text src) ls.items ≡ whole_lines (map (line_text src) draft.lines.items) (open_line src draft.place)) }
{
    let DerivationDraft { lines, place } = draft;
    match place {
        LinePlace::Head(_) => Ok(lines),
        LinePlace::Claim(line, claims, frames) => {
            end_line(lines, line, claims, whole_claim(frames))
        }
    }
}

/// The lines of a derivation, where the tokens spell one.
pub fn build_derivation(alloc: Global, tokens: &[Token]) -> Result<Vec<LineText>, AllocError>
    ensures { (src : List ℕ) (d : DerivationSpelling) → map (lexeme_of src) tokens.now ≡ derivation d []
        → IfOk result (λ r. map (line_text src) r.items ≡ derivation_of d) }
{
    let draft = read(alloc, tokens)?;
    finish(draft)
}
