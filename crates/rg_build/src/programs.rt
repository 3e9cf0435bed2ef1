//! A program, built token by token.

ghost use Rattle.std.specs.Prelude.{◌≡◌, ℕ, ◌<◌, List, [], ◌∷◌, ◌++◌, map, IfOk, OnOk, IsSomeAnd, option_map, nat_lt, length, Option};
ghost use Rattle.rg_text.specs.Text.{leaf_of};
ghost use Rattle.rg_syntax.specs.Written.{claim, term, assigned, declared_word, statement, branch, loop, listed, spec_text, part_text, program_text};
ghost use Rattle.rg_build.specs.Steps.{step};
ghost use Rattle.rg_build.specs.Frames.{stack, piece};
ghost use Rattle.rg_syntax.specs.Grammar.{ProgramSpelling, program, lexeme_as, lexeme_of};
ghost use Rattle.rg_syntax.specs.Texts.{program_of};
ghost use Rattle.rg_build.specs.Inner.Drafts.{sign, said, body_of, open_blocks, ReadFor, read_for, Drafted, drafted, and_statement, and_more, opened, on_else, claim_wanted, term_wanted, with_statement, spec_from, and_part, end_of, on_end, end_acts, on_words, on_word, on_parts, on_statements, on_acts, with_claim, with_term, with_item, settled, rest_of, program_step, program_steps, no_token, whole_program};

use crate::{Frame, Item, put, take_token};
use rg_syntax::written::{
    AssignmentText, Declaration, ExpressionText, FormulaText, PartText, ProgramText, SpecText,
    StatementText,
};
use rg_text::kind::{Keyword, Kind, Terminal};
use rg_text::token::Token;
use std::alloc::{AllocError, Global};

/// What a token says outside formulas and values.
#[derive(Clone, Copy)]
pub enum ProgramSign {
    Name(Token),
    Number(Token),
    Fixed,
    /// The first clause of the program follows.
    Pre,
    Skip(Token),
    If(Token),
    Await(Token),
    While(Token),
    Semicolon,
    Else,
    End,
    Other,
}

/// What a list of statements is the body of.
#[derive(Drop)]
pub enum Around {
    Part,
    /// The first block of a branch.
    Then(Token, FormulaText),
    /// The second block of a branch, after the first.
    Else(Token, FormulaText, Vec<StatementText>),
    Loop(Token, FormulaText),
}

/// A list of statements that isn't ended, and whether a `;` stood after one of them.
#[derive(Drop)]
pub struct OpenBlock {
    pub around: Around,
    pub statements: Vec<StatementText>,
    pub joined: bool,
}

/// What a formula or a value is read for; the first token of a part's is its name.
#[derive(Clone, Copy)]
pub enum Purpose {
    /// A clause of the program.
    ProgramClause,
    /// A clause of a part.
    PartClause(Token),
    /// The value of an assignment to a word.
    Assign(Token, Token),
    /// The guard of the await that begins at a token.
    Guard(Token, Token),
    /// In the await that begins at a token the value of an assignment to a word.
    Act(Token, Token, Token),
    /// The test of the branch that begins at a token.
    Branch(Token, Token),
    /// The test of the loop that begins at a token.
    Loop(Token, Token),
}

/// Where a program is read.
#[derive(Clone, Copy)]
pub enum ProgramPlace {
    /// Among the declared words, and whether `fixed` stands before the next.
    Words(bool),
    /// Following the name of a word.
    Word(bool, Token),
    /// Following the clauses of the program, or after a part.
    Parts,
    /// In the part of this name before or after a statement.
    Statements(Token),
    /// In the part of this name, in the await that begins here, before or after an assignment.
    Acts(Token, Token),
    /// In a formula or a value.
    Reading(Purpose),
}

/// What is read of a program. What is innermost stands last.
#[derive(Drop)]
pub struct ProgramDraft {
    pub words: Vec<Declaration>,
    /// The clauses of the program.
    pub clauses: Vec<FormulaText>,
    /// The whole parts.
    pub parts: Vec<PartText>,
    /// The clauses of the part that is open.
    pub part_clauses: Vec<FormulaText>,
    /// Its lists of statements that aren't ended.
    pub blocks: Vec<OpenBlock>,
    /// The guard of the await that is open.
    pub guards: Vec<FormulaText>,
    /// Its assignments.
    pub acts: Vec<AssignmentText>,
    /// The open parts of a formula or a value.
    pub frames: Vec<Frame>,
    pub place: ProgramPlace,
}

/// What the token says outside formulas and values.
fn sign_of(token: Token) -> ProgramSign
    ensures { (src : List ℕ) → sign src result ≡ said (lexeme_of src token) }
{
    match token.kind {
        Kind::Name => ProgramSign::Name(token),
        Kind::Number => ProgramSign::Number(token),
        Kind::Primed => ProgramSign::Other,
        Kind::Fixed(terminal) => sign_of_terminal(terminal, token),
    }
}

/// What a keyword or a symbol says.
fn sign_of_terminal(terminal: Terminal, token: Token) -> ProgramSign
    ensures { (src : List ℕ) → sign src result ≡ said (lexeme_as (Kind.Fixed terminal) (leaf_of src token)) }
{
    match terminal {
        Terminal::If => ProgramSign::If(token),
        Terminal::Else => ProgramSign::Else,
        Terminal::Semicolon => ProgramSign::Semicolon,
        Terminal::Section(keyword) => sign_of_keyword(keyword, token),
        _ => ProgramSign::Other,
    }
}

/// What a keyword says.
fn sign_of_keyword(keyword: Keyword, token: Token) -> ProgramSign
    ensures { (src : List ℕ) → sign src result ≡ said (lexeme_as (Kind.Fixed (Terminal.Section keyword)) (leaf_of src token)) }
{
    match keyword {
        Keyword::Fixed => ProgramSign::Fixed,
        Keyword::Pre => ProgramSign::Pre,
        Keyword::Skip => ProgramSign::Skip(token),
        Keyword::Await => ProgramSign::Await(token),
        Keyword::While => ProgramSign::While(token),
        Keyword::End => ProgramSign::End,
        _ => ProgramSign::Other,
    }
}

/// Adds a statement to the innermost list.
fn and_statement(blocks: &mut Vec<OpenBlock>, one: StatementText) -> Result<(), AllocError>
    ensures { OnOk result ((src : List ℕ) → open_blocks src blocks.new
        ≡ and_statement (statement src one) (open_blocks src blocks.old)) }
{
    match blocks.pop() {
        None => {
            drop(one);
            Ok(())
        }
        Some(block) => {
            let mut block = block;
            put(&mut block.statements, one)?;
            put(blocks, block)
        }
    }
}

/// Takes note of a `;` in the innermost list.
fn and_more(blocks: &mut Vec<OpenBlock>) -> Result<(), AllocError>
    ensures { OnOk result ((src : List ℕ) → open_blocks src blocks.new
        ≡ and_more (open_blocks src blocks.old)) }
{
    match blocks.pop() {
        None => Ok(()),
        Some(block) => {
            let mut block = block;
            block.joined = true;
            put(blocks, block)
        }
    }
}

/// Opens a list of statements.
fn open_list(alloc: Global, blocks: &mut Vec<OpenBlock>, around: Around) -> Result<(), AllocError>
    ensures { OnOk result ((src : List ℕ) → open_blocks src blocks.new
        ≡ opened (body_of src around) (open_blocks src blocks.old)) }
{
    let statements = Vec::new(alloc);
    let joined = false;
    put(
        blocks,
        OpenBlock {
            around,
            statements,
            joined,
        },
    )
}

/// Takes the `else` of a branch.
fn on_else(alloc: Global, blocks: &mut Vec<OpenBlock>) -> Result<(), AllocError>
    ensures { OnOk result ((src : List ℕ) → open_blocks src blocks.new
        ≡ on_else (open_blocks src blocks.old)) }
{
    match blocks.pop() {
        None => Ok(()),
        Some(block) => {
            let OpenBlock {
                around,
                statements,
                joined,
            } = block;
            match around {
                Around::Then(begin, test) => {
                    open_list(alloc, blocks, Around::Else(begin, test, statements))
                }
                around => put(
                    blocks,
                    OpenBlock {
                        around,
                        statements,
                        joined,
                    },
                ),
            }
        }
    }
}

/// The branch that begins here.
#[tactic(auto, using(crate::proofs::ProgramRows::a_branch))]
fn branch_of(
    begin: Token,
    test: FormulaText,
    first: Vec<StatementText>,
    second: Vec<StatementText>,
) -> StatementText
    ensures { (src : List ℕ) → statement src result
        ≡ branch (leaf_of src begin) (claim src test) (listed (map (statement src) first.items)) (listed (map (statement src) second.items)) }
{
    StatementText::If(begin, test, first, second)
}

/// The loop that begins here.
#[tactic(auto, using(crate::proofs::ProgramRows::a_while))]
fn loop_of(begin: Token, test: FormulaText, body: Vec<StatementText>) -> StatementText
    ensures { (src : List ℕ) → statement src result
        ≡ loop (leaf_of src begin) (claim src test) (listed (map (statement src) body.items)) }
{
    StatementText::While(begin, test, body)
}

/// A formula is to be read.
fn formula_wanted(draft: &mut ProgramDraft, purpose: Purpose) -> Result<(), AllocError>
    ensures { OnOk result ((src : List ℕ) → drafted src draft.new ≡ claim_wanted (drafted src draft.old) (read_for src purpose)) }
{
    draft.place = ProgramPlace::Reading(purpose);
    put(&mut draft.frames, Frame::Whole)
}

/// A value is to be read.
fn value_wanted(draft: &mut ProgramDraft, purpose: Purpose) -> Result<(), AllocError>
    ensures { OnOk result ((src : List ℕ) → drafted src draft.new ≡ term_wanted (drafted src draft.old) (read_for src purpose)) }
{
    draft.place = ProgramPlace::Reading(purpose);
    put(&mut draft.frames, Frame::WholeValue)
}

/// Takes a whole statement of the part of this name.
fn with_statement(
    draft: &mut ProgramDraft,
    name: Token,
    one: StatementText,
) -> Result<(), AllocError>
    ensures { OnOk result ((src : List ℕ) → drafted src draft.new ≡ with_statement (drafted src draft.old) (leaf_of src name) (statement src one)) }
{
    draft.place = ProgramPlace::Statements(name);
    and_statement(&mut draft.blocks, one)
}

/// Takes a token among the declared words.
fn on_words(draft: &mut ProgramDraft, fixed: bool, next: ProgramSign) -> Result<(), AllocError>
    ensures { OnOk result ((src : List ℕ) → drafted src draft.new ≡ on_words (drafted src draft.old) fixed (sign src next)) }
{
    match next {
        ProgramSign::Name(name) => draft.place = ProgramPlace::Word(fixed, name),
        ProgramSign::Fixed => draft.place = ProgramPlace::Words(true),
        ProgramSign::Pre => return formula_wanted(draft, Purpose::ProgramClause),
        _ => draft.place = ProgramPlace::Words(fixed),
    }
    Ok(())
}

/// Takes a token after the name of a word.
fn on_word(
    draft: &mut ProgramDraft,
    fixed: bool,
    name: Token,
    next: ProgramSign,
) -> Result<(), AllocError>
    ensures { OnOk result ((src : List ℕ) → drafted src draft.new ≡ on_word (drafted src draft.old) fixed (leaf_of src name) (sign src next)) }
{
    match next {
        ProgramSign::Number(width) => {
            draft.place = ProgramPlace::Words(false);
            put(&mut draft.words, Declaration { fixed, name, width })
        }
        _ => {
            draft.place = ProgramPlace::Word(fixed, name);
            Ok(())
        }
    }
}

/// Takes a token after the clauses of the program, or after a part.
fn on_parts(draft: &mut ProgramDraft, next: ProgramSign) -> Result<(), AllocError>
    ensures { OnOk result ((src : List ℕ) → drafted src draft.new ≡ on_parts (drafted src draft.old) (sign src next)) }
{
    match next {
        ProgramSign::Name(name) => formula_wanted(draft, Purpose::PartClause(name)),
        _ => {
            draft.place = ProgramPlace::Parts;
            Ok(())
        }
    }
}

/// The specification of four clauses.
fn spec_from(clauses: Vec<FormulaText>) -> Option<SpecText>
    ensures { (src : List ℕ) → option_map (spec_text src) result ≡ spec_from (map (claim src) clauses.items) }
{
    let mut clauses = clauses;
    let post = clauses.pop()?;
    let guar = clauses.pop()?;
    let rely = clauses.pop()?;
    let pre = clauses.pop()?;
    if clauses.is_empty() {
        Some(SpecText {
            pre,
            rely,
            guar,
            post,
        })
    } else {
        None
    }
}

/// Adds a part, where its clauses are a specification.
fn and_part(
    parts: &mut Vec<PartText>,
    name: Token,
    clauses: Vec<FormulaText>,
    body: Vec<StatementText>,
) -> Result<(), AllocError>
    ensures { OnOk result ((src : List ℕ) → map (part_text src) parts.new.items
        ≡ and_part (map (part_text src) parts.old.items) (leaf_of src name) (spec_from (map (claim src) clauses.items)) (map (statement src) body.items)) }
{
    match spec_from(clauses) {
        None => Ok(()),
        Some(spec) => put(parts, PartText { name, spec, body }),
    }
}

/// Takes the whole body of the part of this name.
fn end_part(
    alloc: Global,
    draft: &mut ProgramDraft,
    name: Token,
    body: Vec<StatementText>,
) -> Result<(), AllocError>
    ensures { OnOk result ((src : List ℕ) → drafted src draft.new
        ≡ end_of (drafted src draft.old) (leaf_of src name) (body_of src Around.Part) (map (statement src) body.items) (drafted src draft.old).blocks) }
{
    let clauses = std::mem::replace(&mut draft.part_clauses, Vec::new(alloc));
    draft.place = ProgramPlace::Parts;
    and_part(&mut draft.parts, name, clauses, body)
}

/// Ends a list of statements inside the open ones.
fn end_of(
    alloc: Global,
    draft: &mut ProgramDraft,
    name: Token,
    around: Around,
    body: Vec<StatementText>,
) -> Result<(), AllocError>
    ensures { OnOk result ((src : List ℕ) → drafted src draft.new
        ≡ end_of (drafted src draft.old) (leaf_of src name) (body_of src around) (map (statement src) body.items) (drafted src draft.old).blocks) }
{
    match around {
        Around::Part => end_part(alloc, draft, name, body),
        Around::Then(_, test) => {
            drop(test);
            draft.place = ProgramPlace::Statements(name);
            Ok(())
        }
        Around::Else(begin, test, first) => {
            with_statement(draft, name, branch_of(begin, test, first, body))
        }
        Around::Loop(begin, test) => with_statement(draft, name, loop_of(begin, test, body)),
    }
}

/// Takes the `end` of a list of statements.
fn on_end(alloc: Global, draft: &mut ProgramDraft, name: Token) -> Result<(), AllocError>
    ensures { OnOk result ((src : List ℕ) → drafted src draft.new
        ≡ on_end (drafted src draft.old) (leaf_of src name) (drafted src draft.old).blocks) }
{
    match draft.blocks.pop() {
        None => {
            draft.place = ProgramPlace::Statements(name);
            Ok(())
        }
        Some(block) => {
            let OpenBlock {
                around,
                statements,
                ..
            } = block;
            end_of(alloc, draft, name, around, statements)
        }
    }
}

/// Takes a token before or after a statement of the part of this name.
fn on_statements(
    alloc: Global,
    draft: &mut ProgramDraft,
    name: Token,
    next: ProgramSign,
) -> Result<(), AllocError>
    ensures { OnOk result ((src : List ℕ) → drafted src draft.new ≡ on_statements (drafted src draft.old) (leaf_of src name) (sign src next)) }
{
    match next {
        ProgramSign::Name(target) => value_wanted(draft, Purpose::Assign(name, target)),
        ProgramSign::Skip(begin) => with_statement(draft, name, StatementText::Skip(begin)),
        ProgramSign::Await(begin) => formula_wanted(draft, Purpose::Guard(name, begin)),
        ProgramSign::If(begin) => formula_wanted(draft, Purpose::Branch(name, begin)),
        ProgramSign::While(begin) => formula_wanted(draft, Purpose::Loop(name, begin)),
        ProgramSign::Semicolon => {
            draft.place = ProgramPlace::Statements(name);
            and_more(&mut draft.blocks)
        }
        ProgramSign::Else => {
            draft.place = ProgramPlace::Statements(name);
            on_else(alloc, &mut draft.blocks)
        }
        ProgramSign::End => on_end(alloc, draft, name),
        _ => {
            draft.place = ProgramPlace::Statements(name);
            Ok(())
        }
    }
}

/// Takes the `end` of the await that begins here.
fn end_acts(
    alloc: Global,
    draft: &mut ProgramDraft,
    name: Token,
    begin: Token,
) -> Result<(), AllocError>
    ensures { OnOk result ((src : List ℕ) → drafted src draft.new
        ≡ end_acts (drafted src draft.old) (leaf_of src name) (leaf_of src begin) (drafted src draft.old).guards) }
{
    match draft.guards.pop() {
        None => {
            draft.place = ProgramPlace::Statements(name);
            Ok(())
        }
        Some(guard) => {
            let acts = std::mem::replace(&mut draft.acts, Vec::new(alloc));
            with_statement(draft, name, StatementText::Await(begin, guard, acts))
        }
    }
}

/// Takes a token before or after an assignment of the await that begins here.
fn on_acts(
    alloc: Global,
    draft: &mut ProgramDraft,
    name: Token,
    begin: Token,
    next: ProgramSign,
) -> Result<(), AllocError>
    ensures { OnOk result ((src : List ℕ) → drafted src draft.new ≡ on_acts (drafted src draft.old) (leaf_of src name) (leaf_of src begin) (sign src next)) }
{
    match next {
        ProgramSign::Name(target) => value_wanted(draft, Purpose::Act(name, begin, target)),
        ProgramSign::End => end_acts(alloc, draft, name, begin),
        _ => {
            draft.place = ProgramPlace::Acts(name, begin);
            Ok(())
        }
    }
}

/// Takes a clause of the program.
fn program_clause(draft: &mut ProgramDraft, formula: FormulaText) -> Result<(), AllocError>
    ensures { OnOk result ((src : List ℕ) →
        drafted src draft.new
        ≡ with_claim (drafted src draft.old) (read_for src Purpose.ProgramClause) (claim src formula)) }
{
    put(&mut draft.clauses, formula)?;
    if draft.clauses.len() < 4 {
        formula_wanted(draft, Purpose::ProgramClause)
    } else {
        draft.place = ProgramPlace::Parts;
        Ok(())
    }
}

/// Takes a clause of the part of this name.
fn part_clause(
    alloc: Global,
    draft: &mut ProgramDraft,
    name: Token,
    formula: FormulaText,
) -> Result<(), AllocError>
    ensures { OnOk result ((src : List ℕ) →
        drafted src draft.new
        ≡ with_claim (drafted src draft.old) (read_for src (Purpose.PartClause name)) (claim src formula)) }
{
    put(&mut draft.part_clauses, formula)?;
    if draft.part_clauses.len() < 4 {
        formula_wanted(draft, Purpose::PartClause(name))
    } else {
        draft.place = ProgramPlace::Statements(name);
        open_list(alloc, &mut draft.blocks, Around::Part)
    }
}

/// Takes a whole formula.
fn with_claim(
    alloc: Global,
    draft: &mut ProgramDraft,
    purpose: Purpose,
    formula: FormulaText,
) -> Result<(), AllocError>
    ensures { OnOk result ((src : List ℕ) → drafted src draft.new ≡ with_claim (drafted src draft.old) (read_for src purpose) (claim src formula)) }
{
    match purpose {
        Purpose::ProgramClause => program_clause(draft, formula),
        Purpose::PartClause(name) => part_clause(alloc, draft, name, formula),
        Purpose::Guard(name, begin) => {
            draft.place = ProgramPlace::Acts(name, begin);
            put(&mut draft.guards, formula)
        }
        Purpose::Branch(name, begin) => {
            draft.place = ProgramPlace::Statements(name);
            open_list(alloc, &mut draft.blocks, Around::Then(begin, formula))
        }
        Purpose::Loop(name, begin) => {
            draft.place = ProgramPlace::Statements(name);
            open_list(alloc, &mut draft.blocks, Around::Loop(begin, formula))
        }
        Purpose::Assign(name, _) => {
            draft.place = ProgramPlace::Statements(name);
            Ok(())
        }
        Purpose::Act(name, begin, _) => {
            draft.place = ProgramPlace::Acts(name, begin);
            Ok(())
        }
    }
}

/// Takes a whole value.
fn with_term(
    draft: &mut ProgramDraft,
    purpose: Purpose,
    value: ExpressionText,
) -> Result<(), AllocError>
    ensures { OnOk result ((src : List ℕ) → drafted src draft.new ≡ with_term (drafted src draft.old) (read_for src purpose) (term src value)) }
{
    match purpose {
        Purpose::Assign(name, target) => {
            let assigned = AssignmentText { target, value };
            with_statement(draft, name, StatementText::Assign(assigned))
        }
        Purpose::Act(name, begin, target) => {
            draft.place = ProgramPlace::Acts(name, begin);
            put(&mut draft.acts, AssignmentText { target, value })
        }
        Purpose::Guard(name, _) | Purpose::Branch(name, _) | Purpose::Loop(name, _) => {
            drop(value);
            draft.place = ProgramPlace::Statements(name);
            Ok(())
        }
        Purpose::ProgramClause | Purpose::PartClause(_) => {
            drop(value);
            draft.place = ProgramPlace::Parts;
            Ok(())
        }
    }
}

/// The formula or the value that is whole, where one is.
fn take_item(frames: &mut Vec<Frame>) -> Result<Option<Item>, AllocError>
    ensures { (src : List ℕ) (d : Drafted) (w : ReadFor) → IfOk result (λ item. settled d w (stack src frames.old)
        ≡ with_item d w (option_map (piece src) item) (stack src frames.new)) }
{
    match frames.pop() {
        None => Ok(None),
        Some(Frame::End(formula)) => Ok(Some(Item::Formula(formula))),
        Some(Frame::Valued(value)) => Ok(Some(Item::Expression(value))),
        Some(other) => {
            put(frames, other)?;
            Ok(None)
        }
    }
}

/// Takes a token of a formula or of a value.
fn on_reading(
    alloc: Global,
    draft: &mut ProgramDraft,
    purpose: Purpose,
    token: Token,
) -> Result<(), AllocError>
    ensures { OnOk result ((src : List ℕ) → drafted src draft.new
        ≡ settled (rest_of (drafted src draft.old)) (read_for src purpose) (step (drafted src draft.old).within (lexeme_of src token))) }
{
    take_token(alloc, &mut draft.frames, token)?;
    match take_item(&mut draft.frames)? {
        None => {
            draft.place = ProgramPlace::Reading(purpose);
            Ok(())
        }
        Some(Item::Formula(formula)) => with_claim(alloc, draft, purpose, formula),
        Some(Item::Expression(value)) => with_term(draft, purpose, value),
    }
}

/// Takes one token.
fn take(alloc: Global, draft: &mut ProgramDraft, token: Token) -> Result<(), AllocError>
    ensures { OnOk result ((src : List ℕ) → drafted src draft.new ≡ program_step (drafted src draft.old) (lexeme_of src token)) }
{
    match draft.place {
        ProgramPlace::Words(fixed) => on_words(draft, fixed, sign_of(token)),
        ProgramPlace::Word(fixed, name) => on_word(draft, fixed, name, sign_of(token)),
        ProgramPlace::Parts => on_parts(draft, sign_of(token)),
        ProgramPlace::Statements(name) => on_statements(alloc, draft, name, sign_of(token)),
        ProgramPlace::Acts(name, begin) => on_acts(alloc, draft, name, begin, sign_of(token)),
        ProgramPlace::Reading(purpose) => on_reading(alloc, draft, purpose, token),
    }
}

/// What is read of a program after these tokens.
pub fn draft_of(alloc: Global, tokens: &[Token]) -> Result<ProgramDraft, AllocError>
    ensures { (src : List ℕ) → IfOk result (λ d. drafted src d ≡ program_steps no_token (map (lexeme_of src) tokens.now)) }
{
    let mut draft = ProgramDraft {
        words: Vec::new(alloc),
        clauses: Vec::new(alloc),
        parts: Vec::new(alloc),
        part_clauses: Vec::new(alloc),
        blocks: Vec::new(alloc),
        guards: Vec::new(alloc),
        acts: Vec::new(alloc),
        frames: Vec::new(alloc),
        place: ProgramPlace::Words(false),
    };
    for token in tokens {
        take(alloc, &mut draft, *token)?;
    }
    Ok(draft)
}

/// The program, where its clauses are a specification.
fn whole_program(draft: ProgramDraft) -> Option<ProgramText>
    ensures { (src : List ℕ) → option_map (program_text src) result ≡ whole_program (drafted src draft) }
{
    let ProgramDraft {
        words,
        clauses,
        parts,
        ..
    } = draft;
    match spec_from(clauses) {
        Some(spec) => Some(ProgramText { words, spec, parts }),
        None => None,
    }
}

/// The program, where the tokens spell one.
pub fn build_program(alloc: Global, tokens: &[Token]) -> Result<Option<ProgramText>, AllocError>
    ensures { (src : List ℕ) (p : ProgramSpelling) → map (lexeme_of src) tokens.now ≡ program p []
        → IfOk result (λ built. IsSomeAnd built (λ r. program_text src r ≡ program_of p)) }
{
    let draft = draft_of(alloc, tokens)?;
    Ok(whole_program(draft))
}
