//! The open parts of a text, and what each token does to them.

ghost use Rattle.std.specs.Prelude.{◌≡◌, ℕ, List, [], ◌∷◌, ◌++◌, map, OnOk, IfOk};
ghost use Rattle.rg_syntax.specs.Written.{claim, term, setting, move_text, choice};
ghost use Rattle.rg_text.specs.Text.{Leaf, leaf_of};
ghost use Rattle.rg_syntax.specs.Grammar.{lexeme_as, lexeme_of};
ghost use Rattle.rg_build.specs.Frames.{stack, open_of, setter_of, setting_words};
ghost use Rattle.rg_build.specs.Steps.{with_claim, with_term, close, on_if, between, after_between, on_name, on_number, step, after_at};

use rg_syntax::written::{Declaration, ExpressionText, FormulaText, MoveText, Setting};
use rg_text::kind::{Conditional, Junction, Keyword, Kind, Terminal};
use rg_text::token::Token;
use rg_words::operators::{Comparison, Operator, Shift};
use std::alloc::{AllocError, Global};

/// A formula or an expression.
#[derive(Drop)]
pub enum Item {
    Formula(FormulaText),
    Expression(ExpressionText),
}

/// What words are set for: a start, or a move of this number after others.
#[derive(Drop)]
pub enum Setter {
    Start,
    Move(Vec<MoveText>, Token),
}

/// An open part of a text, with what was read of it, up to what is wanted next.
#[derive(Drop)]
pub enum Frame {
    /// Before a formula that stands alone.
    Whole,
    /// After `not`.
    Negated,
    /// After `inv`.
    Inverted,
    /// After `(`.
    First,
    /// The operands of a chain, and its word after them.
    Next(Junction, FormulaText),
    /// The first operand of an implication or an equivalence, and its word.
    Second(Conditional, FormulaText),
    /// The first operand of a comparison, and its symbol.
    Compared(Comparison, ExpressionText),
    /// The first operand of an operation, and its symbol.
    Operated(Operator, ExpressionText),
    /// After `(if`, round all that the choice holds.
    Chosen,
    /// After `(if`, before its formula.
    Condition,
    /// After `then`.
    Consequent(FormulaText),
    /// After `else`.
    Alternative(FormulaText, ExpressionText),
    /// A whole formula that stands alone.
    End(FormulaText),
    /// After `(` and a formula.
    AfterFormula(FormulaText),
    /// After `(` and an expression.
    AfterExpression(ExpressionText),
    /// Two operands of a chain or more.
    AfterNext(Junction, FormulaText),
    /// A value, and the word of its shift.
    Counted(Shift, ExpressionText),
    /// Before the `)` of what is whole.
    Closing(Item),
    /// Before `then`.
    AfterCondition(FormulaText),
    /// Before `else`.
    AfterConsequent(FormulaText, ExpressionText),
    /// Declared words, and whether `fixed` stands before the next.
    Declaring(Vec<Declaration>, bool),
    /// Declared words, and the name of the next.
    Declared(Vec<Declaration>, bool, Token),
    /// After `show`.
    Showing(Vec<Declaration>),
    /// A whole text to show.
    ShowEnd(Vec<Declaration>, FormulaText),
    /// Words that are set.
    Settings(Setter, Vec<Setting>),
    /// Words that are set, and the next word.
    SettingWord(Setter, Vec<Setting>, Token),
    /// Whole moves, before the first `at` or after another.
    Moves(Vec<MoveText>),
    /// Before an expression that stands alone.
    WholeValue,
    /// A whole expression that stands alone.
    Valued(ExpressionText),
}

/// Adds an item at the end of a list. Where memory is refused the item is let go, and nothing is said of the list.
///
/// It stands apart, as `boxes` does, so that a call that is refused memory drops no item in place: the checker would spell that out, kind by kind.
pub fn put<T: Drop>(items: &mut Vec<T>, item: T) -> Result<(), AllocError>
    ensures { OnOk result (items.new.items ≡ items.old.items ++ item ∷ []) }
{
    items.push(item)?;
    Ok(())
}

/// A box of each.
fn boxes<T: Drop>(alloc: Global, first: T, second: T) -> Result<(Box<T>, Box<T>), AllocError>
    ensures first { IfOk result (λ both. both.0.value ≡ first) }
    ensures second { IfOk result (λ both. both.1.value ≡ second) }
{
    let first = Box::new(alloc, first)?;
    let second = Box::new(alloc, second)?;
    Ok((first, second))
}

/// Takes a whole formula into the parts around it.
fn take_formula(
    alloc: Global,
    frames: &mut Vec<Frame>,
    formula: FormulaText,
) -> Result<(), AllocError>
    ensures { OnOk result ((src : List ℕ) → stack src frames.new
        ≡ with_claim (stack src frames.old) (claim src formula)) }
{
    match frames.pop() {
        None => Ok(()),
        Some(Frame::Whole) => put(frames, Frame::End(formula)),
        Some(Frame::Negated) => {
            let negation = FormulaText::Not(Box::new(alloc, formula)?);
            take_formula(alloc, frames, negation)
        }
        Some(Frame::First) => put(frames, Frame::AfterFormula(formula)),
        Some(Frame::Next(junction, left)) => {
            let (left, right) = boxes(alloc, left, formula)?;
            let chain = FormulaText::Joined(junction, left, right);
            put(frames, Frame::AfterNext(junction, chain))
        }
        Some(Frame::Second(conditional, left)) => {
            let (left, right) = boxes(alloc, left, formula)?;
            let whole = FormulaText::Implied(conditional, left, right);
            put(frames, Frame::Closing(Item::Formula(whole)))
        }
        Some(Frame::Condition) => put(frames, Frame::AfterCondition(formula)),
        Some(Frame::Showing(words)) => put(frames, Frame::ShowEnd(words, formula)),
        Some(other) => put(frames, other),
    }
}

/// The expression that is the first where the formula holds, and else the second.
fn choice_of(
    alloc: Global,
    formula: FormulaText,
    first: ExpressionText,
    second: ExpressionText,
) -> Result<ExpressionText, AllocError>
    ensures { (src : List ℕ) → IfOk result (λ e. term src e ≡ choice (claim src formula) (term src first) (term src second)) }
{
    let (first, second) = boxes(alloc, first, second)?;
    let formula = Box::new(alloc, formula)?;
    Ok(ExpressionText::If(formula, first, second))
}

/// Takes a whole expression into the parts around it.
fn take_expression(
    alloc: Global,
    frames: &mut Vec<Frame>,
    expression: ExpressionText,
) -> Result<(), AllocError>
    ensures { OnOk result ((src : List ℕ) → stack src frames.new
        ≡ with_term (stack src frames.old) (term src expression)) }
{
    match frames.pop() {
        None => {
            drop(expression);
            Ok(())
        }
        Some(Frame::Inverted) => {
            let inverse = ExpressionText::Inverse(Box::new(alloc, expression)?);
            take_expression(alloc, frames, inverse)
        }
        Some(Frame::First) => put(frames, Frame::AfterExpression(expression)),
        Some(Frame::Compared(comparison, left)) => {
            let whole = FormulaText::Compared(comparison, left, expression);
            put(frames, Frame::Closing(Item::Formula(whole)))
        }
        Some(Frame::Operated(operator, left)) => {
            let (left, right) = boxes(alloc, left, expression)?;
            let whole = ExpressionText::Binary(operator, left, right);
            put(frames, Frame::Closing(Item::Expression(whole)))
        }
        Some(Frame::Chosen) => put(frames, Frame::Closing(Item::Expression(expression))),
        Some(Frame::Consequent(formula)) => {
            put(frames, Frame::AfterConsequent(formula, expression))
        }
        Some(Frame::Alternative(formula, first)) => {
            let choice = choice_of(alloc, formula, first, expression)?;
            take_expression(alloc, frames, choice)
        }
        Some(Frame::WholeValue) => put(frames, Frame::Valued(expression)),
        Some(other) => {
            drop(expression);
            put(frames, other)
        }
    }
}

/// Takes a closing parenthesis.
fn take_close(alloc: Global, frames: &mut Vec<Frame>) -> Result<(), AllocError>
    ensures { OnOk result ((src : List ℕ) → stack src frames.new
        ≡ close (stack src frames.old)) }
{
    match frames.pop() {
        None => Ok(()),
        Some(Frame::AfterNext(_, formula)) => take_formula(alloc, frames, formula),
        Some(Frame::Closing(Item::Formula(formula))) => take_formula(alloc, frames, formula),
        Some(Frame::Closing(Item::Expression(expression))) => {
            take_expression(alloc, frames, expression)
        }
        Some(other) => put(frames, other),
    }
}

/// Takes the `if` of an expression.
fn take_if(frames: &mut Vec<Frame>) -> Result<(), AllocError>
    ensures { OnOk result ((src : List ℕ) → stack src frames.new
        ≡ on_if (stack src frames.old)) }
{
    match frames.pop() {
        None => Ok(()),
        Some(Frame::First) => {
            put(frames, Frame::Chosen)?;
            put(frames, Frame::Condition)
        }
        Some(other) => put(frames, other),
    }
}

/// Takes a token that stands after a part of an item, other than a parenthesis or an `if`.
fn take_between(frames: &mut Vec<Frame>, terminal: Terminal) -> Result<(), AllocError>
    ensures { OnOk result ((src : List ℕ) → stack src frames.new
        ≡ between terminal (stack src frames.old)) }
{
    match frames.pop() {
        None => Ok(()),
        Some(frame) => {
            let next = after_between(terminal, frame)?;
            put(frames, next)
        }
    }
}

/// The part that this one is after the token.
fn after_between(terminal: Terminal, frame: Frame) -> Result<Frame, AllocError>
    ensures { IfOk result (λ next. (src : List ℕ) → open_of src next ≡ after_between terminal (open_of src frame)) }
{
    match frame {
        Frame::AfterFormula(formula) => match terminal {
            Terminal::Join(junction) => Ok(Frame::Next(junction, formula)),
            Terminal::Imply(conditional) => Ok(Frame::Second(conditional, formula)),
            _ => Ok(Frame::AfterFormula(formula)),
        },
        Frame::AfterExpression(left) => match terminal {
            Terminal::Compare(comparison) => Ok(Frame::Compared(comparison, left)),
            Terminal::Operate(operator) => Ok(Frame::Operated(operator, left)),
            Terminal::ShiftBy(shift) => Ok(Frame::Counted(shift, left)),
            _ => Ok(Frame::AfterExpression(left)),
        },
        Frame::AfterNext(junction, chain) => match terminal {
            Terminal::Join(_) => Ok(Frame::Next(junction, chain)),
            _ => Ok(Frame::AfterNext(junction, chain)),
        },
        Frame::AfterCondition(formula) => match terminal {
            Terminal::Then => Ok(Frame::Consequent(formula)),
            _ => Ok(Frame::AfterCondition(formula)),
        },
        Frame::AfterConsequent(formula, first) => match terminal {
            Terminal::Else => Ok(Frame::Alternative(formula, first)),
            _ => Ok(Frame::AfterConsequent(formula, first)),
        },
        Frame::Declaring(words, fixed) => match terminal {
            Terminal::Section(Keyword::Fixed) => Ok(Frame::Declaring(words, true)),
            Terminal::Show => Ok(Frame::Showing(words)),
            _ => Ok(Frame::Declaring(words, fixed)),
        },
        Frame::Settings(setter, settings) => match terminal {
            Terminal::Section(Keyword::At) => after_at(setter, settings),
            _ => Ok(Frame::Settings(setter, settings)),
        },
        other => Ok(other),
    }
}

/// The part that words which are set are after an `at`, which ends a move.
fn after_at(setter: Setter, settings: Vec<Setting>) -> Result<Frame, AllocError>
    ensures { IfOk result (λ next. (src : List ℕ) → open_of src next ≡ after_at (setter_of src setter) (map (setting src) settings.items)) }
{
    match setter {
        Setter::Start => Ok(Frame::Settings(Setter::Start, settings)),
        Setter::Move(moves, number) => {
            let moves = and_move(moves, number, settings)?;
            Ok(Frame::Moves(moves))
        }
    }
}

/// The moves with one more.
fn and_move(
    moves: Vec<MoveText>,
    number: Token,
    settings: Vec<Setting>,
) -> Result<Vec<MoveText>, AllocError>
    ensures { (src : List ℕ) → IfOk result (λ ms. map (move_text src) ms.items
        ≡ map (move_text src) moves.items ++ record { number = leaf_of src number; settings = map (setting src) settings.items } ∷ []) }
{
    let mut moves = moves;
    moves.push(MoveText { number, settings })?;
    Ok(moves)
}

/// Takes a keyword or a symbol.
fn take_terminal(
    alloc: Global,
    frames: &mut Vec<Frame>,
    terminal: Terminal,
) -> Result<(), AllocError>
    ensures { OnOk result ((leaf : Leaf) (src : List ℕ) → stack src frames.new
        ≡ step (stack src frames.old) (lexeme_as (Kind.Fixed terminal) leaf)) }
{
    match terminal {
        Terminal::Open => put(frames, Frame::First),
        Terminal::Close => take_close(alloc, frames),
        Terminal::Not => put(frames, Frame::Negated),
        Terminal::Inv => put(frames, Frame::Inverted),
        Terminal::If => take_if(frames),
        Terminal::Truth(truth) => take_formula(alloc, frames, FormulaText::Truth(truth)),
        other => take_between(frames, other),
    }
}

/// Takes a name, which is an expression, declares a word or sets one.
fn take_name(alloc: Global, frames: &mut Vec<Frame>, token: Token) -> Result<(), AllocError>
    ensures { OnOk result ((src : List ℕ) → stack src frames.new
        ≡ on_name (stack src frames.old) (leaf_of src token)) }
{
    match frames.pop() {
        None => Ok(()),
        Some(Frame::Declaring(words, fixed)) => put(frames, Frame::Declared(words, fixed, token)),
        Some(Frame::Settings(setter, settings)) => {
            put(frames, Frame::SettingWord(setter, settings, token))
        }
        Some(other) => {
            put(frames, other)?;
            take_expression(alloc, frames, ExpressionText::Word(token))
        }
    }
}

/// Takes the value of a word that is set.
fn take_value(
    frames: &mut Vec<Frame>,
    setter: Setter,
    settings: Vec<Setting>,
    one: Setting,
) -> Result<(), AllocError>
    ensures { OnOk result ((src : List ℕ) → stack src frames.new
        ≡ setting_words (setter_of src setter) (map (setting src) settings.items ++ setting src one ∷ []) ∷ stack src frames.old) }
{
    let mut settings = settings;
    settings.push(one)?;
    put(frames, Frame::Settings(setter, settings))
}

/// Takes a number, which is an expression, counts the bits of a shift, is the width or the value of
/// a word, or numbers a move.
fn take_number(alloc: Global, frames: &mut Vec<Frame>, token: Token) -> Result<(), AllocError>
    ensures { OnOk result ((src : List ℕ) → stack src frames.new
        ≡ on_number (stack src frames.old) (leaf_of src token)) }
{
    match frames.pop() {
        None => Ok(()),
        Some(Frame::Counted(shift, value)) => {
            let value = Box::new(alloc, value)?;
            let whole = ExpressionText::Shifted(shift, value, token);
            put(frames, Frame::Closing(Item::Expression(whole)))
        }
        Some(Frame::Declared(words, fixed, name)) => {
            let width = token;
            let mut words = words;
            put(&mut words, Declaration { fixed, name, width })?;
            put(frames, Frame::Declaring(words, false))
        }
        Some(Frame::SettingWord(setter, settings, word)) => {
            take_value(frames, setter, settings, Setting { word, value: token })
        }
        Some(Frame::Moves(moves)) => put(
            frames,
            Frame::Settings(Setter::Move(moves, token), Vec::new(alloc)),
        ),
        Some(other) => {
            put(frames, other)?;
            take_expression(alloc, frames, ExpressionText::Number(token))
        }
    }
}

/// Takes one token of a text into its open parts, the innermost of which stands last. Where memory is refused nothing is said of the parts.
pub fn take_token(alloc: Global, frames: &mut Vec<Frame>, token: Token) -> Result<(), AllocError>
    ensures { OnOk result ((src : List ℕ) → stack src frames.new
        ≡ step (stack src frames.old) (lexeme_of src token)) }
{
    match token.kind {
        Kind::Name => take_name(alloc, frames, token),
        Kind::Primed => take_expression(alloc, frames, ExpressionText::NextWord(token)),
        Kind::Number => take_number(alloc, frames, token),
        Kind::Fixed(terminal) => take_terminal(alloc, frames, terminal),
    }
}
