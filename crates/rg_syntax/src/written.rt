//! What a text says before its names are known. A leaf is its token.

use rg_text::kind::{Conditional, Junction};
use rg_text::token::Token;
use rg_tree::line::Rule;
use rg_words::operators::{Comparison, Operator, Shift};

/// An expression.
#[derive(Drop)]
#[cycle(syntax)]
pub enum ExpressionText {
    Number(Token),
    Word(Token),
    NextWord(Token),
    Inverse(Box<ExpressionText>),
    Binary(Operator, Box<ExpressionText>, Box<ExpressionText>),
    Shifted(Shift, Box<ExpressionText>, Token),
    If(Box<FormulaText>, Box<ExpressionText>, Box<ExpressionText>),
}

/// A formula.
#[cycle(syntax)]
pub enum FormulaText {
    Truth(bool),
    Not(Box<FormulaText>),
    Joined(Junction, Box<FormulaText>, Box<FormulaText>),
    Implied(Conditional, Box<FormulaText>, Box<FormulaText>),
    Compared(Comparison, ExpressionText, ExpressionText),
}

/// A chain leans to the left, and may have thousands of operands: a loop lets go of it, and calls itself for the right operands alone.
impl Drop for FormulaText {
    #[cycle(syntax)]
    fn drop(mut self) {
        loop {
            match self {
                FormulaText::Truth(_) => return,
                FormulaText::Compared(_, a, b) => {
                    drop(a);
                    drop(b);
                    return;
                }
                FormulaText::Not(f) => self = Box::into_inner(f),
                FormulaText::Joined(_, f, g) => {
                    drop(g);
                    self = Box::into_inner(f);
                }
                FormulaText::Implied(_, f, g) => {
                    drop(g);
                    self = Box::into_inner(f);
                }
            }
        }
    }
}

/// A declaration of a word: the tokens of its name and of its width.
#[derive(Clone, Copy)]
pub struct Declaration {
    pub fixed: bool,
    pub name: Token,
    pub width: Token,
}

/// A text to show: its declared words, in their order, and a formula over them.
#[derive(Drop)]
pub struct ShowText {
    pub words: Vec<Declaration>,
    pub formula: FormulaText,
}

/// A word and the number that it is set to, in a start or in a move.
#[derive(Clone, Copy)]
pub struct Setting {
    pub word: Token,
    pub value: Token,
}

/// A move of the environment: after how many steps it comes, and what it sets.
#[derive(Drop)]
pub struct MoveText {
    pub number: Token,
    pub settings: Vec<Setting>,
}

/// An assignment.
#[derive(Drop)]
pub struct AssignmentText {
    pub target: Token,
    pub value: ExpressionText,
}

/// A statement, with its first token. A block is a list of one statement or more.
#[derive(Drop)]
#[cycle(statement)]
pub enum StatementText {
    Skip(Token),
    Assign(AssignmentText),
    Await(Token, FormulaText, Vec<AssignmentText>),
    If(Token, FormulaText, Vec<StatementText>, Vec<StatementText>),
    While(Token, FormulaText, Vec<StatementText>),
}

/// The four formulas of a specification.
#[derive(Drop)]
pub struct SpecText {
    pub pre: FormulaText,
    pub rely: FormulaText,
    pub guar: FormulaText,
    pub post: FormulaText,
}

/// A part: its name, its own specification, and its block.
#[derive(Drop)]
pub struct PartText {
    pub name: Token,
    pub spec: SpecText,
    pub body: Vec<StatementText>,
}

/// A program: its declared words, its specification, and its parts, in their order.
#[derive(Drop)]
pub struct ProgramText {
    pub words: Vec<Declaration>,
    pub spec: SpecText,
    pub parts: Vec<PartText>,
}

/// A line of a derivation: the word `line`, its number, its rule, its statement's number, the numbers of its premises, and
/// its four formulas.
#[derive(Drop)]
pub struct LineText {
    pub begin: Token,
    pub number: Token,
    pub rule: Rule,
    pub statement: Token,
    pub premises: Vec<Token>,
    pub spec: SpecText,
}
