//! Where a parse stands: what has been read of each open part of the text.

ghost use Rattle.std.specs.Prelude.{◌≡◌, ◌∷◌, []};
ghost use Rattle.rg_shape.specs.Inner.Machine.{has, start, takes, is_prefix, resume, turn, at_compare, at_operate, at_shift, at_join, at_imply, at_close, at_if, at_then, at_else, at_number, at_name, at_colon, at_words, at_show, at_semicolon, at_assign, at_section, after_word, after_claim, after_specification, before_claims, before_premises, at_statement, block_end, after_statement, operand_of, start_of, is_end, is_rule, has_line_left, ends_line, has_operand_left, has_room_at};

use crate::kinds::{begins_line, begins_part, begins_word, is_semicolon};
use rg_syntax::TextKind;
use rg_text::kind::{Junction, Keyword, Kind, Terminal};
use rg_words::limits::{
    MOST_ASSIGNMENTS, MOST_DERIVATION_LINES, MOST_OPERANDS, MOST_PARTS, MOST_WORDS,
};
use rg_words::operators::Comparison;

/// A formula or an expression.
#[derive(Clone, Copy)]
pub enum Sort {
    Formula,
    Expression,
}

/// Some of the two sorts.
#[derive(Clone, Copy)]
pub struct Sorts {
    pub formula: bool,
    pub expression: bool,
}

/// Whose specification it is: the program's own, that of the part of this number, or that of the
/// line of this number in a derivation, from 1.
#[derive(Clone, Copy)]
pub enum Owner {
    Program,
    Part(u8),
    Line(u16),
}

/// A formula of a specification.
#[derive(Clone, Copy)]
pub enum Clause {
    Pre,
    Rely,
    Guar,
    Post,
}

/// What a block of statements is: the body of the part of this number, or a block of an `if` or a
/// `while`.
#[derive(Clone, Copy)]
pub enum BlockKind {
    Body(u8),
    Then,
    Else,
    Loop,
}

/// A place between two tokens, as seen from one open part of the text.
///
/// The places of a parse are a stack, with one place for each open opener and one below them all.
#[derive(Clone, Copy)]
pub enum Point {
    /// A formula is wanted, after which the text ends.
    Whole,
    /// After `not`.
    Negated,
    /// After `inv`.
    Inverted,
    /// After `(`, where the pair of parentheses may give these sorts.
    First(Sorts),
    /// After a connective of a chain that has so many operands already.
    Next(Junction, u8),
    /// After `implies` or `iff`.
    Second,
    /// After a comparison or an operator, whose pair of parentheses gives this sort.
    Right(Sort),
    /// An `if` is open inside this pair of parentheses.
    Chosen,
    /// After `if`.
    Condition,
    /// After `then`.
    Consequent,
    /// After `else`.
    Alternative,
    /// The text may end, and nothing may follow.
    End,
    /// After a first formula in parentheses.
    AfterFormula,
    /// After a first expression in parentheses that may give these sorts.
    AfterExpression(Sorts),
    /// After an operand of a chain that has so many with it.
    AfterNext(Junction, u8),
    /// After `shl` or `shr`.
    Count,
    /// Before the `)` of a pair that gives this sort.
    Closing(Sort),
    /// Before `then`.
    AfterCondition,
    /// Before `else`.
    AfterConsequent,
    /// Before `words`, in a program or in a text to show.
    WordsStart(bool),
    /// After `words`.
    FirstWord(bool),
    /// After `fixed`, in the declaration of the word of this number, from 1.
    FixedWord(bool, u8),
    /// After the name of the word of this number.
    NamedWord(bool, u8),
    /// After the colon of the word of this number.
    WordWidth(bool, u8),
    /// After so many words.
    AfterWord(bool, u8),
    /// Before a word that is set, in a move or in a start. The text may end.
    Settings(bool),
    /// After the word that is set.
    SettingWord(bool),
    /// After the `=` after the word.
    SettingValue(bool),
    /// Before the first move. The text may end.
    BeforeMoves,
    /// After `at`.
    MoveNumber,
    /// A formula of a specification is wanted.
    Claim(Clause, Owner),
    /// After that formula.
    AfterClaim(Clause, Owner),
    /// After the `part` of the part of this number.
    PartName(u8),
    /// After its name.
    NamedPart(u8),
    /// After so many parts. The text may end.
    AfterPart(u8),
    /// A statement of a block is wanted.
    Item(BlockKind),
    /// After a statement of a block.
    AfterItem(BlockKind),
    /// After the target of an assignment.
    Target(BlockKind),
    /// After its `:=`.
    Value(BlockKind),
    /// After `await`.
    AwaitGuard(BlockKind),
    /// After the formula of an `await`.
    AfterAwaitGuard(BlockKind),
    /// After so many assignments of an `await`, before another.
    AwaitTarget(BlockKind, u8),
    /// After the target of the assignment of this number.
    AwaitName(BlockKind, u8),
    /// After its `:=`.
    AwaitValue(BlockKind, u8),
    /// After so many assignments of an `await`.
    AfterAssignment(BlockKind, u8),
    /// After the `if` of a statement, which is open inside its block.
    BranchGuard,
    /// After the formula of an `if`.
    AfterBranchGuard,
    /// After `while`, which is open inside its block.
    LoopGuard,
    /// After the formula of a `while`.
    AfterLoopGuard,
    /// Before the first line of a derivation. The text may end.
    BeforeLines,
    /// After the `line` of the line of this number, from 1.
    LineNumber(u16),
    /// After its own number, before its rule.
    LineRule(u16),
    /// After its rule, before the number of its statement.
    LineStatement(u16),
    /// After that number, before `from` or `pre`.
    AfterStatement(u16),
    /// After its `from`.
    FirstPremise(u16),
    /// After a premise, before another or `pre`.
    AfterPremise(u16),
}

/// How a token may begin an item.
#[derive(Clone, Copy)]
pub enum Start {
    /// It is an item of this sort.
    Leaf(Sort),
    /// It stands before its operand, and both are of this sort.
    Prefix(Sort),
    /// It is `(`.
    Opener,
    /// It begins none.
    Other,
}

/// What a token does to the place where it stands.
#[derive(Clone, Copy)]
pub enum Turn {
    /// This place follows.
    On(Point),
    /// The first follows, inside the second.
    Inside(Point, Point),
    /// An item of this sort is complete.
    Closed(Sort),
    /// The innermost `if` or `while` of statements is complete.
    Ended,
}

/// The place before a text of this kind.
pub fn before(text: TextKind) -> Point
    ensures { result ∷ [] ≡ start text }
{
    match text {
        TextKind::Formula => Point::Whole,
        TextKind::Show => Point::WordsStart(false),
        TextKind::Program => Point::WordsStart(true),
        TextKind::Start => Point::Settings(false),
        TextKind::Moves => Point::BeforeMoves,
        TextKind::Derivation => Point::BeforeLines,
    }
}

impl Sorts {
    pub const NONE: Sorts = Sorts {
        formula: false,
        expression: false,
    };

    pub const FORMULA: Sorts = Sorts {
        formula: true,
        expression: false,
    };

    pub const EXPRESSION: Sorts = Sorts {
        formula: false,
        expression: true,
    };

    /// Whether the sort is one of these.
    pub fn has(self, sort: Sort) -> bool
        ensures { result ≡ has self sort }
    {
        match sort {
            Sort::Formula => self.formula,
            Sort::Expression => self.expression,
        }
    }
}

impl Point {
    /// The items that may stand here.
    pub fn takes(self) -> Sorts
        ensures { result ≡ takes self }
    {
        match self {
            Point::Whole
            | Point::Negated
            | Point::Next(..)
            | Point::Second
            | Point::Condition
            | Point::Claim(..)
            | Point::AwaitGuard(_)
            | Point::BranchGuard
            | Point::LoopGuard => Sorts::FORMULA,
            Point::Value(_)
            | Point::AwaitValue(..)
            | Point::Inverted
            | Point::Right(_)
            | Point::Chosen
            | Point::Consequent
            | Point::Alternative => Sorts::EXPRESSION,
            Point::First(sorts) => Sorts {
                formula: sorts.formula,
                expression: true,
            },
            _ => Sorts::NONE,
        }
    }

    /// Whether the item here ends with its operand.
    pub fn is_prefix(self) -> bool
        ensures { result ≡ is_prefix self }
    {
        matches!(self, Point::Negated | Point::Inverted | Point::Alternative)
    }

    /// The place after an item of this sort.
    pub fn resume(self, sort: Sort) -> Point
        ensures { result ≡ resume self sort }
    {
        match self {
            Point::First(sorts) => match sort {
                Sort::Formula => Point::AfterFormula,
                Sort::Expression => Point::AfterExpression(sorts),
            },
            Point::Next(junction, operands) => {
                Point::AfterNext(junction, operands.saturating_add(1))
            }
            Point::Second => Point::Closing(Sort::Formula),
            Point::Right(result_sort) => Point::Closing(result_sort),
            Point::Chosen => Point::Closing(Sort::Expression),
            Point::Condition => Point::AfterCondition,
            Point::Consequent => Point::AfterConsequent,
            Point::Claim(clause, owner) => Point::AfterClaim(clause, owner),
            Point::Value(block) => Point::AfterItem(block),
            Point::AwaitGuard(block) => Point::AfterAwaitGuard(block),
            Point::AwaitValue(block, assignments) => Point::AfterAssignment(block, assignments),
            Point::BranchGuard => Point::AfterBranchGuard,
            Point::LoopGuard => Point::AfterLoopGuard,
            _ => Point::End,
        }
    }

    /// The place after a statement of a block.
    pub fn after_statement(self) -> Point
        ensures { result ≡ after_statement self }
    {
        match self {
            Point::Item(block) => Point::AfterItem(block),
            _ => Point::End,
        }
    }

    /// Whether the text may end here.
    pub fn is_end(self) -> bool
        ensures { result ≡ is_end self }
    {
        match self {
            Point::End
            | Point::Settings(_)
            | Point::BeforeMoves
            | Point::AfterPart(_)
            | Point::BeforeLines => true,
            Point::AfterClaim(clause, owner) => clause.ends_line(owner),
            _ => false,
        }
    }

    /// Whether a chain may go on here.
    pub fn has_operand_left(self) -> bool
        ensures { result ≡ has_operand_left self }
    {
        match self {
            Point::AfterNext(_, operands) => usize::from(operands) < MOST_OPERANDS,
            _ => true,
        }
    }

    /// Whether the list that is read here has room for what the token begins.
    pub fn has_room(self, kind: Kind) -> bool
        ensures { result ≡ has_room_at self kind }
    {
        match self {
            Point::AfterWord(_, words) if begins_word(kind) => usize::from(words) < MOST_WORDS,
            Point::AfterPart(parts) if begins_part(kind) => usize::from(parts) < MOST_PARTS,
            Point::AfterAssignment(_, assignments) if is_semicolon(kind) => {
                usize::from(assignments) < MOST_ASSIGNMENTS
            }
            Point::AfterClaim(clause, owner) if begins_line(kind) => clause.has_line_left(owner),
            _ => true,
        }
    }

    /// Where a token leads that begins no item.
    pub fn turn(self, kind: Kind) -> Option<Turn>
        ensures { result ≡ turn self kind }
    {
        match kind {
            Kind::Name => self.at_name(),
            Kind::Primed => None,
            Kind::Number => self.at_number(),
            Kind::Fixed(terminal) => self.at_terminal(terminal),
        }
    }

    fn at_terminal(self, terminal: Terminal) -> Option<Turn>
        ensures { result ≡ turn self (Kind.Fixed terminal) }
    {
        match terminal {
            Terminal::Compare(comparison) => self.at_compare(comparison),
            Terminal::Operate(_) => self.at_operate(),
            Terminal::ShiftBy(_) => self.at_shift(),
            Terminal::Join(junction) => self.at_join(junction),
            Terminal::Imply(_) => self.at_imply(),
            Terminal::Close => self.at_close(),
            Terminal::If => self.at_if(),
            Terminal::Then => self.at_then(),
            Terminal::Else => self.at_else(),
            Terminal::Colon => self.at_colon(),
            Terminal::Words => self.at_words(),
            Terminal::Show => self.at_show(),
            Terminal::Semicolon => self.at_semicolon(),
            Terminal::Assign => self.at_assign(),
            Terminal::Section(keyword) => self.at_section(keyword),
            _ => None,
        }
    }

    fn at_compare(self, comparison: Comparison) -> Option<Turn>
        ensures { result ≡ at_compare self comparison }
    {
        match self {
            Point::AfterExpression(sorts) if sorts.formula => {
                Some(Turn::On(Point::Right(Sort::Formula)))
            }
            Point::SettingWord(in_move) if comparison == Comparison::Equal => {
                Some(Turn::On(Point::SettingValue(in_move)))
            }
            _ => None,
        }
    }

    fn at_operate(self) -> Option<Turn>
        ensures { result ≡ at_operate self }
    {
        match self {
            Point::AfterExpression(sorts) if sorts.expression => {
                Some(Turn::On(Point::Right(Sort::Expression)))
            }
            _ => None,
        }
    }

    fn at_shift(self) -> Option<Turn>
        ensures { result ≡ at_shift self }
    {
        match self {
            Point::AfterExpression(sorts) if sorts.expression => Some(Turn::On(Point::Count)),
            _ => None,
        }
    }

    fn at_join(self, junction: Junction) -> Option<Turn>
        ensures { result ≡ at_join self junction }
    {
        match self {
            Point::AfterFormula => Some(Turn::On(Point::Next(junction, 1))),
            Point::AfterNext(chain, operands) if chain == junction => {
                Some(Turn::On(Point::Next(chain, operands)))
            }
            _ => None,
        }
    }

    fn at_imply(self) -> Option<Turn>
        ensures { result ≡ at_imply self }
    {
        match self {
            Point::AfterFormula => Some(Turn::On(Point::Second)),
            _ => None,
        }
    }

    fn at_close(self) -> Option<Turn>
        ensures { result ≡ at_close self }
    {
        match self {
            Point::AfterNext(..) => Some(Turn::Closed(Sort::Formula)),
            Point::Closing(sort) => Some(Turn::Closed(sort)),
            _ => None,
        }
    }

    fn at_if(self) -> Option<Turn>
        ensures { result ≡ at_if self }
    {
        match self {
            Point::First(sorts) if sorts.expression => {
                Some(Turn::Inside(Point::Condition, Point::Chosen))
            }
            Point::Item(block) => Some(Turn::Inside(Point::BranchGuard, Point::Item(block))),
            Point::LineRule(line) => Some(Turn::On(Point::LineStatement(line))),
            _ => None,
        }
    }

    fn at_then(self) -> Option<Turn>
        ensures { result ≡ at_then self }
    {
        match self {
            Point::AfterCondition => Some(Turn::On(Point::Consequent)),
            Point::AfterBranchGuard => Some(Turn::On(Point::Item(BlockKind::Then))),
            _ => None,
        }
    }

    fn at_else(self) -> Option<Turn>
        ensures { result ≡ at_else self }
    {
        match self {
            Point::AfterConsequent => Some(Turn::On(Point::Alternative)),
            Point::AfterItem(BlockKind::Then) => Some(Turn::On(Point::Item(BlockKind::Else))),
            _ => None,
        }
    }

    fn at_number(self) -> Option<Turn>
        ensures { result ≡ at_number self }
    {
        match self {
            Point::Count => Some(Turn::On(Point::Closing(Sort::Expression))),
            Point::WordWidth(program, words) => Some(Turn::On(Point::AfterWord(program, words))),
            Point::SettingValue(in_move) => Some(Turn::On(Point::Settings(in_move))),
            Point::MoveNumber => Some(Turn::On(Point::Settings(true))),
            Point::LineNumber(line) => Some(Turn::On(Point::LineRule(line))),
            Point::LineStatement(line) => Some(Turn::On(Point::AfterStatement(line))),
            Point::FirstPremise(line) | Point::AfterPremise(line) => {
                Some(Turn::On(Point::AfterPremise(line)))
            }
            _ => None,
        }
    }

    fn at_name(self) -> Option<Turn>
        ensures { result ≡ at_name self }
    {
        match self {
            Point::FirstWord(program) => Some(Turn::On(Point::NamedWord(program, 1))),
            Point::FixedWord(program, words) => Some(Turn::On(Point::NamedWord(program, words))),
            Point::AfterWord(program, words) => {
                let number = words.saturating_add(1);
                Some(Turn::On(Point::NamedWord(program, number)))
            }
            Point::PartName(parts) => Some(Turn::On(Point::NamedPart(parts))),
            Point::Item(block) => Some(Turn::On(Point::Target(block))),
            Point::AwaitTarget(block, assignments) => {
                let number = assignments.saturating_add(1);
                Some(Turn::On(Point::AwaitName(block, number)))
            }
            Point::Settings(in_move) => Some(Turn::On(Point::SettingWord(in_move))),
            _ => None,
        }
    }

    fn at_colon(self) -> Option<Turn>
        ensures { result ≡ at_colon self }
    {
        match self {
            Point::NamedWord(program, words) => Some(Turn::On(Point::WordWidth(program, words))),
            _ => None,
        }
    }

    fn at_words(self) -> Option<Turn>
        ensures { result ≡ at_words self }
    {
        match self {
            Point::WordsStart(program) => Some(Turn::On(Point::FirstWord(program))),
            _ => None,
        }
    }

    fn at_show(self) -> Option<Turn>
        ensures { result ≡ at_show self }
    {
        match self {
            Point::AfterWord(program, _) if !program => Some(Turn::On(Point::Whole)),
            _ => None,
        }
    }

    fn at_semicolon(self) -> Option<Turn>
        ensures { result ≡ at_semicolon self }
    {
        match self {
            Point::AfterItem(block) => Some(Turn::On(Point::Item(block))),
            Point::AfterAssignment(block, assignments) => {
                Some(Turn::On(Point::AwaitTarget(block, assignments)))
            }
            _ => None,
        }
    }

    fn at_assign(self) -> Option<Turn>
        ensures { result ≡ at_assign self }
    {
        match self {
            Point::Target(block) => Some(Turn::On(Point::Value(block))),
            Point::AwaitName(block, assignments) => {
                Some(Turn::On(Point::AwaitValue(block, assignments)))
            }
            _ => None,
        }
    }

    fn at_section(self, keyword: Keyword) -> Option<Turn>
        ensures { result ≡ at_section self keyword }
    {
        match self {
            Point::FirstWord(program) if keyword == Keyword::Fixed => {
                Some(Turn::On(Point::FixedWord(program, 1)))
            }
            Point::AfterWord(program, words) => after_word(program, words, keyword),
            Point::BeforeMoves | Point::Settings(true) if keyword == Keyword::At => {
                Some(Turn::On(Point::MoveNumber))
            }
            Point::AfterClaim(clause, owner) => after_claim(clause, owner, keyword),
            Point::NamedPart(part) if keyword == Keyword::Pre => {
                Some(Turn::On(Point::Claim(Clause::Pre, Owner::Part(part))))
            }
            Point::AfterPart(parts) if keyword == Keyword::Part => {
                Some(Turn::On(Point::PartName(parts.saturating_add(1))))
            }
            Point::Item(block) => at_statement(block, keyword),
            Point::AfterItem(block) if keyword == Keyword::End => block.end(),
            Point::AfterAwaitGuard(block) if keyword == Keyword::Do => {
                Some(Turn::On(Point::AwaitTarget(block, 0)))
            }
            Point::AfterAssignment(block, _) if keyword == Keyword::End => {
                Some(Turn::On(Point::AfterItem(block)))
            }
            Point::AfterLoopGuard if keyword == Keyword::Do => {
                Some(Turn::On(Point::Item(BlockKind::Loop)))
            }
            Point::BeforeLines if keyword == Keyword::Line => Some(Turn::On(Point::LineNumber(1))),
            Point::LineRule(line) if is_rule(keyword) => Some(Turn::On(Point::LineStatement(line))),
            Point::AfterStatement(line) => before_premises(line, keyword),
            Point::AfterPremise(line) => before_claims(line, keyword),
            _ => None,
        }
    }
}

impl Clause {
    /// Whether this formula of the owner's ends a line of a derivation.
    fn ends_line(self, owner: Owner) -> bool
        ensures { result ≡ ends_line self owner }
    {
        matches!((self, owner), (Clause::Post, Owner::Line(_)))
    }

    /// Whether another line may follow this formula.
    fn has_line_left(self, owner: Owner) -> bool
        ensures { result ≡ has_line_left self owner }
    {
        match (self, owner) {
            (Clause::Post, Owner::Line(lines)) => usize::from(lines) < MOST_DERIVATION_LINES,
            _ => true,
        }
    }
}

impl BlockKind {
    /// Where the `end` after the block leads.
    fn end(self) -> Option<Turn>
        ensures { result ≡ block_end self }
    {
        match self {
            BlockKind::Body(part) => Some(Turn::On(Point::AfterPart(part))),
            BlockKind::Then => None,
            BlockKind::Else | BlockKind::Loop => Some(Turn::Ended),
        }
    }
}

/// Where a keyword leads after so many words.
fn after_word(program: bool, words: u8, keyword: Keyword) -> Option<Turn>
    ensures { result ≡ after_word program words keyword }
{
    match keyword {
        Keyword::Fixed => Some(Turn::On(Point::FixedWord(program, words.saturating_add(1)))),
        Keyword::Pre if program => Some(Turn::On(Point::Claim(Clause::Pre, Owner::Program))),
        _ => None,
    }
}

/// Where a keyword leads after a formula of a specification.
fn after_claim(clause: Clause, owner: Owner, keyword: Keyword) -> Option<Turn>
    ensures { result ≡ after_claim clause owner keyword }
{
    match clause {
        Clause::Pre if keyword == Keyword::Rely => {
            Some(Turn::On(Point::Claim(Clause::Rely, owner)))
        }
        Clause::Rely if keyword == Keyword::Guar => {
            Some(Turn::On(Point::Claim(Clause::Guar, owner)))
        }
        Clause::Guar if keyword == Keyword::Post => {
            Some(Turn::On(Point::Claim(Clause::Post, owner)))
        }
        Clause::Post => after_specification(owner, keyword),
        _ => None,
    }
}

/// Where a keyword leads after a specification.
fn after_specification(owner: Owner, keyword: Keyword) -> Option<Turn>
    ensures { result ≡ after_specification owner keyword }
{
    match owner {
        Owner::Program if keyword == Keyword::Part => Some(Turn::On(Point::PartName(1))),
        Owner::Part(part) if keyword == Keyword::Begin => {
            Some(Turn::On(Point::Item(BlockKind::Body(part))))
        }
        Owner::Line(line) if keyword == Keyword::Line => {
            Some(Turn::On(Point::LineNumber(line.saturating_add(1))))
        }
        _ => None,
    }
}

/// Where a keyword leads where the specification of the line of this number is wanted.
fn before_claims(line: u16, keyword: Keyword) -> Option<Turn>
    ensures { result ≡ before_claims line keyword }
{
    match keyword {
        Keyword::Pre => Some(Turn::On(Point::Claim(Clause::Pre, Owner::Line(line)))),
        _ => None,
    }
}

/// Where a keyword leads after the number of a line's statement.
fn before_premises(line: u16, keyword: Keyword) -> Option<Turn>
    ensures { result ≡ before_premises line keyword }
{
    match keyword {
        Keyword::From => Some(Turn::On(Point::FirstPremise(line))),
        other => before_claims(line, other),
    }
}

/// Whether it is the name of a rule, other than `if`.
fn is_rule(keyword: Keyword) -> bool
    ensures { result ≡ is_rule keyword }
{
    matches!(
        keyword,
        Keyword::Basic | Keyword::Atomic | Keyword::Seq | Keyword::Loop | Keyword::Conseq
    )
}

/// Where a keyword leads where a statement is wanted.
fn at_statement(block: BlockKind, keyword: Keyword) -> Option<Turn>
    ensures { result ≡ at_statement block keyword }
{
    match keyword {
        Keyword::Skip => Some(Turn::On(Point::AfterItem(block))),
        Keyword::Await => Some(Turn::On(Point::AwaitGuard(block))),
        Keyword::While => Some(Turn::Inside(Point::LoopGuard, Point::Item(block))),
        _ => None,
    }
}

/// The place after a prefix operator.
pub fn operand_of(sort: Sort) -> Point
    ensures { result ≡ operand_of sort }
{
    match sort {
        Sort::Formula => Point::Negated,
        Sort::Expression => Point::Inverted,
    }
}

/// How the token may begin an item.
pub fn start_of(kind: Kind) -> Start
    ensures { result ≡ start_of kind }
{
    match kind {
        Kind::Name | Kind::Primed | Kind::Number => Start::Leaf(Sort::Expression),
        Kind::Fixed(Terminal::Truth(_)) => Start::Leaf(Sort::Formula),
        Kind::Fixed(Terminal::Not) => Start::Prefix(Sort::Formula),
        Kind::Fixed(Terminal::Inv) => Start::Prefix(Sort::Expression),
        Kind::Fixed(Terminal::Open) => Start::Opener,
        Kind::Fixed(_) => Start::Other,
    }
}
