//! Formulas and values as the text below spells them.

use crate::Expansion;
use crate::expansion::NOWHERE;
use rg_outline_syntax::{
    Comparison, Conditional, Fault, Junction, MeaningFault, Operator, push_number,
};
use rg_outline_terms::{Forest, Root};
use rg_words::limits::{MOST_OPERANDS, MOST_TEXT_BYTES};

/// The most bytes of a row of the text.
const WIDTH: usize = 110;

/// What is still to be printed.
#[derive(Clone, Copy)]
enum Print {
    Text(&'static str),
    Number(i128),
    Word(usize, bool),
    /// A form: in one row, or where it begins in this column, in as many rows as it takes.
    Form(usize, Option<usize>),
    /// The end of a row, and so many spaces.
    RowEnd(usize),
}

/// What stands between the two operands of a root, or before the count of a shift.
pub fn middle(root: Root) -> &'static str {
    match root {
        Root::Operate(operator) | Root::Shift(operator, _) => match operator {
            Operator::Add => " + ",
            Operator::Subtract => " - ",
            Operator::BitAnd => " band ",
            Operator::BitOr => " bor ",
            Operator::BitXor => " bxor ",
            Operator::ShiftLeft => " shl ",
            Operator::ShiftRight => " shr ",
            Operator::Modulus => " mod ",
        },
        Root::Compare(comparison) => match comparison {
            Comparison::Equal => " = ",
            Comparison::NotEqual => " != ",
            Comparison::Less => " < ",
            Comparison::LessOrEqual => " <= ",
            Comparison::Greater => " > ",
            Comparison::GreaterOrEqual => " >= ",
        },
        Root::Imply(Conditional::Implies) => " implies ",
        Root::Imply(Conditional::Iff) => " iff ",
        Root::Join(Junction::Or) => " or ",
        _ => " and ",
    }
}

/// An operand that begins so many bytes right of its form's column, if that has one.
fn operand(form: usize, column: Option<usize>, bytes: usize) -> Print {
    Print::Form(form, column.map(|column| column.saturating_add(bytes)))
}

/// Adds pieces, of which the first is to be printed first.
fn push_pieces(open: &mut Vec<Print>, pieces: &[Print]) -> Result<(), Fault> {
    for piece in pieces.iter().rev() {
        open.push(*piece)?;
    }
    Ok(())
}

/// Adds the pieces of a form: all in one row, or where it has a column, in rows from that on.
fn push_form(
    open: &mut Vec<Print>,
    forest: &Forest,
    index: usize,
    column: Option<usize>,
) -> Result<(), Fault> {
    let form = forest.term(index);
    let [first, second, third] = form.operands;
    match form.root {
        Root::Number(number) => push_pieces(open, &[Print::Number(number)]),
        Root::Word { word, is_primed } => push_pieces(open, &[Print::Word(word, is_primed)]),
        Root::Truth(true) => push_pieces(open, &[Print::Text("true")]),
        Root::Truth(false) => push_pieces(open, &[Print::Text("false")]),
        Root::Not => push_pieces(open, &[Print::Text("not "), operand(first, column, 4)]),
        Root::Inverse => push_pieces(open, &[Print::Text("inv "), Print::Form(first, None)]),
        Root::Shift(_, count) => {
            let shift = Print::Text(middle(form.root));
            let count = Print::Number(i128::from(count));
            push_pieces(open, &[count, Print::Text(")")])?;
            push_pieces(open, &[Print::Text("("), Print::Form(first, None), shift])
        }
        Root::Choice => {
            push_pieces(
                open,
                &[
                    Print::Text(" else "),
                    Print::Form(third, None),
                    Print::Text(")"),
                ],
            )?;
            push_pieces(open, &[Print::Text(" then "), Print::Form(second, None)])?;
            push_pieces(open, &[Print::Text("(if "), Print::Form(first, None)])
        }
        Root::Join(_) => push_chain(open, forest, index, column, MOST_OPERANDS),
        Root::Imply(_) => push_chain(open, forest, index, column, 2),
        Root::Operate(_) | Root::Compare(_) => push_chain(open, forest, index, None, 2),
    }
}

/// Adds the pieces of operands with what stands between them, in parentheses: the last operands of a chain, and before them what is left of it. Where
/// they have a column, each but the first has a row of its own.
fn push_chain(
    open: &mut Vec<Print>,
    forest: &Forest,
    index: usize,
    column: Option<usize>,
    most: usize,
) -> Result<(), Fault> {
    let root = forest.term(index).root;
    let mut current = index;
    open.push(Print::Text(")"))?;
    for _ in 1..most {
        let form = forest.term(current);
        if form.root != root {
            break;
        }
        let [first, second, _] = form.operands;
        open.push(operand(second, column, middle(root).len()))?;
        open.push(Print::Text(middle(root)))?;
        if let Some(column) = column {
            open.push(Print::RowEnd(column))?;
        }
        current = first;
    }
    push_pieces(open, &[Print::Text("("), operand(current, column, 1)])
}

impl Expansion<'_> {
    /// Adds a piece that is no form.
    fn push_leaf(&self, text: &mut Vec<u8>, piece: Print) -> Result<(), Fault> {
        match piece {
            Print::Text(said) => text.extend_from_slice(said.as_bytes())?,
            Print::Number(number) => push_number(text, number)?,
            Print::Word(word, is_primed) => {
                text.extend_from_slice(self.scope.members.at(word))?;
                if is_primed {
                    text.push(b'\'')?;
                }
            }
            Print::RowEnd(column) => {
                text.push(b'\n')?;
                push_spaces(text, column)?;
            }
            Print::Form(..) => {}
        }
        Ok(())
    }

    /// Adds a form in one row, but no more than so many bytes and a few; whether it is whole.
    fn push_row(&self, text: &mut Vec<u8>, form: usize, most: usize) -> Result<bool, Fault> {
        let end = text.len().saturating_add(most);
        let mut open = Vec::new(self.scope.alloc);
        open.push(Print::Form(form, None))?;
        for _ in 0..usize::MAX {
            let Some(piece) = open.pop() else {
                break;
            };
            if text.len() > end {
                return Ok(false);
            }
            match piece {
                Print::Form(inner, _) => push_form(&mut open, &self.scope.forest, inner, None)?,
                _ => self.push_leaf(text, piece)?,
            }
        }
        Ok(text.len() <= end)
    }

    /// The column of a form that is to be printed in rows; none where it fits into what is left of a row, or has no column.
    fn column_of_rows(&self, form: usize, column: Option<usize>) -> Result<Option<usize>, Fault> {
        let Some(start) = column else {
            return Ok(None);
        };
        let mut row = Vec::new(self.scope.alloc);
        let fits = match WIDTH.checked_sub(start) {
            Some(room) => self.push_row(&mut row, form, room)?,
            None => false,
        };
        Ok(if fits { None } else { column })
    }

    /// Adds a tree that begins in this column, in rows.
    pub(crate) fn push_tree(
        &self,
        text: &mut Vec<u8>,
        tree: usize,
        column: usize,
    ) -> Result<(), Fault> {
        let mut open = Vec::new(self.scope.alloc);
        open.push(Print::Form(self.scope.forest.tree(tree).term, Some(column)))?;
        for _ in 0..usize::MAX {
            let Some(piece) = open.pop() else {
                break;
            };
            if text.len() > MOST_TEXT_BYTES {
                return Err(too_large());
            }
            match piece {
                Print::Form(form, column) => {
                    let column = self.column_of_rows(form, column)?;
                    push_form(&mut open, &self.scope.forest, form, column)?;
                }
                _ => self.push_leaf(text, piece)?,
            }
        }
        Ok(())
    }
}

/// Adds a tree in one row, as the text spells it.
///
/// # Errors
///
/// - `MeaningFault::TooLarge` where it has more than `MOST_TEXT_BYTES` bytes; some of them are added.
/// - `FaultKind::Memory`.
pub fn push_flat(expansion: &Expansion<'_>, text: &mut Vec<u8>, tree: usize) -> Result<(), Fault> {
    let form = expansion.scope.forest.tree(tree).term;
    if expansion.push_row(text, form, MOST_TEXT_BYTES)? {
        Ok(())
    } else {
        Err(too_large())
    }
}

/// Adds a tree in one row, after these bytes, without the spaces that no token needs.
///
/// # Errors
///
/// As `push_flat`.
pub(crate) fn push_tight_tree(
    expansion: &Expansion<'_>,
    text: &mut Vec<u8>,
    before: &[u8],
    tree: usize,
) -> Result<(), Fault> {
    let mut loose = Vec::new(expansion.scope.alloc);
    loose.extend_from_slice(before)?;
    push_flat(expansion, &mut loose, tree)?;
    push_tight(text, &loose)
}

/// Adds bytes without the spaces that no token needs.
fn push_tight(text: &mut Vec<u8>, loose: &[u8]) -> Result<(), Fault> {
    let mut last = b'a';
    let mut is_apart = false;
    for byte in loose {
        if *byte == b' ' {
            is_apart = true;
        } else {
            if is_apart && !is_sign(last) && !is_sign(*byte) {
                text.push(b' ')?;
            }
            text.push(*byte)?;
            last = *byte;
            is_apart = false;
        }
    }
    Ok(())
}

/// Whether no space is needed beside the byte.
fn is_sign(byte: u8) -> bool {
    matches!(byte, b'!' | b'=' | b'<' | b'>' | b'+' | b'-' | b'(' | b')')
}

/// How many bytes a tree has in one row, or one more than a text may have.
pub(crate) fn length_of(expansion: &Expansion<'_>, tree: usize) -> Result<usize, Fault> {
    let mut row = Vec::new(expansion.scope.alloc);
    let form = expansion.scope.forest.tree(tree).term;
    if expansion.push_row(&mut row, form, MOST_TEXT_BYTES)? {
        Ok(row.len())
    } else {
        Ok(MOST_TEXT_BYTES + 1)
    }
}

/// Adds so many spaces.
pub(crate) fn push_spaces(text: &mut Vec<u8>, count: usize) -> Result<(), Fault> {
    for _ in 0..count {
        text.push(b' ')?;
    }
    Ok(())
}

/// The fault of a text, or a line of a derivation, that has more bytes than a file may have, or of a derivation that has more than it may have.
pub(crate) fn too_large() -> Fault {
    Fault::meaning(MeaningFault::TooLarge, NOWHERE)
}
