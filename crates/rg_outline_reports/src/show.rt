//! Formulas and values as an outline writes them: with no more parentheses than a reader needs.

use crate::show::Pending::{Name, NameFrom, NameUpTo, Number, Numeral, Piece, Text, Tree, Word};
use crate::written::is_same_place;
use rg_outline::{Expansion, middle};
use rg_outline_syntax::{Operator, Span, push_number, push_phrase};
use rg_outline_terms::{Form, FormKind, Root};
use std::alloc::AllocError;

/// The most bytes of a formula that is shown.
const MOST_SHOWN: usize = 1_000;

/// What is still to be shown.
#[derive(Clone, Copy)]
enum Pending {
    Text(&'static str),
    Number(i128),
    /// A number, as it is written.
    Numeral(Span),
    Word(usize, bool),
    /// The name of a word up to a place, or from a place on.
    NameUpTo(usize, usize),
    NameFrom(usize, usize),
    /// A piece of a form as it is written, with the gaps at its ends.
    Piece(Span),
    /// A name, as it is used, and whether that for which it stands was primed as a whole.
    Name(Span, bool),
    /// A tree, within parentheses where it binds more loosely than this. A tree with a name is shown by it, or not.
    Tree(usize, u8, bool),
}

/// How tightly a tree binds as it is shown.
fn level_of(expansion: &Expansion<'_>, tree: usize) -> u8 {
    let forest = &expansion.scope.forest;
    match forest.form(tree).map(|form| form.kind) {
        Some(FormKind::Quantified) => 1,
        Some(FormKind::Keeps) => 3,
        Some(FormKind::Constant) => 5,
        Some(FormKind::Sum) => 9,
        None => match forest.root(tree) {
            Root::Imply(_) => 1,
            Root::Join(_) => 2,
            Root::Not => 3,
            Root::Compare(_) => 4,
            Root::Operate(_) | Root::Shift(..) => 5,
            _ => 9,
        },
    }
}

/// Whether a tree is shown with `all` or `some` before its body.
fn is_quantified(expansion: &Expansion<'_>, tree: usize) -> bool {
    let form = expansion.scope.forest.form(tree);
    form.map(|form| form.kind) == Some(FormKind::Quantified)
}

fn is_sum(root: Root) -> bool {
    matches!(root, Root::Operate(Operator::Add | Operator::Subtract))
}

/// Adds a formula or a value. `level` is how tightly what stands beside it binds; a tree with a name is shown by it where `by_name` says so.
pub(crate) fn push_shown(
    expansion: &Expansion<'_>,
    text: &mut Vec<u8>,
    tree: usize,
    level: u8,
    by_name: bool,
) -> Result<(), AllocError> {
    let most = text.len().saturating_add(MOST_SHOWN);
    let mut open = Vec::new(expansion.scope.alloc);
    open.push(Tree(tree, level, by_name))?;
    for _ in 0..usize::MAX {
        let Some(pending) = open.pop() else {
            break;
        };
        if text.len() > most {
            text.extend_from_slice(b" ...")?;
            break;
        }
        push_pending(expansion, text, &mut open, pending)?;
    }
    Ok(())
}

/// Adds what is to be shown next, or puts in its place what it is made of.
fn push_pending(
    expansion: &Expansion<'_>,
    text: &mut Vec<u8>,
    open: &mut Vec<Pending>,
    pending: Pending,
) -> Result<(), AllocError> {
    match pending {
        Text(words) => text.extend_from_slice(words.as_bytes()),
        Number(number) => push_number(text, number),
        Numeral(written) => { text.extend_from_slice(written.of(expansion.scope.source)) }
        Word(word, is_primed) => {
            text.extend_from_slice(expansion.scope.shown.at(word))?;
            push_prime(text, is_primed)
        }
        NameUpTo(word, end) => {
            let name = expansion.scope.shown.at(word);
            text.extend_from_slice(name.get(..end).unwrap_or(name))
        }
        NameFrom(word, start) => {
            let name = expansion.scope.shown.at(word);
            text.extend_from_slice(name.get(start..).unwrap_or(&[]))
        }
        Piece(piece) => push_piece(text, piece.of(expansion.scope.source)),
        Name(name, is_primed) => push_use(expansion, text, name, is_primed),
        Tree(tree, level, by_name) => open_tree(expansion, open, tree, level, by_name),
    }
}

/// Whether a byte is there, and is white space.
fn is_gap(byte: Option<&u8>) -> bool {
    byte.copied().unwrap_or(0).is_ascii_whitespace()
}

/// Adds a piece of a form as it is written: in one line, without comments, and with one space for each gap.
fn push_piece(text: &mut Vec<u8>, piece: &[u8]) -> Result<(), AllocError> {
    if is_gap(piece.first()) {
        text.push(b' ')?;
    }
    push_phrase(text, piece)?;
    if is_gap(piece.last()) && !text.ends_with(b" ") {
        text.push(b' ')?;
    }
    Ok(())
}

/// Adds a name as it is used, with a prime where that for which it stands was primed as a whole.
fn push_use(
    expansion: &Expansion<'_>,
    text: &mut Vec<u8>,
    name: Span,
    is_primed: bool,
) -> Result<(), AllocError> {
    let written = name.of(expansion.scope.source);
    push_phrase(text, written)?;
    push_prime(text, is_primed && !written.ends_with(b"'"))
}

/// Adds the name for which a formula stands, as it is used.
pub(crate) fn push_name(
    expansion: &Expansion<'_>,
    text: &mut Vec<u8>,
    tree: usize,
) -> Result<(), AllocError> {
    let forest = &expansion.scope.forest;
    match forest.tree(tree).name {
        Some(name) => push_use(expansion, text, name, forest.reads(tree).primed != 0),
        None => Ok(()),
    }
}

fn push_prime(text: &mut Vec<u8>, is_primed: bool) -> Result<(), AllocError> {
    if is_primed {
        text.push(b'\'')?;
    }
    Ok(())
}

/// Adds a name as it is used, but its arguments as they are shown: as they stand they may speak of an index, and don't say which number that is.
fn open_name(
    expansion: &Expansion<'_>,
    open: &mut Vec<Pending>,
    tree: usize,
    used: Span,
) -> Result<(), AllocError> {
    let forest = &expansion.scope.forest;
    let reads = forest.reads(tree);
    let is_primed = reads.primed != 0 && reads.plain == 0;
    let arguments = forest.arguments(tree);
    if arguments.is_empty() {
        open.push(Name(used, is_primed))?;
        return Ok(());
    }
    open.push(Text(if is_primed { ")'" } else { ")" }))?;
    for place in (0..arguments.len()).rev() {
        if let Some(argument) = arguments.get(place) {
            open.push(Tree(*argument, 0, true))?;
        }
        open.push(Text(if place == 0 { "(" } else { ", " }))?;
    }
    let written = used.of(expansion.scope.source).iter();
    let length = written.take_while(|byte| **byte != b'(').count();
    let callee = Span {
        start: used.start,
        end: used.start.saturating_add(length),
    };
    open.push(Name(callee, false))?;
    Ok(())
}

/// A number: as it is written, where it is, else in decimal.
fn number_of(expansion: &Expansion<'_>, tree: usize, number: i128) -> Pending {
    let span = expansion.scope.forest.span(tree);
    let written = span.of(expansion.scope.source);
    let is_whole = written
        .iter()
        .all(|byte| byte.is_ascii_alphanumeric() || *byte == b'_');
    if is_whole && written.first().copied().unwrap_or(0).is_ascii_digit() {
        Numeral(span)
    } else {
        Number(number)
    }
}

/// Adds a form as it is written, with what stands there for parameters and indices that it doesn't bind: in parentheses, unless it stands alone between
/// brackets, parentheses or commas.
fn open_written(
    expansion: &Expansion<'_>,
    open: &mut Vec<Pending>,
    form: Form,
) -> Result<(), AllocError> {
    let source = expansion.scope.source;
    let mut end = form.place.end;
    for filled in expansion.scope.forest.filled(form) {
        let before = source.get(..filled.place.start).unwrap_or(&[]).last();
        let after = source.get(filled.place.end..).unwrap_or(&[]).first();
        let is_delimited = b"([".contains(&before.copied().unwrap_or(b' '))
            && b")],".contains(&after.copied().unwrap_or(b' '));
        let level = if is_delimited { 0 } else { 9 };
        let start = filled.place.end;
        open.push(Piece(Span { start, end }))?;
        open.push(Tree(filled.tree, level, true))?;
        end = filled.place.start;
    }
    let start = form.place.start;
    open.push(Piece(Span { start, end }))?;
    Ok(())
}

/// Adds what a tree is made of: its name, where it is shown by that; else its form or its root, in parentheses where it binds too loosely.
fn open_tree(
    expansion: &Expansion<'_>,
    open: &mut Vec<Pending>,
    tree: usize,
    level: u8,
    by_name: bool,
) -> Result<(), AllocError> {
    let forest = &expansion.scope.forest;
    if let Some(name) = forest.tree(tree).name
        && by_name
    {
        return open_name(expansion, open, tree, name);
    }
    let is_loose = level_of(expansion, tree) < level;
    if is_loose {
        open.push(Text(")"))?;
    }
    match forest.form(tree) {
        Some(form) if form.kind == FormKind::Keeps => {
            open_all(
                open,
                &[Text("keeps "), Tree(forest.operand(tree, 0), 3, true)],
            )?
        }
        Some(form) => open_written(expansion, open, form)?,
        None => open_root(expansion, open, tree, is_loose || level == 0)?,
    }
    if is_loose {
        open.push(Text("("))?;
    }
    Ok(())
}

/// Adds these, of which the first is to be shown first.
fn open_all(open: &mut Vec<Pending>, all: &[Pending]) -> Result<(), AllocError> {
    for pending in all.iter().rev() {
        open.push(*pending)?;
    }
    Ok(())
}

/// Adds what a tree is made of without the parentheses around it; `is_whole` says that nothing stands beside it.
fn open_root(
    expansion: &Expansion<'_>,
    open: &mut Vec<Pending>,
    tree: usize,
    is_whole: bool,
) -> Result<(), AllocError> {
    let forest = &expansion.scope.forest;
    let root = forest.root(tree);
    let operand = |place: usize, level: u8| Tree(forest.operand(tree, place), level, true);
    let between = Text(middle(root));
    let (left, right) = match root {
        Root::Number(number) => return open_all(open, &[number_of(expansion, tree, number)]),
        Root::Word { word, is_primed } => return open_all(open, &[Word(word, is_primed)]),
        Root::Truth(true) => return open_all(open, &[Text("true")]),
        Root::Truth(false) => return open_all(open, &[Text("false")]),
        Root::Not => return open_all(open, &[Text("not "), operand(0, 3)]),
        Root::Inverse => return open_all(open, &[Text("inv "), operand(0, 9)]),
        Root::Shift(_, count) => {
            let count = Number(i128::from(count));
            return open_all(open, &[operand(0, 6), between, count]);
        }
        Root::Choice => {
            if let Some(member) = member_of(expansion, tree) {
                return open_member(expansion, open, tree, member);
            }
            let (test, then, otherwise) = (operand(0, 0), operand(1, 5), operand(2, 5));
            let pending = [
                Text("(if "),
                test,
                Text(" then "),
                then,
                Text(" else "),
                otherwise,
                Text(")"),
            ];
            return open_all(open, &pending);
        }
        Root::Join(_) => return open_chain(expansion, open, tree, is_whole),
        // (what begins with `all` or `some` ends the whole)
        Root::Imply(_) if is_quantified(expansion, forest.operand(tree, 1)) => (2, 1),
        Root::Imply(_) => (2, 2),
        Root::Operate(_) if is_sum(root) && is_sum(forest.root(forest.operand(tree, 0))) => (5, 6),
        Root::Operate(_) => (6, 6),
        _ => (5, 5),
    };
    open_all(open, &[operand(0, left), between, operand(1, right)])
}

/// The member that a choice reads first, where the choice was made of a family with an index over words: the word, whether it is primed, and where in
/// its name the number of that index begins and ends.
#[derive(Clone, Copy)]
struct FirstMember {
    word: usize,
    is_primed: bool,
    start: usize,
    end: usize,
}

/// The word that a tree is, or that a choice reads first.
fn first_word(expansion: &Expansion<'_>, tree: usize) -> Option<(usize, bool)> {
    let forest = &expansion.scope.forest;
    let mut read = tree;
    if forest.root(tree) == Root::Choice {
        read = forest.operand(tree, 1);
    }
    match forest.root(read) {
        Root::Word { word, is_primed } => Some((word, is_primed)),
        _ => None,
    }
}

/// Where in the first one of two names of members the number begins by which they differ: after the last `[` before the first difference.
fn number_start(first: &[u8], second: &[u8]) -> usize {
    let mut start: usize = 0;
    for (place, (byte, other)) in first.iter().zip(second).enumerate() {
        if *byte != *other {
            break;
        }
        if *byte == b'[' {
            start = place.saturating_add(1);
        }
    }
    start
}

/// The first member of a choice that was made of a family with an index over words: then the whole, its test and its member have one place.
fn member_of(expansion: &Expansion<'_>, tree: usize) -> Option<FirstMember> {
    let forest = &expansion.scope.forest;
    let place = forest.span(tree);
    let is_made = is_same_place(place, forest.span(forest.operand(tree, 0)))
        && is_same_place(place, forest.span(forest.operand(tree, 1)));
    if !is_made {
        return None;
    }
    let (word, is_primed) = first_word(expansion, tree)?;
    let (next, _) = first_word(expansion, forest.operand(tree, 2))?;
    let name = expansion.scope.shown.at(word);
    let start = number_start(name, expansion.scope.shown.at(next));
    let rest = name.get(start..).unwrap_or(&[]).iter();
    let digits = rest.take_while(|byte| byte.is_ascii_digit()).count();
    Some(FirstMember {
        word,
        is_primed,
        start,
        end: start.saturating_add(digits),
    })
}

/// Whether a choice was made of a family with an index over words.
pub(crate) fn is_member(expansion: &Expansion<'_>, tree: usize) -> bool {
    member_of(expansion, tree).is_some()
}

/// The index, where a value was made for a member of a family by an assignment to the member that an index chooses.
pub(crate) fn assigned_index(expansion: &Expansion<'_>, value: usize) -> Option<usize> {
    let forest = &expansion.scope.forest;
    let place = forest.span(value);
    let test = forest.operand(value, 0);
    let is_made = forest.root(value) == Root::Choice
        && is_same_place(place, forest.span(test))
        && is_same_place(place, forest.span(forest.operand(value, 2)));
    if is_made {
        Some(forest.operand(test, 0))
    } else {
        None
    }
}

/// Adds a family with an index over words; primed, the whole has the prime.
fn open_member(
    expansion: &Expansion<'_>,
    open: &mut Vec<Pending>,
    tree: usize,
    member: FirstMember,
) -> Result<(), AllocError> {
    let forest = &expansion.scope.forest;
    let mut plain = tree;
    if member.is_primed {
        plain = forest.unprimed(tree).unwrap_or(tree);
    }
    let index = forest.operand(forest.operand(plain, 0), 0);
    let pending = [
        NameUpTo(member.word, member.start),
        Tree(index, 5, true),
        NameFrom(member.word, member.end),
        Text(if member.is_primed { "'" } else { "" }),
    ];
    open_all(open, &pending)
}

/// Adds what a chain of `and` or of `or` is made of, from the right. An operand that has a name or a form ends it. Where nothing stands beside the
/// chain, what begins with `all` or `some` may end it without parentheses.
fn open_chain(
    expansion: &Expansion<'_>,
    open: &mut Vec<Pending>,
    tree: usize,
    is_whole: bool,
) -> Result<(), AllocError> {
    let forest = &expansion.scope.forest;
    let root = forest.root(tree);
    let mut current = tree;
    let mut level = 3;
    if is_whole && is_quantified(expansion, forest.operand(tree, 1)) {
        level = 1;
    }
    for _ in 0..forest.trees.len() {
        let is_shown = forest.tree(current).name.is_some() || forest.form(current).is_some();
        let is_next = forest.root(current) == root && (current == tree || !is_shown);
        if !is_next {
            break;
        }
        open.push(Tree(forest.operand(current, 1), level, true))?;
        open.push(Text(middle(root)))?;
        level = 3;
        current = forest.operand(current, 0);
    }
    open.push(Tree(current, 3, true))?;
    Ok(())
}
