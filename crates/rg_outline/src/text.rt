//! The text of the program.

use crate::expansion::{Action, BlockRow, DEEPEST, Expansion, OutlinePart, Statement};
use crate::print::{length_of, push_flat, push_spaces, push_tight_tree, too_large};
use rg_outline_syntax::{Fault, FaultKind, List, MeaningFault, Standing, push_count};
use rg_words::limits::MOST_TEXT_BYTES;

/// The most bytes of a row of declarations.
const WIDTH: usize = 108;

/// How the formulas of the specifications are laid out.
#[derive(Clone, Copy, PartialEq, Eq)]
enum Layout {
    /// In rows, for a person.
    Rows,
    /// In one row, without a space that no token needs.
    Tight,
}

/// Adds the text of the program, as `rg_parse::program` reads it. The formulas stand in rows, or where it would be too large so, tight.
///
/// # Errors
///
/// - `MeaningFault::TooDeep` where a formula or a value is nested too deeply for a text, at the place of the deepest conjunct.
/// - `MeaningFault::TextTooLarge` where it has more than `MOST_TEXT_BYTES` bytes even so; at the longest formula that all parts repeat.
/// - `FaultKind::Memory`.
pub fn push_text(expansion: &Expansion<'_>, text: &mut Vec<u8>) -> Result<(), Fault> {
    let start = text.len();
    match expansion.push_program(text, Layout::Rows) {
        Err(fault) if is_too_large(fault) => text.truncate(start),
        printed => return printed,
    }
    match expansion.push_program(text, Layout::Tight) {
        Err(fault) if is_too_large(fault) => Err(expansion.text_too_large()?),
        printed => printed,
    }
}

/// Whether the fault is one of size.
fn is_too_large(fault: Fault) -> bool {
    matches!(fault.kind, FaultKind::Meaning(MeaningFault::TooLarge))
}

/// Adds a text to show, as `rg_parse::show` reads it: that a formula is true in all states, or, where it is denied, that it is false in all of them.
///
/// # Errors
///
/// - `MeaningFault::TooLarge` where it has more than `MOST_TEXT_BYTES` bytes.
/// - `FaultKind::Memory`.
pub fn push_question(
    expansion: &Expansion<'_>,
    text: &mut Vec<u8>,
    formula: usize,
    is_denied: bool,
) -> Result<(), Fault> {
    expansion.push_declarations(text)?;
    let show: &[u8] = if is_denied { b"show not " } else { b"show " };
    text.extend_from_slice(show)?;
    expansion.push_tree(text, formula, show.len())?;
    text.push(b'\n')?;
    if text.len() > MOST_TEXT_BYTES {
        return Err(too_large());
    }
    Ok(())
}

impl Expansion<'_> {
    fn push_program(&self, text: &mut Vec<u8>, layout: Layout) -> Result<(), Fault> {
        self.push_declarations(text)?;
        let own = self.specification;
        let trees = [own.pre, own.rely, own.guar, own.post];
        self.push_formulas(text, 0, trees, layout)?;
        for (place, part) in self.parts.iter().enumerate() {
            self.push_part(text, place, *part, layout)?;
        }
        if text.len() > MOST_TEXT_BYTES {
            return Err(too_large());
        }
        Ok(())
    }

    /// The fault of a text that is too large, at the longest formula that its parts repeat.
    fn text_too_large(&self) -> Result<Fault, Fault> {
        let mut longest = 0;
        let mut fault = too_large();
        for clause in &self.clauses {
            let length = length_of(self, *clause)?;
            if length > longest {
                longest = length;
                let span = self.scope.forest.tree(*clause).span;
                fault = Fault::meaning(MeaningFault::TextTooLarge, span);
            }
        }
        Ok(fault)
    }

    /// Adds the words with their widths, in rows.
    fn push_declarations(&self, text: &mut Vec<u8>) -> Result<(), Fault> {
        let mut start = text.len();
        text.extend_from_slice(b"words")?;
        for (place, word) in self.scope.words.iter().enumerate() {
            let mut declaration = Vec::new(self.scope.alloc);
            if word.standing == Standing::Fixed {
                declaration.extend_from_slice(b"fixed ")?;
            }
            declaration.extend_from_slice(self.scope.members.at(place))?;
            declaration.push(b':')?;
            push_count(&mut declaration, u64::from(word.width))?;
            let row = text.len().saturating_sub(start);
            if row.saturating_add(declaration.len()) > WIDTH {
                text.push(b'\n')?;
                start = text.len();
                push_spaces(text, 5)?;
            }
            text.push(b' ')?;
            text.extend_from_slice(&declaration)?;
        }
        text.push(b'\n')?;
        Ok(())
    }

    /// Adds the pre, rely, guar and post, each from this column on.
    fn push_formulas(
        &self,
        text: &mut Vec<u8>,
        column: usize,
        trees: [usize; 4],
        layout: Layout,
    ) -> Result<(), Fault> {
        let keys = ["pre  ", "rely ", "guar ", "post "];
        for (key, tree) in keys.iter().zip(&trees) {
            self.want_shallow(*tree, 0)?;
            push_spaces(text, column)?;
            match layout {
                Layout::Rows => {
                    text.extend_from_slice(key.as_bytes())?;
                    self.push_tree(text, *tree, column.saturating_add(5))?;
                }
                Layout::Tight => push_tight_tree(self, text, key.as_bytes(), *tree)?,
            }
            if text.len() > MOST_TEXT_BYTES {
                return Err(too_large());
            }
            text.push(b'\n')?;
        }
        Ok(())
    }

    fn push_part(
        &self,
        text: &mut Vec<u8>,
        place: usize,
        part: OutlinePart,
        layout: Layout,
    ) -> Result<(), Fault> {
        text.extend_from_slice(b"\npart ")?;
        text.extend_from_slice(self.part_names.at(place))?;
        text.push(b'\n')?;
        let trees = [part.pre.full, part.rely, part.guar, part.post.full];
        self.push_formulas(text, 2, trees, layout)?;
        text.extend_from_slice(b"begin\n")?;
        self.push_block(text, part.body, 2, DEEPEST)?;
        text.extend_from_slice(b"end\n")?;
        Ok(())
    }

    /// Adds the statements of a block, each from this column on.
    #[cycle(printing)]
    fn push_block(
        &self,
        text: &mut Vec<u8>,
        block: usize,
        column: usize,
        depth: u32,
    ) -> Result<(), Fault> {
        if depth == 0 {
            return Err(too_large());
        }
        let mut before: &[u8] = b"";
        for row in self.rows_of(self.block(block).rows) {
            if let BlockRow::Statement(index) = *row {
                text.extend_from_slice(before)?;
                push_spaces(text, column)?;
                self.push_statement(text, self.statement(index), column, depth - 1)?;
                before = b";\n";
            }
        }
        text.push(b'\n')?;
        Ok(())
    }

    /// Adds a statement without the end of its last row.
    #[cycle(printing)]
    fn push_statement(
        &self,
        text: &mut Vec<u8>,
        statement: Statement,
        column: usize,
        depth: u32,
    ) -> Result<(), Fault> {
        let inner = column.saturating_add(2);
        let around = DEEPEST.saturating_sub(depth.saturating_add(1)) as usize;
        match statement.action {
            Action::Skip => text.extend_from_slice(b"skip")?,
            Action::Assign => self.push_updates(text, statement.updates, around)?,
            Action::Await => {
                self.want_shallow(statement.test, around)?;
                self.push_test(text, b"await ", statement.test, column, b" do ")?;
                self.push_updates(text, statement.updates, around)?;
                text.extend_from_slice(b" end")?;
            }
            Action::If => {
                self.want_shallow(statement.test, around.saturating_add(1))?;
                self.push_test(text, b"if ", statement.test, column, b" then\n")?;
                self.push_block(text, statement.blocks.0, inner, depth)?;
                push_spaces(text, column)?;
                text.extend_from_slice(b"else\n")?;
                self.push_block(text, statement.blocks.1, inner, depth)?;
                push_spaces(text, column)?;
                text.extend_from_slice(b"end")?;
            }
            Action::While => {
                self.want_shallow(statement.test, around.saturating_add(1))?;
                self.push_test(text, b"while ", statement.test, column, b" do\n")?;
                self.push_block(text, statement.blocks.0, inner, depth)?;
                push_spaces(text, column)?;
                text.extend_from_slice(b"end")?;
            }
        }
        Ok(())
    }

    /// Adds the test of a statement that begins in this column, with what stands before and after it.
    fn push_test(
        &self,
        text: &mut Vec<u8>,
        before: &[u8],
        test: usize,
        column: usize,
        after: &[u8],
    ) -> Result<(), Fault> {
        text.extend_from_slice(before)?;
        self.push_tree(text, test, column.saturating_add(before.len()))?;
        text.extend_from_slice(after)?;
        Ok(())
    }

    /// Adds the assignments of a step with so many openers open around it.
    fn push_updates(&self, text: &mut Vec<u8>, updates: List, around: usize) -> Result<(), Fault> {
        let mut before: &[u8] = b"";
        for update in self.updates_of(updates) {
            self.want_shallow(update.value, around)?;
            text.extend_from_slice(before)?;
            text.extend_from_slice(self.scope.members.at(update.word))?;
            text.extend_from_slice(b" := ")?;
            push_flat(self, text, update.value)?;
            before = b"; ";
        }
        Ok(())
    }
}
