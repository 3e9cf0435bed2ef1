//! The uses of named statements in an outline, which are functions in its C.

use crate::code::{Coded, Form};
use rg_c::operations::Operation;
use rg_code::checked::Checked;
use rg_outline_reports::Outlined;
use rg_tree::numbered::Numbered;
use rg_tree::program::Program;
use std::alloc::{AllocError, Global};

/// The line of a statement by its number, from 1; 0 where there is none.
fn line_of(statements: &[Numbered], number: usize) -> u32 {
    let place = number.checked_sub(1);
    let statement = place.and_then(|place| statements.get(place));
    statement.map_or(0, |statement| statement.line)
}

/// The uses of named statements in an outline, by the lines of its program's text.
fn operations_in(
    alloc: Global,
    outlined: &Outlined<'_>,
    program: &Program,
) -> Result<Vec<Operation>, AllocError> {
    let statements = program.numbered(alloc)?;
    let mut operations = Vec::new(alloc);
    for used in outlined.operations()? {
        operations.push(Operation {
            part: used.part,
            name: used.name,
            first: line_of(&statements, used.first),
            last: line_of(&statements, used.last),
        })?;
    }
    Ok(operations)
}

/// The program of code.
fn program_of(code: &Coded) -> &Program {
    match code {
        Coded::Whole(emitted) => emitted.program(),
        Coded::Left(erased) => erased.program(),
    }
}

/// The uses of named statements in an outline whose code is printed in a form: of C alone. Where words are erased, each statement keeps its number and its line.
pub(crate) fn operations_for(
    alloc: Global,
    form: Form<'_>,
    outlined: &Outlined<'_>,
    code: &Coded,
) -> Result<Vec<Operation>, AllocError> {
    match form {
        Form::C(_) => operations_in(alloc, outlined, program_of(code)),
        Form::Listing | Form::Accesses => Ok(Vec::new(alloc)),
    }
}
