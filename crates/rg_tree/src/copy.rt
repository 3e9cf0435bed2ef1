//! Copies of trees.

ghost use Rattle.std.specs.Prelude.{◌≡◌, IfOk};
ghost use Rattle.rg_tree.specs.View.{expression, formula};

use crate::tree::{Expr, Formula};
use std::alloc::{AllocError, Global};

/// An equal expression. An error comes only where memory was refused.
#[cycle(copy)]
pub fn copy_expr(alloc: Global, e: &Expr) -> Result<Expr, AllocError>
    ensures { IfOk result (λ c. expression c ≡ expression e.now) }
{
    Ok(match e {
        Expr::Number(width, n) => Expr::Number(*width, *n),
        Expr::Word(k) => Expr::Word(*k),
        Expr::NextWord(k) => Expr::NextWord(*k),
        Expr::Inverse(width, a) => {
            let a = copy_expr(alloc, a)?;
            Expr::Inverse(*width, Box::new(alloc, a)?)
        }
        Expr::Binary(operator, width, a, b) => {
            let a = copy_expr(alloc, a)?;
            let b = copy_expr(alloc, b)?;
            Expr::Binary(*operator, *width, Box::new(alloc, a)?, Box::new(alloc, b)?)
        }
        Expr::Shifted(shift, width, a, count) => {
            let a = copy_expr(alloc, a)?;
            Expr::Shifted(*shift, *width, Box::new(alloc, a)?, *count)
        }
        Expr::If(f, a, b) => {
            let f = copy_formula(alloc, f)?;
            let a = copy_expr(alloc, a)?;
            let b = copy_expr(alloc, b)?;
            Expr::If(
                Box::new(alloc, f)?,
                Box::new(alloc, a)?,
                Box::new(alloc, b)?,
            )
        }
    })
}

/// An equal formula. An error comes only where memory was refused.
#[cycle(copy)]
pub fn copy_formula(alloc: Global, f: &Formula) -> Result<Formula, AllocError>
    ensures { IfOk result (λ c. formula c ≡ formula f.now) }
{
    Ok(match f {
        Formula::Truth(b) => Formula::Truth(*b),
        Formula::Not(f) => {
            let f = copy_formula(alloc, f)?;
            Formula::Not(Box::new(alloc, f)?)
        }
        Formula::Connect(connective, f, g) => {
            let f = copy_formula(alloc, f)?;
            let g = copy_formula(alloc, g)?;
            Formula::Connect(*connective, Box::new(alloc, f)?, Box::new(alloc, g)?)
        }
        Formula::Compare(comparison, a, b) => {
            let a = copy_expr(alloc, a)?;
            let b = copy_expr(alloc, b)?;
            Formula::Compare(*comparison, a, b)
        }
    })
}
