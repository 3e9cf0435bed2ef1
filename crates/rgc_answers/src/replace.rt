//! Trees in which the words are replaced by expressions.

ghost use Rattle.std.specs.Prelude.{◌≡◌, length, map, IfOk};
ghost use Rattle.rg_tree.specs.Fits.{ExpressionFits, FormulaFits};
ghost use Rattle.rg_tree.specs.View.{expression, formula};
ghost use Rattle.rgc_answers.specs.Replaced.{expression_over, formula_over};

use rg_tree::copy::copy_expr;
use rg_tree::tree::{Expr, Formula};
use std::alloc::{AllocError, Global};

/// The expression with each plain word replaced by its expression in `plain`, each primed word by its expression in `primed`. An error
/// comes only where memory was refused.
#[cycle(replace)]
pub fn expression_over(
    alloc: Global,
    e: &Expr,
    plain: &[Expr],
    primed: &[Expr],
) -> Result<Expr, AllocError>
    requires fits { ExpressionFits (expression e.now) (length plain.now) }
    requires same { length primed.now ≡ length plain.now }
    ensures { IfOk result (λ r. expression r ≡ expression_over (map expression plain.now) (map expression primed.now) (expression e.now)) }
{
    Ok(match e {
        Expr::Number(width, n) => Expr::Number(*width, *n),
        Expr::Word(k) => copy_expr(alloc, &plain[*k])?,
        Expr::NextWord(k) => copy_expr(alloc, &primed[*k])?,
        Expr::Inverse(width, a) => {
            let a = expression_over(alloc, a, plain, primed)?;
            Expr::Inverse(*width, Box::new(alloc, a)?)
        }
        Expr::Binary(operator, width, a, b) => {
            let a = expression_over(alloc, a, plain, primed)?;
            let b = expression_over(alloc, b, plain, primed)?;
            Expr::Binary(*operator, *width, Box::new(alloc, a)?, Box::new(alloc, b)?)
        }
        Expr::Shifted(shift, width, a, count) => {
            let a = expression_over(alloc, a, plain, primed)?;
            Expr::Shifted(*shift, *width, Box::new(alloc, a)?, *count)
        }
        Expr::If(f, a, b) => {
            let f = formula_over(alloc, f, plain, primed)?;
            let a = expression_over(alloc, a, plain, primed)?;
            let b = expression_over(alloc, b, plain, primed)?;
            Expr::If(
                Box::new(alloc, f)?,
                Box::new(alloc, a)?,
                Box::new(alloc, b)?,
            )
        }
    })
}

/// The formula with its words replaced as `expression_over` replaces them. An error comes only where memory was refused.
#[cycle(replace)]
pub fn formula_over(
    alloc: Global,
    f: &Formula,
    plain: &[Expr],
    primed: &[Expr],
) -> Result<Formula, AllocError>
    requires fits { FormulaFits (formula f.now) (length plain.now) }
    requires same { length primed.now ≡ length plain.now }
    ensures { IfOk result (λ r. formula r ≡ formula_over (map expression plain.now) (map expression primed.now) (formula f.now)) }
{
    Ok(match f {
        Formula::Truth(b) => Formula::Truth(*b),
        Formula::Not(f) => {
            let f = formula_over(alloc, f, plain, primed)?;
            Formula::Not(Box::new(alloc, f)?)
        }
        Formula::Connect(connective, f, g) => {
            let f = formula_over(alloc, f, plain, primed)?;
            let g = formula_over(alloc, g, plain, primed)?;
            Formula::Connect(*connective, Box::new(alloc, f)?, Box::new(alloc, g)?)
        }
        Formula::Compare(comparison, a, b) => {
            let a = expression_over(alloc, a, plain, primed)?;
            let b = expression_over(alloc, b, plain, primed)?;
            Formula::Compare(*comparison, a, b)
        }
    })
}
