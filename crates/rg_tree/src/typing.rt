//! What typing gives, as laws: functions that do nothing, and whose contracts are the laws.

ghost use Rattle.rg_tree.specs.WellTyped.{ValuesStayWithinWidth, TypedExpressionsFit, TypedFormulasFit, TypedConditionsFit};

/// An expression of width `w` over values within the words' widths has a value below 2 to the power of `w`.
#[tactic(auto, using(crate::proofs::Widths::values_within))]
pub fn values_stay_within_width()
    ensures { ValuesStayWithinWidth }
{}

/// Over the words of a layout, trees of one width each have word numbers, widths and shift counts within the limits.
pub fn typed_trees_fit()
    ensures expressions { TypedExpressionsFit }
    ensures formulas { TypedFormulasFit }
    ensures conditions { TypedConditionsFit }
{}
