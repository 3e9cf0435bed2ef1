//! Whether lines derive the parts of a program, and the first fault where they don't.

ghost use Rattle.std.specs.Prelude.{◌≡◌, ℕ, ◌↔◌, ◌+◌, ◌^◌, ◌<◌, ◌≤◌, [], ◌∷◌, length, map, IsTrue, IfSome, IsNone, Some, suc};
ghost use Rattle.rg_words.specs.declared.limits.TheConstants.{MOST_STATEMENTS, MOST_DERIVATION_LINES};
ghost use Rattle.rg_words.specs.declared.operators.Connective.TheVariants.{And};
ghost use Rattle.rg_tree.specs.Trees.{connected, negation};
ghost use Rattle.rg_tree.specs.Statements.{Statement, more};
ghost use Rattle.rg_tree.specs.View.{formula};
ghost use Rattle.rg_tree.specs.Programs.{nth};
ghost use Rattle.rg_tree.specs.Numbering.{statements, statements_of_items, statements_of_parts};
ghost use Rattle.rg_tree.specs.ProgramView.{specification, statement, items, part};
ghost use Rattle.rg_tree.specs.Lines.{line_tree};
ghost use Rattle.rg_rules.specs.Inner.View.{referred};
ghost use Rattle.rg_rules.specs.Faults.{count_items, premise_count, item_numbers, premise_numbers, AreEarlier, lines_at, AreChained, AreChoices, AreTurn, TreesFit, IsLineAnswer, IsDerived, PartsDerived, AreFaultlessBefore, IsFirstBadLine};
ghost use Rattle.rg_rules.specs.Inner.Sizes.{AreSized, IsSizedInside};

use crate::table::{size, statement_at};
use rg_tree::equal::same_formula;
use rg_tree::line::{DerivationLine, Rule};
use rg_tree::part::{Part, Spec};
use rg_tree::statement::{Items, Stmt};
use rg_tree::tree::Formula;
use rg_words::operators::Connective;
use rg_words::{Place, Refusal, RefusalNumber, SourceFile};

/// The line of a number, from 1.
fn line_at(lines: &[DerivationLine], number: u64) -> &DerivationLine
    requires least { 1 ≤ number }
    requires most { number ≤ length lines.now }
    ensures { nth (map line_tree lines.now) number ≡ Some (line_tree result.now) }
{
    &lines[(number - 1) as usize]
}

/// Whether there are as many premises as items.
#[tactic(auto, using(crate::proofs::Fitting::some_items))]
fn as_many(rest: &Items, premises: &[u64]) -> bool
    ensures { IsTrue result ↔ (count_items (items rest.now) ≡ length premises.now) }
{
    let Some((_, others)) = premises.split_first() else {
        return false;
    };
    match rest {
        Items::One(_) => others.is_empty(),
        Items::More(_, rest) => as_many(rest, others),
    }
}

/// Whether the rule is for that kind of statement, with as many premises.
fn is_rule_for(rule: Rule, s: &Stmt, premises: &[u64]) -> bool
    ensures { IsTrue result ↔ (premise_count rule (statement s.now) ≡ Some (length premises.now)) }
{
    match (rule, s) {
        (Rule::Basic, Stmt::Skip(_)) => premises.is_empty(),
        (Rule::Basic, Stmt::Assign(_, _)) => premises.is_empty(),
        (Rule::Atomic, Stmt::Await(_, _, _)) => premises.is_empty(),
        (Rule::Seq, Stmt::Seq(_, _, rest)) => {
            !premises.is_empty() && as_many(rest, &premises[1..])
        }
        (Rule::If, Stmt::If(_, _, _, _)) => premises.len() == 2,
        (Rule::Loop, Stmt::While(_, _, _)) => premises.len() == 1,
        (Rule::Conseq, _) => premises.len() == 1,
        _ => false,
    }
}

/// Whether each is the number of a line before line `k`.
fn are_earlier(premises: &[u64], k: u64) -> bool
    ensures { IsTrue result ↔ AreEarlier k premises.now }
{
    for i in premises {
        if *i == 0 || *i >= k {
            return false;
        }
    }
    true
}

/// The size of the statement of a number.
#[tactic(auto, using(crate::proofs::Find::numbers))]
fn size_at(sizes: &[u64], number: u64) -> u64
    requires least { 1 ≤ number }
    requires most { number ≤ length sizes.now }
    ensures { nth sizes.now number ≡ Some result }
{
    sizes[(number - 1) as usize]
}

/// Whether the premises are lines of the items, the first of which is statement `number`.
#[tactic(auto, using(crate::proofs::Find::numbers))]
fn are_of_items(
    lines: &[DerivationLine],
    sizes: &[u64],
    number: u64,
    rest: &Items,
    premises: &[u64],
) -> bool
    requires earlier { AreEarlier (length lines.now + 1) premises.now }
    requires sizes { AreSized sizes.now number (items rest.now) }
    requires room { number + length (statements_of_items (items rest.now)) < 2 ^ 64 }
    ensures { IsTrue result ↔ (map (λ l. l.number) (lines_at (map line_tree lines.now) premises.now) ≡ item_numbers number (items rest.now)) }
{
    let Some((first, others)) = premises.split_first() else {
        return false;
    };
    let line = line_at(lines, *first);
    match rest {
        Items::One(_) => line.number == number && others.is_empty(),
        Items::More(_, rest) => {
            let next = number + size_at(sizes, number);
            line.number == number && are_of_items(lines, sizes, next, rest, others)
        }
    }
}

/// Whether the premises are lines of these statements.
fn are_of(lines: &[DerivationLine], premises: &[u64], numbers: &[u64]) -> bool
    requires earlier { AreEarlier (length lines.now + 1) premises.now }
    ensures { IsTrue result ↔ (map (λ l. l.number) (lines_at (map line_tree lines.now) premises.now) ≡ numbers.now) }
{
    let Some((first, others)) = premises.split_first() else {
        return numbers.is_empty();
    };
    let line = line_at(lines, *first);
    let Some((number, rest)) = numbers.split_first() else {
        return false;
    };
    line.number == *number && are_of(lines, others, rest)
}

/// Whether the premises are lines of the items of a sequence, the first of which is statement `number`.
#[tactic(auto, using(crate::proofs::Find::numbers))]
fn are_of_sequence(
    lines: &[DerivationLine],
    sizes: &[u64],
    number: u64,
    s: &Stmt,
    rest: &Items,
    premises: &[u64],
) -> bool
    requires earlier { AreEarlier (length lines.now + 1) premises.now }
    requires sizes { AreSized sizes.now number (more (statement s.now) (items rest.now)) }
    requires room { number + (length (statements (statement s.now)) + length (statements_of_items (items rest.now))) < 2 ^ 64 }
    ensures { IsTrue result ↔ (map (λ l. l.number) (lines_at (map line_tree lines.now) premises.now)
        ≡ item_numbers number (more (statement s.now) (items rest.now))) }
{
    let Some((first, others)) = premises.split_first() else {
        return false;
    };
    let line = line_at(lines, *first);
    let next = number + size_at(sizes, number);
    line.number == number && are_of_items(lines, sizes, next, rest, others)
}

/// Whether the premises are lines of the statements that the rule asks.
#[tactic(auto, using(crate::proofs::Find::numbers))]
fn are_asked(lines: &[DerivationLine], sizes: &[u64], line: &DerivationLine, s: &Stmt) -> bool
    requires earlier { AreEarlier (length lines.now + 1) line.now.premises.items }
    requires number { line.now.number ≤ MOST_STATEMENTS }
    requires sizes { IsSizedInside sizes.now line.now.number (statement s.now) }
    requires most { length (statements (statement s.now)) ≤ MOST_STATEMENTS }
    ensures { IsTrue result ↔ (map (λ l. l.number) (lines_at (map line_tree lines.now) line.now.premises.items)
        ≡ premise_numbers line.now.number line.now.rule (statement s.now)) }
{
    let premises = line.premises.as_slice();
    let inner = line.number + 1;
    match (line.rule, s) {
        (Rule::Seq, Stmt::Seq(_, first, rest)) => {
            are_of_sequence(lines, sizes, inner, first, rest, premises)
        }
        (Rule::If, Stmt::If(_, _, _, _)) => {
            are_of(lines, premises, &[inner, inner + size_at(sizes, inner)])
        }
        (Rule::Loop, Stmt::While(_, _, _)) => are_of(lines, premises, &[inner]),
        (Rule::Conseq, _) => are_of(lines, premises, &[line.number]),
        _ => are_of(lines, premises, &[]),
    }
}

/// Whether the rely, the guarantee and the post are these.
fn is_framed(a: &Spec, spec: &Spec, post: &Formula) -> bool
    ensures { IsTrue result ↔ ((formula a.now.rely ≡ formula spec.now.rely) × (formula a.now.guar ≡ formula spec.now.guar)
        × (formula a.now.post ≡ formula post.now)) }
{
    same_formula(&a.rely, &spec.rely)
        && same_formula(&a.guar, &spec.guar)
        && same_formula(&a.post, post)
}

/// Whether the formula is the conjunction of these two.
fn is_both(f: &Formula, pre: &Formula, test: &Formula) -> bool
    ensures { IsTrue result ↔ (formula f.now ≡ connected And (formula pre.now) (formula test.now)) }
{
    match f {
        Formula::Connect(Connective::And, g, h) => same_formula(g, pre) && same_formula(h, test),
        _ => false,
    }
}

/// Whether the formula is the conjunction of the first and the negation of the second.
fn is_both_not(f: &Formula, pre: &Formula, test: &Formula) -> bool
    ensures { IsTrue result ↔ (formula f.now ≡ connected And (formula pre.now) (negation (formula test.now))) }
{
    match f {
        Formula::Connect(Connective::And, g, h) => { same_formula(g, pre) && is_not(h, test) }
        _ => false,
    }
}

/// Whether the formula is the negation of the other.
fn is_not(f: &Formula, test: &Formula) -> bool
    ensures { IsTrue result ↔ (formula f.now ≡ negation (formula test.now)) }
{
    match f {
        Formula::Not(g) => same_formula(g, test),
        _ => false,
    }
}

/// Whether the formulas are these: the pre, the rely and the guarantee of `spec`, and the post.
fn is_spec(a: &Spec, pre: &Formula, spec: &Spec, post: &Formula) -> bool
    ensures { IsTrue result ↔ (specification a.now ≡ record (specification spec.now) { pre = formula pre.now; post = formula post.now }) }
{
    same_formula(&a.pre, pre) && is_framed(a, spec, post)
}

/// Whether the premises lead from this pre to the post, each post the next pre.
fn are_chained(lines: &[DerivationLine], pre: &Formula, spec: &Spec, premises: &[u64]) -> bool
    requires earlier { AreEarlier (length lines.now + 1) premises.now }
    ensures { IsTrue result ↔ AreChained (record (specification spec.now) { pre = formula pre.now })
        (map (λ l. l.spec) (lines_at (map line_tree lines.now) premises.now)) }
{
    let Some((first, others)) = premises.split_first() else {
        return false;
    };
    let from = &line_at(lines, *first).spec;
    if others.is_empty() {
        is_spec(from, pre, spec, &spec.post)
    } else {
        is_spec(from, pre, spec, &from.post) && are_chained(lines, &from.post, spec, others)
    }
}

/// Whether the premises are formulas of the two blocks of an `if`.
fn are_choices(lines: &[DerivationLine], spec: &Spec, test: &Formula, premises: &[u64]) -> bool
    requires earlier { AreEarlier (length lines.now + 1) premises.now }
    requires count { length premises.now ≡ 2 }
    ensures { IsTrue result ↔ AreChoices (specification spec.now) (formula test.now) (map (λ l. l.spec) (lines_at (map line_tree lines.now) premises.now)) }
{
    match premises {
        [i, j] => {
            let first = &line_at(lines, *i).spec;
            let second = &line_at(lines, *j).spec;
            is_both(&first.pre, &spec.pre, test)
                && is_framed(first, spec, &spec.post)
                && is_both_not(&second.pre, &spec.pre, test)
                && is_framed(second, spec, &spec.post)
        }
        _ => false,
    }
}

/// Whether the premise has the formulas of the body of a loop.
fn is_turn(lines: &[DerivationLine], spec: &Spec, test: &Formula, premises: &[u64]) -> bool
    requires earlier { AreEarlier (length lines.now + 1) premises.now }
    requires count { length premises.now ≡ 1 }
    ensures { IsTrue result ↔ AreTurn (specification spec.now) (formula test.now) (map (λ l. l.spec) (lines_at (map line_tree lines.now) premises.now)) }
{
    match premises {
        [i] => {
            let body = &line_at(lines, *i).spec;
            is_both(&body.pre, &spec.pre, test) && is_framed(body, spec, &spec.pre)
        }
        _ => false,
    }
}

/// Whether the formulas of the premises are as the rule asks.
fn trees_fit(lines: &[DerivationLine], line: &DerivationLine, s: &Stmt) -> bool
    requires earlier { AreEarlier (length lines.now + 1) line.now.premises.items }
    requires count { premise_count line.now.rule (statement s.now) ≡ Some (length line.now.premises.items) }
    ensures { IsTrue result ↔ TreesFit (specification line.now.spec) line.now.rule (statement s.now)
        (map (λ l. l.spec) (lines_at (map line_tree lines.now) line.now.premises.items)) }
{
    let premises = line.premises.as_slice();
    let spec = &line.spec;
    match (line.rule, s) {
        (Rule::Seq, Stmt::Seq(_, _, _)) => are_chained(lines, &spec.pre, spec, premises),
        (Rule::If, Stmt::If(_, test, _, _)) => are_choices(lines, spec, test, premises),
        (Rule::Loop, Stmt::While(_, test, _)) => is_turn(lines, spec, test, premises),
        _ => true,
    }
}

/// The first demand on a line that it doesn't meet.
#[tactic(auto, using(crate::proofs::Fitting::earlier_more))]
fn line_fault(
    list: &[&Stmt],
    sizes: &[u64],
    lines: &[DerivationLine],
    place: u64,
    line: &DerivationLine,
) -> Option<RefusalNumber>
    requires place { place ≤ length lines.now }
    requires most { length list.now ≤ MOST_STATEMENTS }
    requires within { (n : ℕ) (s : Statement) → nth (map referred list.now) n ≡ Some s → length (statements s) ≤ MOST_STATEMENTS }
    requires sizes { (n : ℕ) (s : Statement) → nth (map referred list.now) n ≡ Some s → IsSizedInside sizes.now n s }
    ensures { IsLineAnswer (map referred list.now) (map line_tree lines.now) place (line_tree line.now) result }
{
    if line.own_number != place {
        return Some(RefusalNumber::LineNumber);
    }
    let Some(s) = statement_at(list, line.number) else {
        return Some(RefusalNumber::WrongStatement);
    };
    let premises = line.premises.as_slice();
    if !is_rule_for(line.rule, s, premises) {
        return Some(RefusalNumber::RuleDoesNotFit);
    }
    if !are_earlier(premises, place) {
        return Some(RefusalNumber::NotEarlier);
    }
    if !are_asked(lines, sizes, line, s) {
        return Some(RefusalNumber::WrongStatement);
    }
    if !trees_fit(lines, line, s) {
        return Some(RefusalNumber::FormulaDiffers);
    }
    None
}

/// Whether the line is of this statement and has these four formulas.
fn is_line_of(line: &DerivationLine, number: u64, spec: &Spec) -> bool
    ensures { IsTrue result ↔ ((line.now.number ≡ number) × (specification line.now.spec ≡ specification spec.now)) }
{
    line.number == number && is_spec(&line.spec, &spec.pre, spec, &spec.post)
}

/// Whether some line is of this statement and has these four formulas.
fn is_derived(lines: &[DerivationLine], number: u64, spec: &Spec) -> bool
    ensures { IsTrue result ↔ IsDerived (map line_tree lines.now) number (specification spec.now) }
{
    for line in lines {
        if is_line_of(line, number, spec) {
            return true;
        }
    }
    false
}

/// Whether each part has a line of its whole body with its four formulas.
pub(crate) fn are_parts_derived(lines: &[DerivationLine], parts: &[Part]) -> bool
    requires most { length (statements_of_parts (map part parts.now)) ≤ MOST_STATEMENTS }
    ensures { IsTrue result ↔ PartsDerived (map line_tree lines.now) 1 (map part parts.now) }
{
    let mut number = 1;
    for part in parts {
        if !is_derived(lines, number, &part.spec) {
            return false;
        }
        number += size(&part.body);
    }
    true
}

/// The first line that doesn't meet its demands, as a refusal.
pub(crate) fn first_bad_line(
    list: &[&Stmt],
    sizes: &[u64],
    lines: &[DerivationLine],
) -> Option<Refusal>
    requires most { length list.now ≤ MOST_STATEMENTS }
    requires within { (n : ℕ) (s : Statement) → nth (map referred list.now) n ≡ Some s → length (statements s) ≤ MOST_STATEMENTS }
    requires sizes { (n : ℕ) (s : Statement) → nth (map referred list.now) n ≡ Some s → IsSizedInside sizes.now n s }
    ensures some { IfSome result (IsFirstBadLine (map referred list.now) (map line_tree lines.now)) }
    ensures none { IsNone result → AreFaultlessBefore (map referred list.now) (map line_tree lines.now) (suc (length lines.now)) }
{
    for (i, line) in lines.iter().enumerate() {
        if let Some(number) = line_fault(list, sizes, lines, (i + 1) as u64, line) {
            let place = Place::Line(u64::from(line.source_line));
            return Some(Refusal::at(number, SourceFile::Derivation, place));
        }
    }
    None
}
