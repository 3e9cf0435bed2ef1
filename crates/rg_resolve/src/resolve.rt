//! The pass of meaning: from a text whose shape is known to typed trees, or the first fault of its leaves.

ghost use Rattle.std.specs.Prelude.{◌≡◌, ℕ, ◌≤◌, false, List, [], length, map, All, IsTrue, IfOk, IfErr, ◌⊎◌};
ghost use Rattle.rg_words.specs.Names.{IsName};
ghost use Rattle.rg_words.specs.Layout.{IsLayout, widths_of};
ghost use Rattle.rg_words.specs.Refusals.{no_memory};
ghost use Rattle.rg_text.specs.Text.{text_of};
ghost use Rattle.rg_tree.specs.Trees.{Proposition};
ghost use Rattle.rg_tree.specs.View.{formula as view};
ghost use Rattle.rg_tree.specs.Typing.{IsTyped};
ghost use Rattle.rg_tree.specs.Fits.{FormulaFits};
ghost use Rattle.rg_tree.specs.Primes.{speaks_of_two};
ghost use Rattle.rg_tree.specs.Moves.{MoveTree, move, AreMoves};
ghost use Rattle.rg_tree.specs.Statements.{ProgramTree};
ghost use Rattle.rg_tree.specs.ProgramTrees.{program};
ghost use Rattle.rg_syntax.specs.Written.{claim, declared_word, setting, move_text, program_text, line_text};
ghost use Rattle.rg_tree.specs.Lines.{LineTree, line_tree, AreTypedLines};
ghost use Rattle.rg_resolve.specs.Derivations.{derivation_faults, DerivationStandsFor, OneListOfLines, FaultlessDerivation};
ghost use Rattle.rg_syntax.specs.ProgramLimits.{IsWithinLimits};
ghost use Rattle.rg_resolve.specs.Programs.{program_faults};
ghost use Rattle.rg_resolve.specs.ProgramTyping.{ProgramStandsFor, OneProgramTree};
ghost use Rattle.rg_resolve.specs.Faultless.{FaultlessWords, FaultlessShown, FaultlessProgram};
ghost use Rattle.rg_resolve.specs.Faults.{claim_faults, IsRefusal};
ghost use Rattle.rg_resolve.specs.Typing.{ClaimStandsFor, OneTree, FaultlessStand};
ghost use Rattle.rg_resolve.specs.Settings.{settings_faults, moves_faults, StartStandsFor, MovesStandFor, OneStateOfSettings, OneListOfMoves, FaultlessStart, FaultlessMoves};
ghost use Rattle.rg_resolve.specs.Words.{words_of, shown_faults};

mod assigned;
mod block;
mod formula;
mod line;
mod part;
mod setting;

use crate::declare::declare;
use formula::formula_tree;
use line::lines_of;
use part::{parts_of, spec_of};
use rg_leaves::scope::Scope;
use rg_syntax::written::{Declaration, FormulaText, LineText, MoveText, ProgramText, Setting};
use rg_tree::line::DerivationLine;
use rg_tree::moves::{Move, give};
use rg_tree::program::Program;
use rg_tree::tree::Formula;
use rg_tree::typing::typed_trees_fit;
use rg_words::limits::MOST_WORDS;
use rg_words::{Layout, Refusal, SourceFile, State};
use setting::{moves_of, word_values};
use std::alloc::Global;

/// The typed tree of a formula over the declared words, whose tokens are of the source.
///
/// Refused at the least leaf that is at fault, by its least number, at the line of its token: 3 a word that isn't
/// declared, 6 a number too large for its group or a shift count above 63, 7 a word of another width than its group's,
/// 8 the first number of a group without a word, 9 a primed word where `one_state`. 99 where memory was refused.
pub fn resolve_formula(
    alloc: Global,
    layout: &Layout,
    file: SourceFile,
    source: &[u8],
    one_state: bool,
    written: &FormulaText,
) -> Result<Formula, Refusal>
    // Ok with the tree that the formula stands for, exactly where there is one and memory was enough.
    ensures stands { IfOk result (λ f. ClaimStandsFor layout.now one_state (claim source.now written.now) (view f)) }
    ensures refused { IfErr result (λ refusal. (refusal ≡ no_memory)
        ⊎ ((p : Proposition) → ClaimStandsFor layout.now one_state (claim source.now written.now) p → ⊥)) }
    // The first fault in the order of the text.
    ensures faultless { IfOk result (λ _. claim_faults layout.now one_state (claim source.now written.now) ≡ []) }
    ensures fault { IfErr result (λ refusal. IsRefusal file (claim_faults layout.now one_state (claim source.now written.now)) refusal) }
    ensures typed { IfOk result (λ f. IsTyped (widths_of layout.now) (view f)) }
    ensures fits { IfOk result (λ f. FormulaFits (view f) (length layout.now)) }
    ensures primes { IsTrue one_state → IfOk result (λ f. speaks_of_two (view f) ≡ false) }
{
    let scope = Scope {
        alloc,
        layout,
        file,
        source,
        one_state,
    };
    let tree = formula_tree(&scope, written)?;
    // Typed trees over the words of a layout fit them.
    layout.facts();
    typed_trees_fit();
    Ok(tree)
}

/// The declared words and the typed tree of a formula over them that may speak of two states.
///
/// Refused at the least token that is at fault: those of the declarations, as `declare` refuses them, come before the
/// leaves of the formula, as `resolve_formula` refuses them. 99 where memory was refused.
#[tactic(auto, using(rg_leaves::proofs::Refusals::refusals))]
pub fn resolve_shown(
    alloc: Global,
    file: SourceFile,
    source: &[u8],
    declarations: &[Declaration],
    written: &FormulaText,
) -> Result<(Layout, Formula), Refusal>
    requires names { All (λ d. IsName (text_of source.now d.name)) declarations.now }
    requires count { length declarations.now ≤ MOST_WORDS }
    ensures words { IfOk result (λ r. r.0 ≡ words_of (map (declared_word source.now) declarations.now)) }
    ensures stands { IfOk result (λ r. ClaimStandsFor r.0 false (claim source.now written.now) (view r.1)) }
    ensures refused { IfErr result (λ refusal. (refusal ≡ no_memory)
        ⊎ (IsLayout (words_of (map (declared_word source.now) declarations.now))
        → (p : Proposition)
        → ClaimStandsFor (words_of (map (declared_word source.now) declarations.now)) false (claim source.now written.now) p
        → ⊥)) }
    ensures faultless { IfOk result (λ _. shown_faults (map (declared_word source.now) declarations.now) (claim source.now written.now) ≡ []) }
    ensures fault { IfErr result (λ refusal.
        IsRefusal file (shown_faults (map (declared_word source.now) declarations.now) (claim source.now written.now))
        refusal) }
    ensures typed { IfOk result (λ r. IsTyped (widths_of r.0) (view r.1)) }
    ensures fits { IfOk result (λ r. FormulaFits (view r.1) (length r.0)) }
{
    let layout = declare(alloc, file, source, declarations)?;
    let tree = resolve_formula(alloc, &layout, file, source, false, written)?;
    Ok((layout, tree))
}

/// A formula stands for one typed tree at most, and for one exactly where none of its leaves is at fault.
#[tactic(auto, using(crate::proofs::Stands::one_tree, crate::proofs::Stands::faultless_stand))]
pub fn formulas_stand_for_one_tree()
    ensures one_tree { OneTree }
    ensures faultless { FaultlessStand }
{}

/// Declared words are those of a layout exactly where none of their tokens is at fault, and a text to show stands for a formula over
/// the words of a layout exactly where none of its tokens is; the formula is one by `formulas_stand_for_one_tree`.
#[tactic(auto, using(crate::proofs::Faultless::faultless_words, crate::proofs::Faultless::faultless_shown))]
pub fn shown_texts_stand()
    ensures words { FaultlessWords }
    ensures faultless { FaultlessShown }
{}

/// The state that a start's settings stand for: each named word has its value, and every other word is 0.
///
/// Refused at the least token that is at fault, by its least number, at its line: 3 a word that isn't declared, 4 a word
/// that is named twice, 6 a number that isn't below 2 to the power of its word's width. 99 where memory was refused.
pub fn resolve_start(
    alloc: Global,
    layout: &Layout,
    file: SourceFile,
    source: &[u8],
    written: &[Setting],
) -> Result<State, Refusal>
    // Ok with the state that they stand for, exactly where there is one and memory was enough.
    ensures stands { IfOk result (λ s. StartStandsFor layout.now (map (setting source.now) written.now) s.values) }
    ensures refused { IfErr result (λ refusal. (refusal ≡ no_memory)
        ⊎ ((s : List ℕ) → StartStandsFor layout.now (map (setting source.now) written.now) s → ⊥)) }
    ensures widths { IfOk result (λ s. s.widths ≡ widths_of layout.now) }
    // The first fault in the order of the text.
    ensures faultless { IfOk result (λ _. settings_faults layout.now (map (setting source.now) written.now) ≡ []) }
    ensures fault { IfErr result (λ refusal. IsRefusal file (settings_faults layout.now (map (setting source.now) written.now)) refusal) }
{
    let scope = Scope {
        alloc,
        layout,
        file,
        source,
        one_state: true,
    };
    let values = word_values(&scope, written)?;
    let mut state = State::zero(alloc, layout)?;
    give(&values, &mut state);
    Ok(state)
}

/// The moves that are written, in order.
///
/// Refused at the least token that is at fault: 6 a move's number above 4,294,967,295, and its settings as
/// `resolve_start` refuses them; a word may be named again in another move. 99 where memory was refused.
pub fn resolve_moves(
    alloc: Global,
    layout: &Layout,
    file: SourceFile,
    source: &[u8],
    written: &[MoveText],
) -> Result<Vec<Move>, Refusal>
    // Ok with the moves that they stand for, exactly where there are some and memory was enough.
    ensures stand { IfOk result (λ ms. MovesStandFor layout.now (map (move_text source.now) written.now) (map move ms.items)) }
    ensures refused { IfErr result (λ refusal. (refusal ≡ no_memory)
        ⊎ ((ms : List MoveTree) → MovesStandFor layout.now (map (move_text source.now) written.now) ms → ⊥)) }
    // Each names words that are there, none twice, with values below 2 to the power of their widths.
    ensures changes { IfOk result (λ ms. AreMoves layout.now (map move ms.items)) }
    // The first fault in the order of the text.
    ensures faultless { IfOk result (λ _. moves_faults layout.now (map (move_text source.now) written.now) ≡ []) }
    ensures fault { IfErr result (λ refusal. IsRefusal file (moves_faults layout.now (map (move_text source.now) written.now)) refusal) }
{
    let scope = Scope {
        alloc,
        layout,
        file,
        source,
        one_state: true,
    };
    let moves = moves_of(&scope, written)?;
    Ok(moves)
}

/// Settings stand for one state at most, and for one exactly where none of their tokens is at fault; so do moves.
pub fn settings_stand_for_one_state()
    ensures one_start { OneStateOfSettings }
    ensures one_list { OneListOfMoves }
    ensures faultless_start { FaultlessStart }
    ensures faultless_moves { FaultlessMoves }
{}

/// The typed tree of a program whose tokens are of the source: its words, its specification and its parts.
///
/// Refused at the least token that is at fault: those of the declarations, as `declare` refuses them, come first, then
/// those of the specification, then of the parts. A part has 4 for a name that an earlier part has; a formula is refused
/// as by `resolve_formula`, where a pre, a post, a guard, a test and an assigned value speak of one state; the target of
/// an assignment has 3 where it isn't declared, 13 where it is fixed, and the group of its value has its width. 99 where
/// memory was refused.
pub fn resolve_program(
    alloc: Global,
    file: SourceFile,
    source: &[u8],
    written: &ProgramText,
) -> Result<Program, Refusal>
    requires names { All (λ d. IsName (text_of source.now d.name)) written.now.words.items }
    requires count { length written.now.words.items ≤ MOST_WORDS }
    requires part_names { All (λ p. IsName (text_of source.now p.name)) written.now.parts.items }
    requires limits { IsWithinLimits (program_text source.now written.now) }
    // Ok with the tree that the program stands for, exactly where there is one and memory was enough.
    ensures stands { IfOk result (λ p. ProgramStandsFor (program_text source.now written.now) (program p)) }
    ensures refused { IfErr result (λ refusal. (refusal ≡ no_memory)
        ⊎ ((t : ProgramTree) → ProgramStandsFor (program_text source.now written.now) t → ⊥)) }
    // The first fault in the order of the text.
    ensures faultless { IfOk result (λ _. program_faults (program_text source.now written.now) ≡ []) }
    ensures fault { IfErr result (λ refusal. IsRefusal file (program_faults (program_text source.now written.now)) refusal) }
{
    let layout = declare(alloc, file, source, &written.words)?;
    let scope = Scope {
        alloc,
        layout: &layout,
        file,
        source,
        one_state: true,
    };
    let spec = spec_of(&scope, &written.spec)?;
    let parts = parts_of(&scope, &written.parts)?;
    // The words are those of a layout.
    layout.facts();
    Ok(Program {
        layout,
        spec,
        parts,
    })
}

/// A program stands for one tree at most, and within the limits for one exactly where none of its tokens is at fault.
#[tactic(auto, using(crate::proofs::ResolvedStands::one_program_tree, crate::proofs::Faultless::faultless_program))]
pub fn programs_stand_for_one_tree()
    ensures one_tree { OneProgramTree }
    ensures faultless { FaultlessProgram }
{}

/// The lines of a derivation over declared words, in order.
///
/// Refused at the least token that is at fault: 6 a line's own number, its statement's number or a premise above
/// 4,294,967,295, and its four formulas as `resolve_formula` refuses them, where the pre and the post speak of one state.
/// Whether there are such statements and lines isn't asked here. 99 where memory was refused.
pub fn resolve_derivation(
    alloc: Global,
    layout: &Layout,
    file: SourceFile,
    source: &[u8],
    written: &[LineText],
) -> Result<Vec<DerivationLine>, Refusal>
    // Ok with the lines that they stand for, exactly where there are some and memory was enough.
    ensures stand { IfOk result (λ ls. DerivationStandsFor layout.now (map (line_text source.now) written.now) (map line_tree ls.items)) }
    ensures refused { IfErr result (λ refusal. (refusal ≡ no_memory)
        ⊎ ((ls : List LineTree) → DerivationStandsFor layout.now (map (line_text source.now) written.now) ls → ⊥)) }
    // The first fault in the order of the text.
    ensures faultless { IfOk result (λ _. derivation_faults layout.now (map (line_text source.now) written.now) ≡ []) }
    ensures fault { IfErr result (λ refusal. IsRefusal file (derivation_faults layout.now (map (line_text source.now) written.now)) refusal) }
    ensures typed { IfOk result (λ ls. AreTypedLines layout.now (map line_tree ls.items)) }
{
    let scope = Scope {
        alloc,
        layout,
        file,
        source,
        one_state: true,
    };
    let lines = lines_of(&scope, written)?;
    // The words are those of a layout.
    layout.facts();
    Ok(lines)
}

/// A derivation stands for one list of lines at most, and for one exactly where none of its tokens is at fault.
#[tactic(auto, using(crate::proofs::Lines::one_list_of_lines, crate::proofs::Lines::faultless_derivation))]
pub fn derivations_stand_for_one_list()
    ensures one_list { OneListOfLines }
    ensures faultless { FaultlessDerivation }
{}
