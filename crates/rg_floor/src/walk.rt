//! A walk along a history: whether the moves that were handed in stand in it.

ghost use Rattle.std.specs.Prelude.{◌≡◌, ◌+◌, ◌<◌, ◌≤◌, ℕ, List, [], ◌∷◌, IsTrue, IfOk, map, length, drop};
ghost use Rattle.rg_words.specs.Layout.{widths_of};
ghost use Rattle.rg_words.specs.States.{IsPair};
ghost use Rattle.rg_tree.specs.View.{formula};
ghost use Rattle.rg_tree.specs.Inside.{IsInside};
ghost use Rattle.rg_tree.specs.Moves.{move as move_tree, MoveTree, AreMoves, IsChange, given};
ghost use Rattle.rg_tree.specs.ProgramTrees.{program as program_tree};
ghost use Rattle.rg_code.specs.CodeTrees.{code_blocks};
ghost use Rattle.rg_floor.specs.Moves.{first_place, NoneCanStep, IsDue, IsRefusedAs, IsRefusedAt, MovesStand};
ghost use Rattle.rg_floor.specs.Inner.Walking.{place_of, GoesPast, GoesPastOne};

use crate::closed::Passed;
use rg_code::code::Code;
use rg_machine::config::{Config, Stepped};
use rg_machine::replace::agree_on_fixed;
use rg_monitor::record::Record;
use rg_tree::meaning::inside;
use rg_tree::moves::{Move, give};
use rg_tree::program::Program;
use rg_tree::typing::typed_trees_fit;
use rg_words::{RefusalNumber, State};
use std::alloc::{AllocError, Global};

/// A place in a history: the configuration there, how many records stand before it and how many of them are by parts, and how many
/// moves and how many entries of refused moves were met.
#[derive(Drop)]
struct Walk<'e> {
    config: Config<'e>,
    records: u64,
    own: u64,
    moves: usize,
    passed: usize,
}

/// A walk before the first record.
fn begun(config: Config<'_>) -> Walk<'_>
    ensures { result ≡ record { config = config.entry; records = 0; own = 0; moves = 0; passed = 0 } }
{
    Walk {
        config,
        records: 0,
        own: 0,
        moves: 0,
        passed: 0,
    }
}

/// Whether no part can step. The configuration stays as it is.
fn none_can_step(config: &mut Config<'_>) -> bool
    ensures reported { IsTrue result → NoneCanStep config.old }
    ensures same { config.new ≡ config.old }
{
    for i in 0..config.parts() {
        if config.can_step(i + 1) {
            return false;
        }
    }
    true
}

/// Whether a move that asks for so many records before it may be made or refused here. The walk stays where it is.
fn is_due(walk: &mut Walk<'_>, limit: u64, at: u64) -> bool
    ensures reported { IsTrue result → IsDue limit (place_of walk.old) at }
    ensures same { walk.new ≡ walk.old }
{
    if at <= walk.records {
        return true;
    }
    if walk.own == limit {
        return true;
    }
    none_can_step(&mut walk.config)
}

/// The state that a move leads to.
fn led_to(config: &Config<'_>, each: &Move) -> Result<State, AllocError>
    requires { IsChange config.now.words each.now.values.items }
    ensures values { IfOk result (λ s. s.values ≡ given each.now.values.items config.now.state) }
    ensures widths { IfOk result (λ s. s.widths ≡ widths_of config.now.words) }
{
    let mut wanted = config.words().copy()?;
    give(&each.values, &mut wanted);
    Ok(wanted)
}

/// Whether a step isn't inside the program's rely.
fn is_outside(program: &Program, before: &State, after: &State) -> bool
    requires before { before.now.widths ≡ widths_of program.now.layout }
    requires after { after.now.widths ≡ widths_of program.now.layout }
    ensures { IsTrue result → IsInside (formula program.now.spec.rely) before.now.values after.now.values → ⊥ }
{
    typed_trees_fit();
    program.layout.facts();
    !inside(&program.spec.rely, before, after)
}

/// Whether a move from a state to another is refused for this reason.
fn is_refused_as(program: &Program, before: &State, wanted: &State, number: RefusalNumber) -> bool
    requires before { before.now.widths ≡ widths_of program.now.layout }
    requires after { wanted.now.widths ≡ widths_of program.now.layout }
    ensures { IsTrue result → IsRefusedAs number (formula program.now.spec.rely) program.now.layout before.now.values wanted.now.values }
{
    let agree = agree_on_fixed(&program.layout, before, wanted);
    match number {
        RefusalNumber::FixedMoved => !agree,
        RefusalNumber::OutsideRely => agree && is_outside(program, before, wanted),
        _ => false,
    }
}

/// Whether this entry is right, and says that the next move was refused here.
fn is_passed(
    program: &Program,
    walk: &mut Walk<'_>,
    limit: u64,
    each: &Move,
    entry: Passed,
) -> Result<bool, AllocError>
    requires words { walk.old.config.words ≡ program.now.layout }
    requires moves { IsChange program.now.layout each.now.values.items }
    ensures reported { IfOk result (λ b. IsTrue b →
        IsRefusedAt (formula program.now.spec.rely) limit (place_of walk.old) (walk.old.moves + 1)
        (move_tree each.now) entry) }
    ensures same { walk.new ≡ walk.old }
{
    if entry.number == 0 || entry.number - 1 != walk.moves as u64 || entry.records != walk.records {
        return Ok(false);
    }
    if !is_due(walk, limit, each.at) {
        return Ok(false);
    }
    let wanted = led_to(&walk.config, each)?;
    let before = walk.config.words();
    Ok(is_refused_as(program, before, &wanted, entry.refusal))
}

/// Goes past the moves that were refused here.
fn take_passed(
    program: &Program,
    walk: &mut Walk<'_>,
    limit: u64,
    moves: &[Move],
    passed: &[Passed],
) -> Result<bool, AllocError>
    requires words { walk.old.config.words ≡ program.now.layout }
    requires moves { AreMoves program.now.layout (map move_tree moves.now) }
    ensures goes { IfOk result (λ b. IsTrue b → GoesPast (formula program.now.spec.rely) limit (map move_tree moves.now) passed.now walk.old walk.new []) }
    ensures stays { walk.new.config ≡ walk.old.config }
{
    while walk.passed < passed.len() && walk.moves < moves.len() {
        let entry = passed[walk.passed];
        if entry.records != walk.records {
            break;
        }
        if !is_passed(program, walk, limit, &moves[walk.moves], entry)? {
            return Ok(false);
        }
        walk.moves += 1;
        walk.passed += 1;
    }
    Ok(true)
}

/// Goes past a record of the environment, which is that of the next move.
fn take_move(
    walk: &mut Walk<'_>,
    limit: u64,
    moves: &[Move],
    step: &Record,
) -> Result<bool, AllocError>
    requires by { step.now.who ≡ 0 }
    requires moves { AreMoves walk.old.config.words (map move_tree moves.now) }
    ensures goes { IfOk result (λ b. IsTrue b → GoesPastOne limit (map move_tree moves.now) walk.old walk.new step.now) }
    ensures words { walk.new.config.words ≡ walk.old.config.words }
{
    if walk.moves >= moves.len() || walk.records == u64::MAX {
        return Ok(false);
    }
    let each = &moves[walk.moves];
    if !is_due(walk, limit, each.at) {
        return Ok(false);
    }
    let wanted = led_to(&walk.config, each)?;
    if !step.after().same(&wanted) || !walk.config.change(&wanted) {
        return Ok(false);
    }
    walk.records += 1;
    walk.moves += 1;
    Ok(true)
}

/// Goes past a record of a part, whose step leads to its words.
fn take_step(walk: &mut Walk<'_>, step: &Record) -> bool
    requires { 0 < step.now.who }
    ensures goes { IsTrue result → (limit : ℕ) (moves : List MoveTree) → GoesPastOne limit moves walk.old walk.new step.now }
    ensures words { walk.new.config.words ≡ walk.old.config.words }
{
    let who = step.who();
    if who > walk.config.parts() || walk.records == u64::MAX || walk.own == u64::MAX {
        return false;
    }
    match walk.config.step(who) {
        Stepped::Did => {}
        Stepped::Blocked | Stepped::Ended => return false,
    }
    if !step.after().same(walk.config.words()) {
        return false;
    }
    walk.records += 1;
    walk.own += 1;
    true
}

/// Goes past the next record.
fn take_record(
    walk: &mut Walk<'_>,
    limit: u64,
    moves: &[Move],
    step: &Record,
) -> Result<bool, AllocError>
    requires { AreMoves walk.old.config.words (map move_tree moves.now) }
    ensures goes { IfOk result (λ b. IsTrue b → GoesPastOne limit (map move_tree moves.now) walk.old walk.new step.now) }
    ensures words { walk.new.config.words ≡ walk.old.config.words }
{
    if step.who() == 0 {
        take_move(walk, limit, moves, step)
    } else {
        Ok(take_step(walk, step))
    }
}

/// What a run began from: its program, the program's code, the state at the start, and how many steps parts may make.
#[derive(Clone, Copy)]
pub struct Origin<'a> {
    pub program: &'a Program,
    pub code: &'a Code,
    pub start: &'a State,
    pub limit: u64,
}

/// Whether the moves stand in a history, each made or refused, in order and where it was due. It takes memory for some states.
pub fn moves_stand(
    alloc: Global,
    origin: &Origin<'_>,
    steps: &[Record],
    moves: &[Move],
    passed: &[Passed],
) -> Result<bool, AllocError>
    requires start { origin.now.start.now.widths ≡ widths_of (program_tree origin.now.program.now).words }
    requires moves { AreMoves (program_tree origin.now.program.now).words (map move_tree moves.now) }
    ensures { IfOk result (λ b. IsTrue b →
        MovesStand (program_tree origin.now.program.now).spec.rely origin.now.limit
        (first_place (program_tree origin.now.program.now).words (code_blocks origin.now.code.now) origin.now.start.now.values)
        1 (map move_tree moves.now) passed.now steps.now) }
{
    if !origin.code.layout.same(&origin.program.layout) {
        return Ok(false);
    }
    let start = origin.start.copy()?;
    let mut walk = begun(Config::new(alloc, origin.code, start)?);
    for step in steps {
        if !take_passed(origin.program, &mut walk, origin.limit, moves, passed)? {
            return Ok(false);
        }
        if !take_record(&mut walk, origin.limit, moves, step)? {
            return Ok(false);
        }
    }
    if !take_passed(origin.program, &mut walk, origin.limit, moves, passed)? {
        return Ok(false);
    }
    if walk.moves != moves.len() {
        return Ok(false);
    }
    Ok(walk.passed == passed.len())
}
