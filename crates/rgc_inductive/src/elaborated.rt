//! The formulas that are tried, as the text of each part has them.

use crate::conditions::Base;
use rg_complete::{Atom, Atoms, Bits, Moment, Scope, atoms_of, holds, trial_of, words_of};
use rg_outline_reports::{Before, Leading, Member, ReadOutline, leading_assertions};
use rg_outline_syntax::{Span, Texts};
use rg_parse::formula;
use rg_tree::tree::Formula;
use rg_words::{Layout, RefusalNumber};
use std::alloc::{AllocError, Global};

/// The most formulas that can't be read before the others are given up.
const MOST_FAULTS: usize = 120;

/// The most premises.
const MOST_PREMISES: usize = 80;

/// The formulas of a scope in a part of the text; of a `for`, in one of its rounds.
#[derive(Drop)]
pub struct Instance {
    pub scope: usize,
    /// The part of the text, and the words that it owns, as bits.
    pub part: usize,
    pub owned: u64,
    /// Each formula as the text has it; empty where it is out.
    pub texts: Texts,
    pub formulas: Vec<Option<Formula>>,
}

/// The formulas of a scope.
#[derive(Drop)]
pub struct FamilyAtoms {
    pub atoms: Atoms,
    pub premises: Vec<usize>,
    /// Those that speak of words of the part's own alone.
    pub firm: Bits,
    /// What each costs.
    pub costs: Vec<usize>,
}

/// All formulas that are tried.
#[derive(Drop)]
pub struct Tried {
    pub families: Vec<FamilyAtoms>,
    pub instances: Vec<Instance>,
}

impl Instance {
    /// Which formulas are true in a state.
    pub fn truth(&self, alloc: Global, state: &[u64]) -> Result<Bits, AllocError> {
        let mut bits = Bits::new(alloc, self.formulas.len(), false)?;
        for (place, formula) in self.formulas.iter().enumerate() {
            if let Some(formula) = formula
                && holds(formula, Moment::at(state))
            {
                bits.put(place, true);
            }
        }
        Ok(bits)
    }
}

impl Tried {
    /// The formulas of the scope of an instance.
    pub fn family_of(&self, instance: usize) -> Option<&FamilyAtoms> {
        let instance = self.instances.get(instance)?;
        self.families.get(instance.scope)
    }

    /// The premises of the scope of an instance.
    pub fn premises_of(&self, instance: usize) -> &[usize] {
        match self.family_of(instance) {
            Some(family) => family.premises.as_slice(),
            None => &[],
        }
    }

    /// Which formulas of an instance are true in a state.
    pub fn truth(&self, alloc: Global, instance: usize, state: &[u64]) -> Result<Bits, AllocError> {
        match self.instances.get(instance) {
            Some(instance) => instance.truth(alloc, state),
            None => Bits::new(alloc, 0, false),
        }
    }
}

/// Takes out the formula at a place of a trial; whether there was one.
fn take_out(all: &mut [Atoms], spans: &[Vec<Span>], fault: Span) -> bool {
    let mut has_found = false;
    for (atoms, spans) in all.iter_mut().zip(spans) {
        for (atom, span) in atoms.atoms.iter_mut().zip(spans) {
            if !atom.is_out && span.start <= fault.start && fault.start < span.end {
                atom.is_out = true;
                has_found = true;
            }
        }
    }
    has_found
}

/// What the formulas say in each part of the text, before which byte, and before which byte those of each scope stand.
#[derive(Drop)]
struct Said {
    parts: Vec<Vec<Before>>,
    nears: Vec<usize>,
}

/// What the formulas say in each part of the text; those that can't be read are taken out.
fn read_all(
    alloc: Global,
    source: &[u8],
    read: &ReadOutline,
    scopes: &[Scope],
    all: &mut [Atoms],
) -> Result<Said, AllocError> {
    for _ in 0..MOST_FAULTS {
        let trial = trial_of(alloc, source, &read.tokens, &read.written, scopes, all)?;
        match leading_assertions(alloc, &trial.source)? {
            Leading::Parts(parts) => {
                let nears = trial.nears;
                return Ok(Said { parts, nears });
            }
            Leading::Fault(fault) => {
                if !take_out(all, &trial.spans, fault) {
                    break;
                }
            }
        }
    }
    Ok(Said {
        parts: Vec::new(alloc),
        nears: Vec::new(alloc),
    })
}

/// The texts of all formulas of a part, from those of the formulas that are not out.
fn spread(alloc: Global, atoms: &Atoms, said: &Texts) -> Result<Texts, AllocError> {
    let mut texts = Texts::new(alloc);
    let mut place = 0usize;
    for atom in &atoms.atoms {
        if atom.is_out {
            texts.push(&[])?;
        } else {
            texts.push(said.at(place))?;
            place = place.saturating_add(1);
        }
    }
    Ok(texts)
}

/// Whether two formulas of a scope say the same in all parts and rounds.
fn are_same(instances: &[Instance], scope: usize, first: usize, second: usize) -> bool {
    instances
        .iter()
        .filter(|instance| instance.scope == scope)
        .all(|instance| instance.texts.at(first) == instance.texts.at(second))
}

/// Whether a formula of a scope says nothing in some part or round.
fn is_void(instances: &[Instance], scope: usize, place: usize) -> bool {
    instances
        .iter()
        .filter(|instance| instance.scope == scope)
        .any(|instance| {
            let text = instance.texts.at(place);
            text.is_empty() || matches!(text, b"true" | b"false")
        })
}

/// Takes out what says nothing, and what another says in fewer bytes.
fn take_out_same(instances: &[Instance], scope: usize, atoms: &mut Atoms) {
    let count = atoms.atoms.len();
    for place in 0..count {
        let mut is_out = is_void(instances, scope, place);
        for other in 0..count {
            let is_shorter = (atoms.texts.at(other).len(), other)
                < (atoms.texts.at(place).len(), place);
            let is_in = atoms.atoms.get(other).is_some_and(|atom| !atom.is_out);
            if !is_out && is_shorter && is_in {
                is_out = are_same(instances, scope, place, other);
            }
        }
        if let Some(atom) = atoms.atoms.get_mut(place) {
            atom.is_out |= is_out;
        }
    }
}

/// The formula of a text; nothing where it can't be read.
fn formula_of(alloc: Global, layout: &Layout, text: &[u8]) -> Result<Option<Formula>, AllocError> {
    match formula(alloc, layout, text) {
        Ok(formula) => Ok(Some(formula)),
        Err(refusal) if refusal.number == RefusalNumber::Memory => Err(AllocError),
        Err(_) => Ok(None),
    }
}

/// Reads the formulas of an instance.
fn read_formulas(
    alloc: Global,
    layout: &Layout,
    atoms: &Atoms,
    instance: &mut Instance,
) -> Result<(), AllocError> {
    for (place, atom) in atoms.atoms.iter().enumerate() {
        let mut made = None;
        if !atom.is_out {
            made = formula_of(alloc, layout, instance.texts.at(place))?;
        }
        instance.formulas.push(made)?;
    }
    Ok(())
}

/// What a member of a family costs that is named by its number.
const COST_OF_NUMBER: usize = 15;

/// What a formula costs: its bytes, and more where the part has an index and a word is named by a number.
fn cost_of(text: &[u8], has_index: bool) -> usize {
    let mut cost = text.len();
    let mut is_number = false;
    for byte in text {
        match *byte {
            b'[' => is_number = has_index,
            b'0'..=b'9' => {}
            b']' if is_number => cost = cost.saturating_add(COST_OF_NUMBER),
            _ => is_number = false,
        }
    }
    cost
}

/// The words that no step changes, as bits.
pub fn fixed_words(layout: &Layout) -> u64 {
    let mut bits = 0u64;
    for word in 0..layout.len() {
        if layout.is_fixed(word) {
            bits |= 1u64 << ((word as u64).min(63) as u32);
        }
    }
    bits
}

/// What is known of the formulas of a scope.
fn family_of(
    alloc: Global,
    layout: &Layout,
    instances: &[Instance],
    scope: usize,
    atoms: Atoms,
    has_index: bool,
) -> Result<FamilyAtoms, AllocError> {
    let mut costs = Vec::new(alloc);
    let mut premises = Vec::new(alloc);
    let mut firm = Bits::new(alloc, atoms.atoms.len(), false)?;
    let first = instances.iter().find(|instance| instance.scope == scope);
    for (place, atom) in atoms.atoms.iter().enumerate() {
        costs.push(cost_of(atoms.texts.at(place), has_index))?;
        if atom.is_premise && !atom.is_out && premises.len() < MOST_PREMISES {
            premises.push(place)?;
        }
        if let Some(instance) = first
            && let Some(Some(formula)) = instance.formulas.get(place)
        {
            let kept = instance.owned | fixed_words(layout);
            firm.put(place, words_of(formula) & !kept == 0);
        }
    }
    Ok(FamilyAtoms {
        atoms,
        premises,
        firm,
        costs,
    })
}

/// The formulas of each scope in each part of the text and each round, as texts.
fn instances_of(
    alloc: Global,
    said: &Said,
    members: &[Member],
    all: &[Atoms],
) -> Result<Vec<Instance>, AllocError> {
    let mut instances = Vec::new(alloc);
    for (part, (member, groups)) in members.iter().zip(&said.parts).enumerate() {
        for group in groups {
            let scope = said.nears.iter().position(|near| *near == group.near);
            if let Some(scope) = scope
                && let Some(atoms) = all.get(scope)
            {
                instances.push(Instance {
                    scope,
                    part,
                    owned: member.owned,
                    texts: spread(alloc, atoms, &group.texts)?,
                    formulas: Vec::new(alloc),
                })?;
            }
        }
    }
    Ok(instances)
}

/// Adds equations to the formulas of a scope.
fn add_equations(atoms: &mut Atoms, equations: &Texts) -> Result<(), AllocError> {
    for place in 0..equations.len() {
        if atoms.texts.find(equations.at(place)).is_none() {
            atoms.texts.push(equations.at(place))?;
            atoms.atoms.push(Atom {
                is_loose: false,
                is_premise: false,
                is_out: false,
            })?;
        }
    }
    Ok(())
}

/// The formulas that are tried in an outline whose scopes and parts are these: with equations that hold in all states that were met.
pub(crate) fn tried_of(
    alloc: Global,
    source: &[u8],
    read: &ReadOutline,
    base: &Base,
    equations: &Texts,
) -> Result<Tried, AllocError> {
    let scopes = &base.scopes;
    let mut all = Vec::new(alloc);
    for scope in scopes {
        let mut atoms = atoms_of(alloc, source, &read.tokens, &read.written, scopes, *scope)?;
        add_equations(&mut atoms, equations)?;
        all.push(atoms)?;
    }
    let said = read_all(alloc, source, read, scopes, &mut all)?;
    let mut instances = instances_of(alloc, &said, &base.members, &all)?;
    for (scope, atoms) in all.iter_mut().enumerate() {
        take_out_same(&instances, scope, atoms);
    }
    let Some(first) = base.conditions.first() else {
        return Ok(Tried {
            families: Vec::new(alloc),
            instances,
        });
    };
    let layout = &first.layout;
    for instance in instances.iter_mut() {
        if let Some(atoms) = all.get(instance.scope) {
            read_formulas(alloc, layout, atoms, instance)?;
        }
    }
    let mut families = Vec::new(alloc);
    for (scope, atoms) in all.into_iter().enumerate() {
        let part = scopes
            .get(scope)
            .and_then(|scope| read.written.parts.get(scope.part));
        let has_index = part.is_some_and(|part| part.index.is_some());
        families.push(family_of(alloc, layout, &instances, scope, atoms, has_index)?)?;
    }
    Ok(Tried {
        families,
        instances,
    })
}
