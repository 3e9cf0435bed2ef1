//! What is remembered from hint to hint, so that a long clause is not read for every hint that names it.

ghost use Rattle.std.specs.Prelude.{◌≡◌, [], All, IfOk, OnOk};
ghost use Rattle.rg_hint_lines.specs.Lines.{IsHintLiteral};
ghost use Rattle.rg_hints.specs.Inner.Memo.{HasSame, IsCopyOf, IsCopied, IsTaken};
ghost use Rattle.rg_hints.specs.Inner.Status.{IsStatus};

use crate::set::LiteralSet;
use crate::status::{Status, status_under};
use std::alloc::{AllocError, Global};
use std::collections::{BTreeMap, BTreeSet};

/// What is remembered along lines.
#[derive(Drop)]
pub struct Memo {
    alloc: Global,
    /// Hints of this line that would change nothing: the one literal of their clause that isn't false is in the set.
    pub idle: BTreeSet<u32>,
    /// Of clauses in which literals stand more than once, copies with each literal once, by their numbers.
    pub copies: BTreeMap<u32, Vec<i32>>,
}

/// The literals of a clause, each once.
fn each_once(alloc: Global, clause: &[i32]) -> Result<Vec<i32>, AllocError>
    ensures { IfOk result (λ copy. HasSame clause.now copy.items) }
{
    let mut copy = Vec::with_capacity(alloc, clause.len())?;
    copy.extend_from_slice(clause)?;
    copy.sort_unstable();
    copy.dedup();
    Ok(copy)
}

/// Takes the literal of a clause that isn't false into the set. Where it is there already, the hint is idle from then on.
pub fn take_unit<S: LiteralSet>(
    set: &mut S,
    idle: &mut BTreeSet<u32>,
    hint: u32,
    literal: i32,
) -> Result<(), AllocError>
    requires { IsHintLiteral literal }
    ensures { OnOk result (IsTaken (S.literals set.old) idle.old.keys hint literal (S.literals set.new) idle.new.keys) }
{
    if !set.is_false(-literal) {
        return set.insert(literal);
    }
    match idle.insert(hint) {
        Ok(_) => Ok(()),
        Err(_) => Err(AllocError),
    }
}

impl Memo {
    /// Nothing is remembered.
    pub fn new(alloc: Global) -> Self
        ensures idle { result.idle.keys ≡ [] }
        ensures copies { result.copies.entries ≡ [] }
    {
        Memo {
            alloc,
            idle: BTreeSet::new(alloc),
            copies: BTreeMap::new(alloc),
        }
    }

    /// Remembers a copy of the clause with this number, if there is none.
    fn copy(&mut self, id: u32, clause: &[i32]) -> Result<(), AllocError>
        requires same { IsCopyOf id clause.now self.old.copies }
        ensures copied { OnOk result (IsCopied id clause.now self.old.copies self.new.copies) }
        ensures idle { OnOk result (self.new.idle ≡ self.old.idle) }
    {
        if self.copies.contains_key(&id) {
            return Ok(());
        }
        let copy = each_once(self.alloc, clause)?;
        match self.copies.insert(id, copy) {
            Ok(_) => Ok(()),
            Err(_) => Err(AllocError),
        }
    }

    /// What the clause with this number is under the set. Where it has more literals than the set can make false and one
    /// more, it isn't unit, or it has literals that stand more than once: then its copy is read.
    pub fn status<S: LiteralSet>(
        &mut self,
        set: &S,
        id: u32,
        clause: &[i32],
    ) -> Result<Status, AllocError>
        requires literals { All IsHintLiteral clause.now }
        requires same { IsCopyOf id clause.now self.old.copies }
        ensures status { IfOk result (IsStatus (S.literals set.now) clause.now) }
        ensures copied { OnOk result (IsCopied id clause.now self.old.copies self.new.copies) }
        ensures idle { OnOk result (self.new.idle ≡ self.old.idle) }
    {
        if clause.len() <= set.len().saturating_add(1) {
            return Ok(status_under(set, clause));
        }
        self.copy(id, clause)?;
        match self.copies.get(&id) {
            Some(copy) => Ok(status_under(set, copy)),
            None => Ok(status_under(set, clause)),
        }
    }
}
