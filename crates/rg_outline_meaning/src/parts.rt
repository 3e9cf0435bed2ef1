//! The formulas at the head of an outline, and its parts.

ghost use Rattle.std.specs.Prelude.{◌≡◌, true, ◌∷◌, ◌++◌, [], map, take, string_bytes, IfOk, OnOk};
ghost use Rattle.std.specs.Option.{option_or};
ghost use Rattle.rg_words.specs.Layout.{fixed_of};
ghost use Rattle.rg_tree.specs.View.{formula as view};
ghost use Rattle.rg_tree.specs.ProgramView.{specification, part as part_tree, statement as statement_view};
ghost use Rattle.rg_tree.specs.ProgramTrees.{program as program_tree};
ghost use Rattle.rg_outline_meaning.specs.Meanings.{IsConjunction};
ghost use Rattle.rg_outline_meaning.specs.Names.{text_of, piece_of};
ghost use Rattle.rg_outline_meaning.specs.Members.{member_name};
ghost use Rattle.rg_outline_meaning.specs.Statements.{BlockStandsFor};
ghost use Rattle.rg_outline_meaning.specs.Programs.{of_outline, bare_claim, bare_statement, first_changing as first_changing_of, ClausesStandFor, IsRely, AreSpecified, PartKnows, PartsStandFor, OutlineStandsFor};
ghost use Rattle.rg_outline_meaning.specs.Reading.{ReadsSame, with_one, IsClauseOf, OwnsFirst, ArePartsOf, AreMembersOf, IsPartOf, PartKnown};
ghost use Rattle.rg_outline_meaning.specs.View.{outline, words, knowns, clauses as clauses_of};

use crate::expressions::DEEPEST;
use crate::folded::conjunction;
use crate::meaning::Unknown;
use crate::names::{Reader, Sense, Steps, piece};
use crate::same::{is_formula, is_statement};
use rg_outline_syntax::{Clause, HeadKind, List, PartWritten, Span, Written};
use rg_tree::part::{Part, Spec};
use rg_tree::program::Program;
use rg_tree::statement::Stmt;
use rg_tree::tree::Formula;
use std::alloc::{AllocError, Global};

/// The formulas of the clauses at the head of an outline.
#[derive(Drop)]
pub(crate) struct Clauses {
    pub(crate) pre: Vec<Formula>,
    pub(crate) rely: Vec<Formula>,
    pub(crate) guar: Vec<Formula>,
    pub(crate) post: Vec<Formula>,
}

impl Clauses {
    /// Puts a formula after the others of its clause.
    #[tactic(auto, using(crate::proofs::ProgramRules::rules))]
    fn take(&mut self, clause: Clause, formula: Formula) -> Result<(), Unknown>
        ensures { OnOk result (clauses_of self.new ≡ with_one clause (view formula) (clauses_of self.old)) }
    {
        match clause {
            Clause::Invariant => Ok(()),
            Clause::Pre => Ok(self.pre.push(formula)?),
            Clause::Rely => Ok(self.rely.push(formula)?),
            Clause::Guar => Ok(self.guar.push(formula)?),
            Clause::Post => Ok(self.post.push(formula)?),
        }
    }
}

/// Whether an outline stands for a program: for its words, the formulas at its head, and the names and bodies of its parts. An error comes only where
/// memory was refused. Where it is worked out to no end within the steps and the depth that the expansion has, it stands for none.
pub fn stands_for(
    alloc: Global,
    source: &[u8],
    written: &Written,
    program: &Program,
) -> Result<bool, AllocError>
    ensures stands { IfOk result (λ is. is ≡ true → OutlineStandsFor (record { source = source.now; written = written.now }) (program_tree program.now)) }
{
    let mut reader = Reader {
        alloc,
        source,
        written,
        layout: &program.layout,
        known: Vec::new(alloc),
    };
    match reader.want_program(program) {
        Ok(()) => Ok(true),
        Err(Unknown::NoRule) => Ok(false),
        Err(Unknown::Memory(refused)) => Err(refused),
    }
}

/// Wants that the conjunction of formulas is this one.
fn want_conjunction(alloc: Global, formulas: &[Formula], formula: &Formula) -> Result<(), Unknown>
    ensures { OnOk result (IsConjunction (map view formulas.now) (bare_claim (view formula.now))) }
{
    let made = conjunction(alloc, formulas)?;
    if is_formula(&made, formula) {
        return Ok(());
    }
    Err(Unknown::NoRule)
}

impl Reader<'_> {
    /// Wants that the outline stands for a program.
    #[tactic(auto, using(crate::proofs::ProgramRules::rules))]
    fn want_program(&mut self, program: &Program) -> Result<(), Unknown>
        requires words { words self.old ≡ program.now.layout }
        requires known { knowns self.old ≡ [] }
        ensures { OnOk result (OutlineStandsFor (outline self.old) (program_tree program.now)) }
    {
        self.know_heads(self.written.before_words)?;
        self.know_words()?;
        let clauses = self.clauses()?;
        self.want_specified(&clauses, &program.spec)?;
        self.want_parts(&program.parts)?;
        Ok(())
    }

    /// The formulas of the clauses at the head, each with the names before it.
    #[tactic(auto, using(crate::proofs::ProgramRules::rules))]
    fn clauses(&mut self) -> Result<Clauses, Unknown>
        ensures same { OnOk result (ReadsSame self.old self.new) }
        ensures clauses { IfOk result (λ c. ClausesStandFor (outline self.old) (words self.old) (knowns self.old) (piece_of (outline self.old).written.heads.items (outline self.old).written.following_words) (knowns self.new) (clauses_of c)) }
    {
        let mut clauses = Clauses {
            pre: Vec::new(self.alloc),
            rely: Vec::new(self.alloc),
            guar: Vec::new(self.alloc),
            post: Vec::new(self.alloc),
        };
        let mut steps = Steps::new();
        let heads = piece(self.written.heads.as_slice(), self.written.following_words);
        for head in heads {
            if self.know_head(head.kind)? {
                continue;
            }
            self.take_clause(head.kind, &mut clauses, &mut steps)?;
        }
        Ok(clauses)
    }

    /// Puts the formula of a head, which is a clause, after the others.
    #[tactic(auto, using(crate::proofs::ProgramRules::rules))]
    fn take_clause(
        &self,
        kind: HeadKind,
        clauses: &mut Clauses,
        steps: &mut Steps,
    ) -> Result<(), Unknown>
        ensures { OnOk result (IsClauseOf (outline self.now) (words self.now) (knowns self.now) kind (clauses_of clauses.old) (clauses_of clauses.new)) }
    {
        let HeadKind::Clause(clause, index) = kind else {
            return Err(Unknown::NoRule);
        };
        let formula = self.formula(&self.so_far(), index, DEEPEST, steps)?;
        clauses.take(clause, formula)?;
        Ok(())
    }

    /// Wants that the clauses give these formulas.
    #[tactic(auto, using(crate::proofs::ProgramRules::rules))]
    fn want_specified(&self, clauses: &Clauses, spec: &Spec) -> Result<(), Unknown>
        ensures { OnOk result (AreSpecified (words self.now) (clauses_of clauses.now) (specification spec.now)) }
    {
        if clauses.pre.len() > 1 || clauses.post.len() > 1 {
            return Err(Unknown::NoRule);
        }
        want_conjunction(self.alloc, &clauses.pre, &spec.pre)?;
        self.want_rely(&clauses.rely, &spec.rely)?;
        want_conjunction(self.alloc, &clauses.guar, &spec.guar)?;
        want_conjunction(self.alloc, &clauses.post, &spec.post)?;
        Ok(())
    }

    /// Wants that the rely is this one: without formulas it is that all words stay the same.
    #[tactic(auto, using(crate::proofs::ProgramRules::rules))]
    fn want_rely(&self, formulas: &[Formula], formula: &Formula) -> Result<(), Unknown>
        ensures { OnOk result (IsRely (words self.now) (map view formulas.now) (bare_claim (view formula.now))) }
    {
        if !formulas.is_empty() {
            return want_conjunction(self.alloc, formulas, formula);
        }
        let same = self.all_same_but(&[])?;
        if is_formula(&same, formula) {
            return Ok(());
        }
        Err(Unknown::NoRule)
    }

    /// Wants that the parts are these.
    #[tactic(auto, using(crate::proofs::ProgramRules::rules))]
    fn want_parts(&mut self, parts: &[Part]) -> Result<(), Unknown>
        ensures { OnOk result (PartsStandFor (outline self.old) (words self.old) (knowns self.old) (outline self.old).written.parts.items (map part_tree parts.now)) }
    {
        let mut place: usize = 0;
        for written in &self.written.parts {
            place = self.after_parts(written, parts, place)?;
        }
        if place != parts.len() {
            return Err(Unknown::NoRule);
        }
        Ok(())
    }

    /// The place after those that a part or a family of parts stands for, which have to be the parts of a program from a place on.
    #[tactic(auto, using(crate::proofs::ProgramRules::rules))]
    fn after_parts(
        &mut self,
        written: &PartWritten,
        parts: &[Part],
        first: usize,
    ) -> Result<usize, Unknown>
        ensures same { OnOk result (ReadsSame self.old self.new) }
        ensures known { OnOk result (knowns self.new ≡ knowns self.old) }
        ensures parts { IfOk result (λ next. ArePartsOf (outline self.old) (words self.old) (knowns self.old) written.now parts.now first next) }
    {
        match written.index {
            None => {
                let next = self.after_part(written, &[], parts, first)?;
                Ok(next)
            }
            Some((index, range)) => {
                let names = self.so_far();
                self.want_new(&names, index)?;
                let mut steps = Steps::new();
                let numbers = self.range(&names, range, DEEPEST, &mut steps)?;
                if numbers.is_empty() {
                    return Err(Unknown::NoRule);
                }
                let next = self.after_members(written, index, &numbers, parts, first)?;
                Ok(next)
            }
        }
    }

    /// The place after the members of a family of parts with these numbers, which have to be the parts of a program from a place on.
    #[tactic(auto, using(crate::proofs::ProgramRules::rules))]
    fn after_members(
        &mut self,
        written: &PartWritten,
        index: Span,
        numbers: &[i128],
        parts: &[Part],
        first: usize,
    ) -> Result<usize, Unknown>
        ensures same { OnOk result (ReadsSame self.old self.new) }
        ensures known { OnOk result (knowns self.new ≡ knowns self.old) }
        ensures parts { IfOk result (λ next. AreMembersOf (outline self.old) (words self.old) (knowns self.old) written.now index numbers.now parts.now first next) }
    {
        let count = self.known.len();
        let mut place = first;
        for number in numbers {
            self.know(index, index.end, Sense::Number(*number))?;
            place = self.after_part(written, &[*number], parts, place)?;
            self.known.truncate(count);
        }
        Ok(place)
    }

    /// The place after a part, which has to be the part of a program at a place. In a family it has an index.
    #[tactic(auto, using(crate::proofs::ProgramRules::rules))]
    fn after_part(
        &mut self,
        written: &PartWritten,
        indices: &[i128],
        parts: &[Part],
        place: usize,
    ) -> Result<usize, Unknown>
        ensures same { OnOk result (ReadsSame self.old self.new) }
        ensures known { OnOk result (knowns self.new ≡ knowns self.old) }
        ensures part { IfOk result (λ next. IsPartOf (outline self.old) (words self.old) (knowns self.old) written.now indices.now parts.now place next) }
    {
        let Some(part) = parts.get(place) else {
            return Err(Unknown::NoRule);
        };
        let count = self.known.len();
        self.want_part(written, indices, part)?;
        self.known.truncate(count);
        Ok(place + 1)
    }

    /// Wants that a part is this one of a program. Its names are known afterwards.
    #[tactic(auto, using(crate::proofs::ProgramRules::rules))]
    fn want_part(
        &mut self,
        written: &PartWritten,
        indices: &[i128],
        part: &Part,
    ) -> Result<(), Unknown>
        ensures same { OnOk result (ReadsSame self.old self.new) }
        ensures part { OnOk result (PartKnown (outline self.old) (words self.old) (knowns self.old) (knowns self.new) written.now (member_name (text_of (outline self.old) written.now.name) indices.now) (part_tree part.now)) }
    {
        self.want_name(written.name, indices, part)?;
        let owned = self.know_part(written.heads)?;
        let waiting_word = self.waiting_word(owned);
        self.want_body(written.body, waiting_word, &part.body)?;
        Ok(())
    }

    /// Wants that a part is named so; in a family it has an index.
    fn want_name(&self, name: Span, indices: &[i128], part: &Part) -> Result<(), Unknown>
        ensures { OnOk result (string_bytes part.now.name ≡ member_name (text_of (outline self.now) name) indices.now) }
    {
        let name = self.member_text(name, indices)?;
        if name.as_slice() == part.name.as_bytes() {
            return Ok(());
        }
        Err(Unknown::NoRule)
    }

    /// Wants that a block stands for this statement.
    fn want_body(
        &self,
        block: List,
        waiting_word: Option<usize>,
        body: &Stmt,
    ) -> Result<(), Unknown>
        ensures { OnOk result (BlockStandsFor (outline self.now) (words self.now) waiting_word (of_outline (knowns self.now)) block (bare_statement (statement_view body.now))) }
    {
        let mut steps = Steps::new();
        let read = self.block(&self.so_far(), block, waiting_word, DEEPEST, &mut steps)?;
        if is_statement(&read, body) {
            return Ok(());
        }
        Err(Unknown::NoRule)
    }

    /// Makes the names of a part known; the first word that it owns.
    #[tactic(auto, using(crate::proofs::ProgramRules::rules))]
    fn know_part(&mut self, list: List) -> Result<Option<usize>, Unknown>
        ensures same { OnOk result (ReadsSame self.old self.new) }
        ensures owned { IfOk result (λ owned. PartKnows (outline self.old) (words self.old) (knowns self.old) (piece_of (outline self.old).written.heads.items list) (knowns self.new) owned) }
    {
        let mut owned: Option<usize> = None;
        let mut steps = Steps::new();
        let heads = piece(self.written.heads.as_slice(), list);
        for head in heads {
            if self.know_head(head.kind)? {
                continue;
            }
            owned = owned.or(self.owned(head.kind, &mut steps)?);
        }
        Ok(owned)
    }

    /// The first word that a head of a part owns.
    #[tactic(auto, using(crate::proofs::ProgramRules::rules))]
    fn owned(&self, kind: HeadKind, steps: &mut Steps) -> Result<Option<usize>, Unknown>
        ensures { IfOk result (λ owned. OwnsFirst (outline self.now) (words self.now) (knowns self.now) kind owned) }
    {
        let HeadKind::Owns(listed) = kind else {
            return Ok(None);
        };
        let words = self.listed_words(&self.so_far(), listed, DEEPEST, steps)?;
        Ok(words.first().copied())
    }

    /// The word that a wait without assignments keeps: the one that is owned, else the first that isn't fixed.
    fn waiting_word(&self, owned: Option<usize>) -> Option<usize>
        ensures { result ≡ option_or owned (first_changing_of 0 (fixed_of (words self.now))) }
    {
        match owned {
            Some(word) => Some(word),
            None => self.first_changing(),
        }
    }

    /// The first word that isn't fixed.
    #[tactic(auto, using(crate::proofs::ProgramRules::changing))]
    fn first_changing(&self) -> Option<usize>
        ensures { result ≡ first_changing_of 0 (fixed_of (words self.now)) }
    {
        for word in 0..self.layout.len() {
            if !self.layout.is_fixed(word) {
                return Some(word);
            }
        }
        None
    }
}
