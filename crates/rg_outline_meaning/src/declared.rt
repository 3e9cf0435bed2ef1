//! The words that an outline declares.

ghost use Rattle.std.specs.Prelude.{◌≡◌, ◌≢◌, pos, [], ◌∷◌, ◌++◌, map, take, All, Some, slice_get, IfOk, OnOk};
ghost use Rattle.rg_outline_meaning.specs.Meanings.{whole};
ghost use Rattle.rg_outline_meaning.specs.Names.{text_of, piece_of, listed as listed_of, parameters_of, IsNew, AreDifferent};
ghost use Rattle.rg_outline_meaning.specs.Members.{member_name};
ghost use Rattle.rg_outline_meaning.specs.Expressions.{StandsFor};
ghost use Rattle.rg_outline_meaning.specs.Programs.{of_outline, KnownAfter, IsIndexRange, AreIndexRanges, is_fixed as is_fixed_word, declared_words, AreDeclared};
ghost use Rattle.rg_outline_meaning.specs.Reading.{ReadsSame, LearnsHead, Declares};
ghost use Rattle.rg_outline_meaning.specs.View.{sense as sense_of, outline, words, names as names_at, knowns};

use crate::expressions::DEEPEST;
use crate::meaning::Unknown;
use crate::names::{Known, Names, Reader, Sense, Steps, piece};
use crate::selected::members;
use rg_outline_syntax::{Declaration, HeadKind, List, Span, Standing};

/// Whether no step writes a word that is declared so.
fn is_fixed(standing: Standing) -> bool
    ensures { result ≡ is_fixed_word standing }
{
    match standing {
        Standing::Fixed => true,
        Standing::Plain | Standing::Auxiliary => false,
    }
}

impl Reader<'_> {
    /// The names of the outline and the part so far, and no others.
    #[tactic(auto, using(crate::proofs::ProgramRules::none_bound))]
    pub(crate) fn so_far(&self) -> Names
        ensures { names_at self.now result ≡ of_outline (knowns self.now) }
    {
        Names {
            bound: Vec::new(self.alloc),
        }
    }

    /// Makes a name known after a place.
    pub(crate) fn know(&mut self, name: Span, since: usize, sense: Sense) -> Result<(), Unknown>
        ensures same { OnOk result (ReadsSame self.old self.new) }
        ensures new { OnOk result (IsNew (of_outline (knowns self.old)) (text_of (outline self.old) name)) }
        ensures known { OnOk result (knowns self.new ≡ knowns self.old ++ record { name = text_of (outline self.old) name; since = since; sense = sense_of (outline self.old) sense } ∷ []) }
    {
        let names = self.so_far();
        self.want_new(&names, name)?;
        self.known.push(Known { name, since, sense })?;
        Ok(())
    }

    /// Wants that none of these names is another one.
    fn want_others(&self, name: Span, others: &[Span]) -> Result<(), Unknown>
        ensures { OnOk result (All (λ other. other ≢ text_of (outline self.now) name) (map (text_of (outline self.now)) others.now)) }
    {
        let text = self.text(name);
        for other in others {
            if self.text(*other) == text {
                return Err(Unknown::NoRule);
            }
        }
        Ok(())
    }

    /// Wants that no two of these names are equal.
    fn want_all_different(&self, all: &[Span]) -> Result<(), Unknown>
        ensures { OnOk result (AreDifferent (map (text_of (outline self.now)) all.now)) }
    {
        for (place, name) in all.iter().enumerate() {
            self.want_others(*name, &all[place + 1..])?;
        }
        Ok(())
    }

    /// Wants that no two of a name and its parameters are equal.
    fn want_different(&self, name: Span, parameters: List) -> Result<(), Unknown>
        ensures { OnOk result (AreDifferent (text_of (outline self.now) name ∷ parameters_of (outline self.now) parameters)) }
    {
        let parameters = piece(self.written.names.as_slice(), parameters);
        self.want_others(name, parameters)?;
        self.want_all_different(parameters)
    }

    /// Makes the name known that a head gives to a tree or to statements; whether it gives one.
    #[tactic(auto, using(crate::proofs::ProgramRules::rules))]
    pub(crate) fn know_head(&mut self, kind: HeadKind) -> Result<bool, Unknown>
        ensures same { OnOk result (ReadsSame self.old self.new) }
        ensures head { IfOk result (λ b. LearnsHead (outline self.old) (knowns self.old) kind (knowns self.new) b) }
    {
        match kind {
            HeadKind::Let(named) => {
                self.want_different(named.name, named.parameters)?;
                self.know(named.name, named.span.end, Sense::Let(named))?;
                Ok(true)
            }
            HeadKind::Procedure(named) => {
                self.want_different(named.name, named.parameters)?;
                self.know(named.name, named.span.end, Sense::Procedure(named))?;
                Ok(true)
            }
            HeadKind::Owns(_) | HeadKind::Interrupts(..) | HeadKind::Clause(..) => Ok(false),
        }
    }

    /// Makes the names of heads known, each of which gives one.
    #[tactic(auto, using(crate::proofs::ProgramRules::rules))]
    pub(crate) fn know_heads(&mut self, list: List) -> Result<(), Unknown>
        ensures same { OnOk result (ReadsSame self.old self.new) }
        ensures known { OnOk result (KnownAfter (outline self.old) (knowns self.old) (piece_of (outline self.old).written.heads.items list) (knowns self.new)) }
    {
        let heads = piece(self.written.heads.as_slice(), list);
        for head in heads {
            if !self.know_head(head.kind)? {
                return Err(Unknown::NoRule);
            }
        }
        Ok(())
    }

    /// Reads the words, which have to be those of the layout.
    #[tactic(auto, using(crate::proofs::ProgramRules::rules))]
    pub(crate) fn know_words(&mut self) -> Result<(), Unknown>
        ensures same { OnOk result (ReadsSame self.old self.new) }
        ensures declared { OnOk result (AreDeclared (outline self.old) (words self.old) (knowns self.old) (outline self.old).written.declarations.items (knowns self.new) (words self.old)) }
    {
        let mut place: usize = 0;
        for declaration in &self.written.declarations {
            place = self.know_declared(declaration, place)?;
        }
        if place != self.layout.len() {
            return Err(Unknown::NoRule);
        }
        Ok(())
    }

    /// Reads a declaration, whose words have to be those of the layout from a place on; the place after them.
    #[tactic(auto, using(crate::proofs::ProgramRules::rules))]
    fn know_declared(&mut self, declaration: &Declaration, first: usize) -> Result<usize, Unknown>
        ensures same { OnOk result (ReadsSame self.old self.new) }
        ensures declared { IfOk result (λ next. Declares (outline self.old) (words self.old) (knowns self.old) (knowns self.new) declaration.now first next) }
    {
        let mut steps = Steps::new();
        let ranges = self.index_ranges(declaration.ranges, &mut steps)?;
        let width = self.whole(&self.so_far(), declaration.width, DEEPEST, &mut steps)?;
        let Ok(width) = u32::try_from(width) else {
            return Err(Unknown::NoRule);
        };
        let next = self.after_words(declaration, &ranges, width, first)?;
        self.know(
            declaration.name,
            declaration.name.end,
            Sense::Family(ranges),
        )?;
        Ok(next)
    }

    /// The first and the last numbers of the indices of a family, one by one.
    #[tactic(auto, using(crate::proofs::ProgramRules::rules))]
    fn index_ranges(&self, list: List, steps: &mut Steps) -> Result<Vec<(i128, i128)>, Unknown>
        ensures { IfOk result (λ rs. AreIndexRanges (outline self.now) (words self.now) (knowns self.now) (listed_of (outline self.now) list) rs.items) }
    {
        let mut ranges = Vec::new(self.alloc);
        for index in self.listed(list) {
            ranges.push(self.index_range(*index, steps)?)?;
        }
        Ok(ranges)
    }

    /// The first and the last number of an index of a family.
    #[tactic(auto, using(crate::proofs::ProgramRules::rules))]
    fn index_range(&self, index: usize, steps: &mut Steps) -> Result<(i128, i128), Unknown>
        ensures { IfOk result (λ r. IsIndexRange (outline self.now) (words self.now) (knowns self.now) index r) }
    {
        let Some(range) = self.written.ranges.get(index) else {
            return Err(Unknown::NoRule);
        };
        self.want_none(range.without)?;
        let names = self.so_far();
        let first = self.whole(&names, range.first, DEEPEST, steps)?;
        let last = self.whole(&names, range.last, DEEPEST, steps)?;
        if first < 0 || last < first {
            return Err(Unknown::NoRule);
        }
        Ok((first, last))
    }

    /// The place after the words of a declaration, which have to be those of the layout from a place on.
    #[tactic(auto, using(crate::proofs::ProgramRules::rules))]
    fn after_words(
        &self,
        declaration: &Declaration,
        ranges: &[(i128, i128)],
        width: u32,
        first: usize,
    ) -> Result<usize, Unknown>
        ensures { IfOk result (λ next. take next (words self.now) ≡ take first (words self.now) ++ declared_words (outline self.now) declaration.now ranges.now width) }
    {
        let all = members(self.alloc, ranges, &[])?;
        let mut place = first;
        for indices in &all {
            place = self.after_word(declaration, indices, width, place)?;
        }
        Ok(place)
    }

    /// The place after a word of a declaration, the member at these indices, which has to be the word of the layout at a place.
    #[tactic(auto, using(crate::proofs::ProgramRules::rules))]
    fn after_word(
        &self,
        declaration: &Declaration,
        indices: &[i128],
        width: u32,
        place: usize,
    ) -> Result<usize, Unknown>
        ensures { IfOk result (λ next. take next (words self.now) ≡ take place (words self.now) ++ record { name = member_name (text_of (outline self.now) declaration.now.name) indices.now; width = width; fixed = is_fixed_word declaration.now.standing } ∷ []) }
    {
        if place >= self.layout.len() {
            return Err(Unknown::NoRule);
        }
        let name = self.member_text(declaration.name, indices)?;
        if name.as_slice() == self.layout.name(place).as_bytes()
            && self.layout.width(place) == width
            && self.layout.is_fixed(place) == is_fixed(declaration.standing)
        {
            return Ok(place + 1);
        }
        Err(Unknown::NoRule)
    }

    /// The name of a member at these indices.
    pub(crate) fn member_text(&self, name: Span, indices: &[i128]) -> Result<Vec<u8>, Unknown>
        ensures { IfOk result (λ t. t.items ≡ member_name (text_of (outline self.now) name) indices.now) }
    {
        let mut text = Vec::from_slice(self.alloc, self.text(name))?;
        for index in indices {
            let Ok(index) = u64::try_from(*index) else {
                return Err(Unknown::NoRule);
            };
            text.push(b'_')?;
            text.extend_from_slice(itoa::Buffer::new().format(index).as_bytes())?;
        }
        Ok(text)
    }
}
