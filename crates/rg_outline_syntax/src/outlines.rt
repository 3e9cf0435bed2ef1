//! The whole of an outline.

use crate::files::USE;
use crate::infix::{Infix, LEAF};
use crate::parser::{DEEPEST, Parser};
use crate::written::{
    Clause, Comparison, Declaration, Head, HeadKind, Let, List, PartWritten, Procedure, Standing,
    Written,
};
use crate::{Fault, Keyword, Kind, ShapeFault, Span, Symbol, Tokens};
use std::alloc::Global;

/// Where heads stand.
#[derive(Clone, Copy, PartialEq, Eq)]
enum Section {
    BeforeWords,
    /// After the words of a file that is used.
    Used,
    Program,
    Part,
}

/// What begins the head that says which part a part interrupts.
pub(crate) const INTERRUPTS: &[u8] = b"interrupts";

/// What may stand before the words of an outline.
const BEFORE_WORDS: &str = "`words` is wanted here or `let`, at the beginning of an outline";

/// The outline that tokens spell, with all that the files which it uses have. `source` is what the tokens were read from.
///
/// # Errors
///
/// - The first `ShapeFault`, at its token.
/// - `FaultKind::Memory` where memory is refused.
pub fn parse(alloc: Global, source: &[u8], tokens: &Tokens) -> Result<Written, Fault> {
    let mut parser = Parser::new(alloc, source, tokens);
    parser.outline();
    match parser.fault {
        None => Ok(parser.written),
        Some(fault) => Err(fault),
    }
}

/// The clause that begins with a keyword.
fn clause_of(keyword: Keyword) -> Option<Clause> {
    match keyword {
        Keyword::Invariant => Some(Clause::Invariant),
        Keyword::Pre => Some(Clause::Pre),
        Keyword::Rely => Some(Clause::Rely),
        Keyword::Guar => Some(Clause::Guar),
        Keyword::Post => Some(Clause::Post),
        _ => None,
    }
}

/// Whether a head with this keyword may stand in the section.
fn may_stand(section: Section, keyword: Keyword) -> bool {
    match keyword {
        Keyword::Let => true,
        Keyword::Owns => section == Section::Part,
        Keyword::Invariant => matches!(section, Section::Used | Section::Program),
        Keyword::Rely | Keyword::Guar => section != Section::BeforeWords,
        Keyword::Pre | Keyword::Post => matches!(section, Section::Program | Section::Part),
        _ => false,
    }
}

/// Adds the heads from an index on to others; whether memory was had for them.
fn add_from(heads: &mut Vec<Head>, added: &[Head], start: usize) -> bool {
    let added = added.get(start..).unwrap_or(&[]);
    heads.extend_from_slice(added).is_ok()
}

impl Parser<'_> {
    fn outline(&mut self) {
        for _ in 0..self.tokens.len() {
            if self.place >= self.tokens.own() {
                break;
            }
            self.used_file();
        }
        self.own_file();
        self.written.before_words = self.stored(Section::BeforeWords);
        self.written.following_words = self.stored(Section::Program);
        self.parts();
    }

    /// A file that is used, with its end.
    fn used_file(&mut self) {
        let has_uses = self.uses();
        self.named_words(has_uses);
        self.program_heads(Section::Used);
        if !self.takes(Kind::End) {
            self.refuse_late_use();
            self.refuse(ShapeFault::NotInUsedFile);
        }
    }

    /// The outline's own file, up to its parts.
    fn own_file(&mut self) {
        let has_uses = self.uses();
        self.named_words(has_uses);
        if self.written.declarations.is_empty() {
            self.refuse_late_use();
            self.refuse(ShapeFault::Wanted(BEFORE_WORDS));
        }
        self.program_heads(Section::Program);
        if !self.is_next(Kind::Keyword(Keyword::Part)) {
            self.refuse_late_use();
            self.refuse(ShapeFault::Wanted(
                "`let`, `invariant`, `pre`, `rely`, `guar`, `post` or `part` is wanted here",
            ));
        }
    }

    /// The names of the files that a file uses; whether there are any.
    fn uses(&mut self) -> bool {
        let start = self.place;
        for _ in 0..self.tokens.len() {
            if !self.takes_word(USE) {
                break;
            }
            self.want(
                Kind::FileName,
                "the name of a file is wanted here, in quotes",
            );
        }
        self.place > start
    }

    /// Refuses a `use` that stands elsewhere.
    fn refuse_late_use(&mut self) {
        if self.is_word(USE) && self.kind_after() == Kind::FileName {
            self.refuse(ShapeFault::UseLate);
        }
    }

    /// The names before the words of a file, and its words; a file that uses others may have none of its own, and then its names stand after the words
    /// of those.
    fn named_words(&mut self, has_uses: bool) {
        let before = self.before_words.len();
        self.program_heads(Section::BeforeWords);
        if self.takes(Kind::Keyword(Keyword::Words)) {
            self.declarations();
        } else if has_uses {
            let is_stored = add_from(&mut self.following_words, &self.before_words, before);
            self.want_stored(is_stored);
            self.before_words.truncate(before);
        }
    }

    /// The heads of a section of a file.
    fn program_heads(&mut self, section: Section) {
        for _ in 0..self.tokens.len() {
            let Some(head) = self.next_head(section) else {
                break;
            };
            let stored = if section == Section::BeforeWords {
                self.before_words.push(head)
            } else {
                self.following_words.push(head)
            };
            self.want_stored(stored.is_ok());
        }
    }

    /// The heads of all files that stand before words, or those that follow them, as they are stored.
    fn stored(&mut self, section: Section) -> List {
        let start = self.written.heads.len();
        let is_stored = if section == Section::BeforeWords {
            add_from(&mut self.written.heads, &self.before_words, 0)
        } else {
            add_from(&mut self.written.heads, &self.following_words, 0)
        };
        self.want_stored(is_stored);
        List::new(start, self.written.heads.len())
    }

    /// The next head of a section, where one stands there.
    fn next_head(&mut self, section: Section) -> Option<Head> {
        match self.token().kind {
            Kind::Keyword(keyword) if may_stand(section, keyword) => Some(self.head(keyword)),
            Kind::Name if section == Section::Part && self.is_word(INTERRUPTS) => {
                Some(self.interrupts())
            }
            _ => None,
        }
    }

    /// Which part a part interrupts.
    fn interrupts(&mut self) -> Head {
        let start = self.span();
        self.step();
        let name = self.name("the name of a part");
        Head {
            kind: HeadKind::Interrupts(name, self.brackets(false, DEEPEST)),
            span: self.since(start),
        }
    }

    /// The heads of a part.
    fn heads(&mut self) -> List {
        let start = self.written.heads.len();
        for _ in 0..self.tokens.len() {
            let Some(head) = self.next_head(Section::Part) else {
                break;
            };
            let stored = self.written.heads.push(head);
            self.want_stored(stored.is_ok());
        }
        List::new(start, self.written.heads.len())
    }

    fn head(&mut self, keyword: Keyword) -> Head {
        let start = self.span();
        self.step();
        if let Some(clause) = clause_of(keyword) {
            return Head {
                kind: HeadKind::Clause(clause, self.formula()),
                span: start,
            };
        }
        if keyword == Keyword::Owns {
            return Head {
                kind: HeadKind::Owns(self.words(DEEPEST)),
                span: self.since(start),
            };
        }
        self.named_head()
    }

    /// A name for a tree or for statements, after its `let`.
    fn named_head(&mut self) -> Head {
        let name = self.name("a name");
        let parameters = self.parameters();
        let equal = Symbol::Infix(Infix::Compare(Comparison::Equal));
        self.want(Kind::Symbol(equal), "`=` is wanted here");
        let begin = self.span();
        let kind = if self.takes(Kind::Keyword(Keyword::Begin)) {
            let body = self.body(begin);
            HeadKind::Procedure(Procedure {
                name,
                parameters,
                body,
                span: self.since(name),
            })
        } else {
            HeadKind::Let(Let {
                name,
                parameters,
                body: self.formula(),
                span: self.since(name),
            })
        };
        Head { kind, span: name }
    }

    /// The block after a `begin`, and the `end` after it.
    fn body(&mut self, begin: Span) -> List {
        self.after_else = None;
        self.outdented = None;
        let body = self.block(DEEPEST);
        self.want_end(begin);
        body
    }

    /// The parameters of a name for a tree, if it has any.
    fn parameters(&mut self) -> List {
        let start = self.written.names.len();
        if self.takes(Kind::Symbol(Symbol::OpenParenthesis)) {
            for _ in 0..self.tokens.len() {
                let parameter = self.name("the name of a parameter");
                let stored = self.written.names.push(parameter);
                self.want_stored(stored.is_ok());
                if !self.takes(Kind::Symbol(Symbol::Comma)) {
                    break;
                }
            }
            self.want_closed();
        }
        List::new(start, self.written.names.len())
    }

    /// The kind of the token after the next one.
    pub(crate) fn kind_after(&self) -> Kind {
        self.tokens.at(self.place.saturating_add(1)).kind
    }

    /// How the next word is declared, without its name.
    fn standing(&mut self) -> Standing {
        if self.takes(Kind::Keyword(Keyword::Fixed)) {
            return Standing::Fixed;
        }
        if self.kind_after() == Kind::Name && self.takes_word(b"aux") {
            return Standing::Auxiliary;
        }
        Standing::Plain
    }

    fn declarations(&mut self) {
        let start = self.written.declarations.len();
        for _ in 0..self.tokens.len() {
            if !self.is_next(Kind::Name) && !self.is_next(Kind::Keyword(Keyword::Fixed)) {
                break;
            }
            self.refuse_late_use();
            let declaration = self.declaration();
            let stored = self.written.declarations.push(declaration);
            self.want_stored(stored.is_ok());
        }
        if self.written.declarations.len() == start {
            self.name("the name of a word");
        }
        if matches!(self.token().kind, Kind::Keyword(_))
            && matches!(
                self.kind_after(),
                Kind::Symbol(Symbol::Colon | Symbol::OpenBracket)
            )
        {
            self.refuse(ShapeFault::KeywordIsNoWord);
        }
    }

    fn declaration(&mut self) -> Declaration {
        let standing = self.standing();
        let name = self.name("the name of a word");
        let ranges = self.brackets(true, DEEPEST);
        self.want(
            Kind::Symbol(Symbol::Colon),
            "`:` is wanted here and the width",
        );
        Declaration {
            name,
            standing,
            ranges,
            width: self.climb(LEAF, DEEPEST),
        }
    }

    fn parts(&mut self) {
        for _ in 0..self.tokens.len() {
            if !self.takes(Kind::Keyword(Keyword::Part)) {
                break;
            }
            let part = self.part();
            let stored = self.written.parts.push(part);
            self.want_stored(stored.is_ok());
        }
        if !self.is_next(Kind::End) {
            self.refuse(ShapeFault::Wanted("`part` or the end of the file is wanted here"));
        }
    }

    /// A part, after its `part`.
    fn part(&mut self) -> PartWritten {
        let name = self.name("the name of a part");
        let index = self.part_index();
        let heads = self.heads();
        let begin = self.span();
        self.want_opener(
            Keyword::Begin,
            "`begin`",
            "`begin` is wanted here, or one of `let`, `owns`, `interrupts`, `pre`, `rely`, `guar`, `post`",
        );
        let body = self.body(begin);
        PartWritten {
            name,
            index,
            heads,
            body,
            span: self.since(name),
        }
    }

    /// The index of a family of parts, with its range.
    fn part_index(&mut self) -> Option<(Span, usize)> {
        if !self.takes(Kind::Symbol(Symbol::OpenBracket)) {
            return None;
        }
        let index = self.index_name();
        let range = self.range(true, DEEPEST);
        self.want(Kind::Symbol(Symbol::CloseBracket), "`]` is wanted here");
        Some((index, range))
    }
}
