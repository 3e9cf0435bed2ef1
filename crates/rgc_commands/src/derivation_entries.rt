//! Faults of derivations.

use crate::entries::Entry;

const UNEXPECTED_IN_DERIVATION: Entry = Entry {
    name: "UnexpectedInDerivation",
    when: "as 2, in a derivation",
    meaning: "Up to the token before, the derivation could have gone on to be right; with this one it\n\
can't.",
    remedy: "A line is `line NUMBER RULE STATEMENT`, then `from` with premises where the rule\n\
has any, then `pre F rely F guar F post F`. Each binary operation has parentheses.",
    example: "\n\
An example: `rgc conditions text derivation` with\n\
\n\
text\n\
\x20   words x:1\n\
\x20   pre true rely true guar true post true\n\
\x20   part a\n\
\x20     pre true rely true guar true post true\n\
\x20   begin\n\
\x20     skip\n\
\x20   end\n\
\n\
derivation\n\
\x20   line 1 basic 1 pre true guar true rely true post true\n",
};

const LINE_NUMBER: Entry = Entry {
    name: "LineNumber",
    when: "the k-th line's number isn't k",
    meaning: "Lines of a derivation are numbered 1, 2, 3 and on.",
    remedy: "Number the lines again.",
    example: "\n\
An example: `rgc conditions text derivation` with\n\
\n\
text\n\
\x20   words x:1\n\
\x20   pre true rely true guar true post true\n\
\x20   part a\n\
\x20     pre true rely true guar true post true\n\
\x20   begin\n\
\x20     skip\n\
\x20   end\n\
\n\
derivation\n\
\x20   line 2 basic 1 pre true rely true guar true post true\n",
};

const NOT_EARLIER: Entry = Entry {
    name: "NotEarlier",
    when: "a premise that is 0 or not below its line",
    meaning: "A line follows from lines before it.",
    remedy: "Name an earlier line after `from`, or move this line down.",
    example: "\n\
An example: `rgc conditions text derivation` with\n\
\n\
text\n\
\x20   words x:1\n\
\x20   pre true rely true guar true post true\n\
\x20   part a\n\
\x20     pre true rely true guar true post true\n\
\x20   begin\n\
\x20     skip\n\
\x20   end\n\
\n\
derivation\n\
\x20   line 1 conseq 1 from 1 pre true rely true guar true post true\n",
};

const RULE_DOES_NOT_FIT: Entry = Entry {
    name: "RuleDoesNotFit",
    when: "the rule isn't for that kind of statement, or the count of premises is wrong",
    meaning: "`basic` is for `skip` and assignments, `atomic` for `await`, `seq` for a sequence, `if` and\n\
`loop` for their statements, `conseq` for any. `basic` and `atomic` have no premise, `loop`\n\
and `conseq` one, `if` two, and `seq` one for each item.",
    remedy: "See with `rgc number` which statement has which number and kind.",
    example: "\n\
An example: `rgc conditions text derivation` with\n\
\n\
text\n\
\x20   words x:1\n\
\x20   pre true rely true guar true post true\n\
\x20   part a\n\
\x20     pre true rely true guar true post true\n\
\x20   begin\n\
\x20     skip\n\
\x20   end\n\
\n\
derivation\n\
\x20   line 1 atomic 1 pre true rely true guar true post true\n",
};

const WRONG_STATEMENT: Entry = Entry {
    name: "WrongStatement",
    when: "no such statement, or a premise about another statement than the one that the rule asks for",
    meaning: "The line names a statement that the program doesn't have, or one of its premises speaks of\n\
another statement than the rule asks for.",
    remedy: "See with `rgc number` which statement has which number. The premises of a\n\
sequence are of its items in their order, those of an `if` of its two branches,\n\
that of a loop of its body, that of `conseq` of the same statement.",
    example: "\n\
An example: `rgc conditions text derivation` with\n\
\n\
text\n\
\x20   words x:1\n\
\x20   pre true rely true guar true post true\n\
\x20   part a\n\
\x20     pre true rely true guar true post true\n\
\x20   begin\n\
\x20     skip\n\
\x20   end\n\
\n\
derivation\n\
\x20   line 1 basic 2 pre true rely true guar true post true\n",
};

const FORMULA_DIFFERS: Entry = Entry {
    name: "FormulaDiffers",
    when: "a formula tree that isn't the one that the rule asks for",
    meaning: "The rules ask that some formulas are equal as trees: rely and guarantee of a premise are\n\
those of its line, but for `conseq`; the items of a sequence lead from the pre to the post, and\n\
each ends where the next begins; a branch begins with the pre and the test, or with the pre and\n\
`not` of it, and ends in the post; the body of a loop begins with the pre and the test and ends\n\
in the pre. RULES.md lists them.",
    remedy: "Write the same formula, in the same order of operands, or put a `conseq` line\n\
between.",
    example: "\n\
An example: `rgc conditions text derivation` with\n\
\n\
text\n\
\x20   words x:8\n\
\x20   pre true rely true guar true post true\n\
\x20   part a\n\
\x20     pre true rely true guar true post true\n\
\x20   begin\n\
\x20     while (x = 0) do skip end\n\
\x20   end\n\
\n\
derivation\n\
\x20   line 1 basic 2 pre true rely true guar true post true\n\
\x20   line 2 loop 1 from 1 pre true rely true guar true post true\n",
};

const PART_NOT_DERIVED: Entry = Entry {
    name: "PartNotDerived",
    when: "no line derives a part",
    meaning: "For each part a line must speak of its whole body with exactly the part's pre, rely,\n\
guarantee and post.",
    remedy: "Add that line, often a `conseq` over the last one, or compare the four formulas\n\
with those of the part.",
    example: "\n\
An example: `rgc conditions text derivation` with\n\
\n\
text\n\
\x20   words x:1\n\
\x20   pre true rely true guar true post true\n\
\x20   part a\n\
\x20     pre true rely true guar true post true\n\
\x20   begin\n\
\x20     skip\n\
\x20   end\n\
\n\
derivation: an empty file\n",
};

/// The entry of a fault of a derivation, by its number; none where no refusal has it.
pub(crate) fn derivation_entry(number: u64) -> Option<Entry> {
    match number {
        21 => Some(UNEXPECTED_IN_DERIVATION),
        22 => Some(LINE_NUMBER),
        23 => Some(NOT_EARLIER),
        24 => Some(RULE_DOES_NOT_FIT),
        _ => derivation_entry_further(number),
    }
}

/// Those of further numbers.
fn derivation_entry_further(number: u64) -> Option<Entry> {
    match number {
        25 => Some(WRONG_STATEMENT),
        26 => Some(FORMULA_DIFFERS),
        27 => Some(PART_NOT_DERIVED),
        _ => None,
    }
}
