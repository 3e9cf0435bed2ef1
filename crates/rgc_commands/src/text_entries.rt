//! Faults of texts.

use crate::entries::Entry;

const BAD_BYTE: Entry = Entry {
    name: "BadByte",
    when: "a byte that begins no token",
    meaning: "No token begins with this byte. Outside comments a text has names, numbers, keywords and the\n\
symbols ( ) : ; := = != < <= > >= + - alone.",
    remedy: "Look on the named line for brackets, braces, quotes, a comma, `&` or `|`, a `!`\n\
that isn't part of `!=`, or a letter outside ASCII.",
    example: "\n\
An example: `rgc clauses text` with\n\
\n\
text\n\
\x20   words x:8\n\
\x20   show (x = 1) && (x = 1)\n",
};

const UNEXPECTED: Entry = Entry {
    name: "Unexpected",
    when: "the first token such that the tokens up to it begin no spelling",
    meaning: "Up to the token before, the text could have gone on to be right; with this one it can't.\n\
What is wrong may be the token itself, or one that is missing before it.",
    remedy: "The usual slips: `==` for `=`, `=` for `:=` in an assignment, a number in\n\
hexadecimal, a `;` before `end`, no parentheses round a binary operation, an `if` without\n\
`else`, an `await` without an assignment.",
    example: "\n\
An example: `rgc clauses text` with\n\
\n\
text\n\
\x20   words x:8\n\
\x20   show (x == 1)\n",
};

const UNKNOWN_NAME: Entry = Entry {
    name: "UnknownName",
    when: "a word that isn't declared",
    meaning: "The name stands where a word is meant, and no word of this name is declared.",
    remedy: "Declare it after `words`, with its width, or correct the name. Capital and\n\
small letters differ.",
    example: "\n\
An example: `rgc clauses text` with\n\
\n\
text\n\
\x20   words x:8\n\
\x20   show (y = 1)\n",
};

const NAME_TWICE: Entry = Entry {
    name: "NameTwice",
    when: "a second declaration of a word, a second part of one name, a word given twice in a start or a move",
    meaning: "A name stands for one thing alone.",
    remedy: "Give the second one another name, or take it out.",
    example: "\n\
An example: `rgc clauses text` with\n\
\n\
text\n\
\x20   words x:8 x:4\n\
\x20   show (x = 1)\n",
};

const WIDTH: Entry = Entry {
    name: "Width",
    when: "a width that isn't 1 to 64",
    meaning: "A word has 1 to 64 bits.",
    remedy: "Give a width in this range. A longer number needs several words.",
    example: "\n\
An example: `rgc clauses text` with\n\
\n\
text\n\
\x20   words x:65\n\
\x20   show (x = 1)\n",
};

const NUMBER_TOO_LARGE: Entry = Entry {
    name: "NumberTooLarge",
    when: "a number that is too large for where it stands",
    meaning: "In a comparison or an assignment a number is below 2 to the width of its word; a shift count\n\
is at most 63; in a start or a move a value is below 2 to the width of its word; the number of a\n\
line or of a statement, and the one after `at`, are at most 4,294,967,295.",
    remedy: "Make the word wider or the number smaller.",
    example: "\n\
An example: `rgc clauses text` with\n\
\n\
text\n\
\x20   words x:8\n\
\x20   show (x < 256)\n",
};

const WIDTHS_DIFFER: Entry = Entry {
    name: "WidthsDiffer",
    when: "a word whose width isn't its group's",
    meaning: "All words of one comparison, or of one assignment, have the width of the first word in it, but for\n\
the formulas inside an `(if ..)`, whose comparisons have widths of their own.",
    remedy: "Give both words one width. There is no conversion.",
    example: "\n\
An example: `rgc clauses text` with\n\
\n\
text\n\
\x20   words x:8 y:16\n\
\x20   show (x = y)\n",
};

const WIDTH_UNKNOWN: Entry = Entry {
    name: "WidthUnknown",
    when: "the first number of a group without a word",
    meaning: "A comparison of numbers alone has no width.",
    remedy: "Write `true` or `false` in its place, or put a word into it.",
    example: "\n\
An example: `rgc clauses text` with\n\
\n\
text\n\
\x20   words x:8\n\
\x20   show (5 = 5)\n",
};

const PRIME: Entry = Entry {
    name: "Prime",
    when: "a primed word where one state is spoken of",
    meaning: "A primed word is the value after a step. A pre, a post, a test and an assignment speak of\n\
one state.",
    remedy: "Take the prime away. To speak of the value at the start of the run, declare a\n\
`fixed` word that holds it.",
    example: "\n\
An example: `rgc number text` with\n\
\n\
text\n\
\x20   words x:8\n\
\x20   pre (x' = 0) rely true guar true post true\n\
\x20   part a\n\
\x20     pre (x' = 0) rely true guar true post true\n\
\x20   begin\n\
\x20     skip\n\
\x20   end\n",
};

const DEPTH: Entry = Entry {
    name: "Depth",
    when: "the opener that would be open inside 200 others; the connective before a 65th operand of one chain",
    meaning: "Formulas and statements are nested at most 200 deep, and a chain of `and` or `or` has at\n\
most 64 operands.",
    remedy: "Cut a long chain into chains in parentheses.",
    example: "\n\
An example: `rgc clauses text` with\n\
\n\
text\n\
\x20   words x:1\n\
\x20   show (true and true and true and true and true and true and true and true and true and true and true and true and true and \n\
\x20     true and true and true and true and true and true and true and true and true and true and true and true and true and \n\
\x20     true and true and true and true and true and true and true and true and true and true and true and true and true and \n\
\x20     true and true and true and true and true and true and true and true and true and true and true and true and true and \n\
\x20     true and true and true and true and true and true and true and true and true and true and true and true and true)\n",
};

const LIMIT: Entry = Entry {
    name: "Limit",
    when: "another limit of the language is passed",
    meaning: "There are at most 64 words, 32 parts, 4,000 statements, 16 assignments in an `await`,\n\
20,000 lines of a derivation file, 1,048,576 bytes of a text and 16,777,216 of proofs; a\n\
condition has a limit of variables; a search and a run have limits of steps.",
    remedy: "The named file and place say which limit it is; LANGUAGE.md lists all. Without a\n\
file and a place it is a number on the command line.",
    example: "\n\
An example: `rgc clauses text` with\n\
\n\
text\n\
\x20   words x1:1 x2:1 x3:1 x4:1 x5:1 x6:1 x7:1 x8:1 x9:1 x10:1 x11:1 x12:1 x13:1 \n\
\x20     x14:1 x15:1 x16:1 x17:1 x18:1 x19:1 x20:1 x21:1 x22:1 x23:1 x24:1 x25:1 x26:1 \n\
\x20     x27:1 x28:1 x29:1 x30:1 x31:1 x32:1 x33:1 x34:1 x35:1 x36:1 x37:1 x38:1 x39:1 \n\
\x20     x40:1 x41:1 x42:1 x43:1 x44:1 x45:1 x46:1 x47:1 x48:1 x49:1 x50:1 x51:1 x52:1 \n\
\x20     x53:1 x54:1 x55:1 x56:1 x57:1 x58:1 x59:1 x60:1 x61:1 x62:1 x63:1 x64:1 x65:1\n\
\x20   show true\n",
};

const UNFINISHED: Entry = Entry {
    name: "Unfinished",
    when: "the tokens end too early; the place is the line of the last token, or 1",
    meaning: "The file ends where something must still come.",
    remedy: "Look for a parenthesis that isn't closed, or an `end` that is missing.",
    example: "\n\
An example: `rgc clauses text` with\n\
\n\
text\n\
\x20   words x:8\n\
\x20   show (x = 1\n",
};

const FIXED_ASSIGNED: Entry = Entry {
    name: "FixedAssigned",
    when: "an assignment to a fixed word",
    meaning: "A fixed word keeps its first value for the whole run.",
    remedy: "Take `fixed` out of the declaration, or assign another word.",
    example: "\n\
An example: `rgc number text` with\n\
\n\
text\n\
\x20   words x:8 fixed n:8\n\
\x20   pre true rely true guar true post true\n\
\x20   part a\n\
\x20     pre true rely true guar true post true\n\
\x20   begin\n\
\x20     n := 1\n\
\x20   end\n",
};

/// The entry of a fault of a text, by its number; none where no refusal has it.
pub(crate) fn text_entry(number: u64) -> Option<Entry> {
    match number {
        1 => Some(BAD_BYTE),
        2 => Some(UNEXPECTED),
        3 => Some(UNKNOWN_NAME),
        4 => Some(NAME_TWICE),
        5 => Some(WIDTH),
        _ => text_entry_further(number),
    }
}

/// Those of further numbers.
fn text_entry_further(number: u64) -> Option<Entry> {
    match number {
        6 => Some(NUMBER_TOO_LARGE),
        7 => Some(WIDTHS_DIFFER),
        8 => Some(WIDTH_UNKNOWN),
        9 => Some(PRIME),
        _ => text_entry_last(number),
    }
}

/// Those of further numbers.
fn text_entry_last(number: u64) -> Option<Entry> {
    match number {
        10 => Some(DEPTH),
        11 => Some(LIMIT),
        12 => Some(UNFINISHED),
        13 => Some(FIXED_ASSIGNED),
        _ => None,
    }
}
