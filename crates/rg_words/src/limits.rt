//! The limits of the tool, each under one name.

/// The most bytes of a program text, a derivation, a start file or a moves file.
pub const MOST_TEXT_BYTES: usize = 1_048_576;

/// The most bytes of a proofs file.
pub const MOST_PROOF_BYTES: usize = 16_777_216;

/// The most declared words.
pub const MOST_WORDS: usize = 64;

/// The greatest width of a word, in bits. The least is 1.
pub const MOST_WIDTH: u32 = 64;

/// The greatest count of a shift, in bits.
pub const MOST_SHIFT: u64 = 63;

/// The greatest number that belongs to no word and to no group of one width.
pub const MOST_PLAIN_NUMBER: u64 = 4_294_967_295;

/// The most parts of a program.
pub const MOST_PARTS: usize = 32;

/// The most statements of a program.
pub const MOST_STATEMENTS: usize = 4_000;

/// The most assignments in one `await`.
pub const MOST_ASSIGNMENTS: usize = 16;

/// The most lines of a derivation.
pub const MOST_DERIVATION_LINES: usize = 20_000;

/// The most openers that are open at once.
pub const MOST_OPENERS: usize = 200;

/// The most operands of one chain of `and` or of `or`.
pub const MOST_OPERANDS: usize = 64;

/// The most variables of one condition's clauses.
pub const MOST_VARIABLES: u32 = 16_777_216;

/// The greatest id, hint or variable of a hint line.
pub const MOST_HINT_NUMBER: u32 = 2_147_483_647;

/// The most steps of parts in one run.
pub const MOST_RUN_STEPS: u64 = 1_000_000;

/// The most decisions of one search for hint lines.
pub const MOST_DECISIONS: u64 = 1_000_000_000;

/// The most bytes that a buffered writer holds back.
pub const BUFFER_BYTES: usize = 65_536;
