//! Names of words in C.

ghost use Rattle.std.specs.Prelude.{◌≡◌, ◌++◌, nat_eq, OnOk, string_bytes};
ghost use Rattle.std.specs.List.{list_any, starts_with};
ghost use Rattle.std.specs.Str.{bytes_eq};
ghost use Rattle.rg_c_values.specs.CNames.{is_c_word, begins_as_c, begins_as_ours, has_small_letter, is_int_type, is_reserved, is_taken, c_name};

use std::alloc::AllocError;

/// Words of C, and macros that it, its headers and compilers have without a capital letter, and the name of the struct of the words.
const C_WORDS: [&str; 82] = [
    "auto",
    "break",
    "case",
    "char",
    "const",
    "continue",
    "default",
    "do",
    "double",
    "else",
    "enum",
    "extern",
    "float",
    "for",
    "goto",
    "if",
    "inline",
    "int",
    "long",
    "register",
    "restrict",
    "return",
    "short",
    "signed",
    "sizeof",
    "static",
    "struct",
    "switch",
    "typedef",
    "union",
    "unsigned",
    "void",
    "volatile",
    "while",
    "bool",
    "true",
    "false",
    "alignas",
    "alignof",
    "asm",
    "constexpr",
    "kill_dependency",
    "noreturn",
    "nullptr",
    "static_assert",
    "thread_local",
    "typeof",
    "typeof_unqual",
    "offsetof",
    "assert",
    "errno",
    "stdin",
    "stdout",
    "stderr",
    "complex",
    "imaginary",
    "math_errhandling",
    "and",
    "and_eq",
    "bitand",
    "bitor",
    "compl",
    "not",
    "not_eq",
    "or",
    "or_eq",
    "xor",
    "xor_eq",
    "linux",
    "unix",
    "i386",
    "mips",
    "sparc",
    "sun",
    "vax",
    "m68k",
    "mc68000",
    "hppa",
    "hpux",
    "near",
    "far",
    "w",
];

/// How names begin that C keeps for itself and its headers, besides those without a small letter.
const C_BEGINNINGS: [&str; 9] = [
    "_", "atomic_", "ATOMIC_", "memory_", "PRI", "SCN", "L_", "P_", "M_",
];

/// How names begin that are ours.
const OUR_BEGINNINGS: [&str; 3] = ["w_", "rgc_", "RGC_"];

/// Whether the text is one of these words.
fn is_among(words: &[&str], text: &str) -> bool
    ensures { result ≡ list_any (λ word. bytes_eq text.now word.now) words.now }
{
    words.iter().any(|word| text == *word)
}

/// Whether the text begins with one of these.
fn begins_with_any(beginnings: &[&str], text: &str) -> bool
    ensures { result ≡ list_any (λ beginning. starts_with nat_eq text.now beginning.now) beginnings.now }
{
    let bytes = text.as_bytes();
    beginnings
        .iter()
        .any(|beginning| bytes.starts_with(beginning.as_bytes()))
}

/// Whether the name is a word of C, or a macro without a capital letter, or that of the struct of the words.
#[tactic(auto, unfolding(crate::specs::CNames::is_c_word, crate::specs::CNames::c_words))]
fn is_c_word(name: &str) -> bool
    ensures { result ≡ is_c_word name.now }
{
    is_among(&C_WORDS, name)
}

/// Whether the name begins as names do that C keeps.
#[tactic(auto, unfolding(crate::specs::CNames::begins_as_c, crate::specs::CNames::c_beginnings))]
fn begins_as_c(name: &str) -> bool
    ensures { result ≡ begins_as_c name.now }
{
    begins_with_any(&C_BEGINNINGS, name)
}

/// Whether the name begins as names do that are ours.
#[tactic(auto, unfolding(crate::specs::CNames::begins_as_ours, crate::specs::CNames::our_beginnings))]
fn begins_as_ours(name: &str) -> bool
    ensures { result ≡ begins_as_ours name.now }
{
    begins_with_any(&OUR_BEGINNINGS, name)
}

/// Whether the name has a small letter.
#[tactic(auto, unfolding(crate::specs::CNames::has_small_letter))]
fn has_small_letter(name: &str) -> bool
    ensures { result ≡ has_small_letter name.now }
{
    name.as_bytes().iter().any(|byte| byte.is_ascii_lowercase())
}

/// Whether the name is one of a type, as `int_least8_t`.
#[tactic(auto, unfolding(crate::specs::CNames::is_int_type))]
fn is_int_type(name: &str) -> bool
    ensures { result ≡ is_int_type name.now }
{
    let bytes = name.as_bytes();
    (bytes.starts_with(b"int") || bytes.starts_with(b"uint")) && bytes.ends_with(b"_t")
}

/// Whether the name means something in C or its headers, or may do so.
fn is_reserved(name: &str) -> bool
    ensures { result ≡ is_reserved name.now }
{
    is_c_word(name) || begins_as_c(name) || is_int_type(name) || !has_small_letter(name)
}

/// Whether a word's name may mean something else in C, or is like one of ours.
pub fn is_taken(name: &str) -> bool
    ensures { result ≡ is_taken name.now }
{
    is_reserved(name) || begins_as_ours(name) || name.as_bytes().ends_with(b"_")
}

/// Adds a word's name in C: its own, or with `w_` before it where that may mean something else.
///
/// An error comes only where memory was refused.
pub fn push_c_name(text: &mut String, name: &str) -> Result<(), AllocError>
    ensures { OnOk result (string_bytes text.new ≡ string_bytes text.old ++ c_name name.now) }
{
    if is_taken(name) {
        text.push_str("w_")?;
    }
    text.push_str(name)?;
    Ok(())
}
