//! The pieces of which a header is made.

ghost use Rattle.std.specs.Prelude.{◌≡◌, ◌++◌, string_bytes, IfOk, OnOk};
ghost use Rattle.std.specs.List.{flat_map};
ghost use Rattle.rg_c.specs.Heads.{top_open, promise_head, promise_line, apart_lines, order_open, rests_text, guard_open, atomics_open, lock_free_line, atomics_close, hooks_text, apart_type, sections_text, struct_open, field_line, item_line, struct_close, start_lines, assertion_text, part_open, round_open, operation_open, guard_close};

use std::alloc::{AllocError, Global};

/// Adds texts, one after another.
fn push_all(text: &mut String, pieces: &[&str]) -> Result<(), AllocError>
    ensures { OnOk result (string_bytes text.new ≡ string_bytes text.old ++ flat_map (λ t. t.now) pieces.now) }
{
    for piece in pieces {
        text.push_str(piece)?;
    }
    Ok(())
}

/// Adds the beginning of the comment at the top.
#[tactic(auto, unfolding(crate::specs::Heads::top_open))]
pub(crate) fn push_top_open(text: &mut String, name: &str) -> Result<(), AllocError>
    ensures { OnOk result (string_bytes text.new ≡ string_bytes text.old ++ top_open name.now) }
{
    push_all(
        text,
        &[
            "/* ",
            name,
            ".h: made by rgc from a program that satisfies its specification.\n",
            " * Change the program, not this file.\n",
            " *\n",
            " * What is promised. If the words start inside pre, and whatever else writes them keeps to rely,\n",
            " * then each step of a part is inside guar, and where all parts have ended, post holds. A step is\n",
            " * one statement, or one test, under its comment. A name with ' is its value after the step.\n",
        ],
    )
}

/// What stands before a formula of the specification.
#[tactic(auto, unfolding(crate::specs::Heads::promise_head))]
pub(crate) fn promise_head(alloc: Global, what: &str) -> Result<String, AllocError>
    ensures { IfOk result (λ text. string_bytes text ≡ promise_head what.now) }
{
    let mut text = String::new(alloc);
    push_all(&mut text, &[" *   ", what, ": "])?;
    Ok(text)
}

/// Adds a formula of the specification, or a conjunct of one, after what stands before it.
#[tactic(auto, unfolding(crate::specs::Heads::promise_line))]
pub(crate) fn push_promise_line(
    text: &mut String,
    before: &str,
    formula: &str,
) -> Result<(), AllocError>
    ensures { OnOk result (string_bytes text.new ≡ string_bytes text.old ++ promise_line before.now formula.now) }
{
    push_all(text, &[before, formula, "\n"])
}

/// Adds what is proved of words at which parts are kept apart.
#[tactic(auto, unfolding(crate::specs::Heads::apart_lines))]
pub(crate) fn push_apart_lines(text: &mut String) -> Result<(), AllocError>
    ensures { OnOk result (string_bytes text.new ≡ string_bytes text.old ++ apart_lines) }
{
    push_all(
        text,
        &[
            " *\n",
            " * Where assertions keep the parts of a plain word apart, it is proved that no two parts ever stand at\n",
            " * steps that both access the word, and of which one writes it.\n",
        ],
    )
}

/// Adds what is presumed of parts on one core.
#[tactic(auto, unfolding(crate::specs::Heads::order_open))]
pub(crate) fn push_order_open(text: &mut String) -> Result<(), AllocError>
    ensures { OnOk result (string_bytes text.new ≡ string_bytes text.old ++ order_open) }
{
    push_all(
        text,
        &[
            " *\n",
            " * What is presumed of parts that run on one core. One that interrupts others is called by an interrupt, or is a\n",
            " * task that doesn't wait: while it runs the others stand still, and in their critical sections it is kept away.\n",
        ],
    )
}

/// Adds what the promise rests on.
#[tactic(auto, unfolding(crate::specs::Heads::rests_text))]
pub(crate) fn push_rests_text(text: &mut String) -> Result<(), AllocError>
    ensures { OnOk result (string_bytes text.new ≡ string_bytes text.old ++ rests_text) }
{
    push_all(
        text,
        &[
            " *\n",
            " * What it rests on: the compiler of C; RGC_LOAD, RGC_STORE and RGC_CAS are sequentially consistent;\n",
            " * a critical section keeps out all others; each run function is called once at a time, in a thread\n",
            " * of its own; nothing else writes the words but what keeps to rely.\n",
            " */\n",
        ],
    )
}

/// Adds the beginning of the header.
#[tactic(auto, unfolding(crate::specs::Heads::guard_open))]
pub(crate) fn push_guard_open(text: &mut String, name: &str) -> Result<(), AllocError>
    ensures { OnOk result (string_bytes text.new ≡ string_bytes text.old ++ guard_open name.now) }
{
    push_all(
        text,
        &[
            "#ifndef RGC_HEADER_",
            name,
            "\n#define RGC_HEADER_",
            name,
            "\n\n#include <stdbool.h>\n#include <stdint.h>\n\n",
        ],
    )
}

/// Adds the beginning of how atomic words are accessed, unless the device says so.
#[tactic(auto, unfolding(crate::specs::Heads::atomics_open))]
pub(crate) fn push_atomics_open(text: &mut String) -> Result<(), AllocError>
    ensures { OnOk result (string_bytes text.new ≡ string_bytes text.old ++ atomics_open) }
{
    push_all(text, &["#ifndef RGC_LOAD\n", "#include <stdatomic.h>\n"])
}

/// Adds that a type of so many bits has to be accessed without a lock.
#[tactic(auto, unfolding(crate::specs::Heads::lock_free_line))]
pub(crate) fn push_lock_free_line(
    text: &mut String,
    test: &str,
    bits: &str,
) -> Result<(), AllocError>
    ensures { OnOk result (string_bytes text.new ≡ string_bytes text.old ++ lock_free_line test.now bits.now) }
{
    push_all(
        text,
        &[
            "_Static_assert(",
            test,
            ", \"no lock-free access of ",
            bits,
            " bits: define RGC_ATOMIC, RGC_LOAD, RGC_STORE and RGC_CAS\");\n",
        ],
    )
}

/// Adds the end of how atomic words are accessed.
#[tactic(auto, unfolding(crate::specs::Heads::atomics_close))]
pub(crate) fn push_atomics_close(text: &mut String) -> Result<(), AllocError>
    ensures { OnOk result (string_bytes text.new ≡ string_bytes text.old ++ atomics_close) }
{
    push_all(
        text,
        &[
            "#define RGC_ATOMIC(type) _Atomic type\n",
            "#define RGC_LOAD(at) atomic_load(at)\n",
            "#define RGC_STORE(at, value) atomic_store((at), (value))\n",
            "#define RGC_CAS(at, old, value) atomic_compare_exchange_strong((at), &(old), (value))\n",
            "#endif\n",
        ],
    )
}

/// Adds what `int` has to be, and hooks for waiting and for a `skip`.
#[tactic(auto, unfolding(crate::specs::Heads::hooks_text))]
pub(crate) fn push_hooks_text(text: &mut String) -> Result<(), AllocError>
    ensures { OnOk result (string_bytes text.new ≡ string_bytes text.old ++ hooks_text) }
{
    push_all(
        text,
        &[
            "_Static_assert((0u - 1u) <= 0xFFFFFFFFu, \"int has at most 32 bits\");\n",
            "#ifndef RGC_WAIT\n",
            "#define RGC_WAIT(w) ((void)(w))\n",
            "#endif\n",
            "#ifndef RGC_SKIP\n",
            "#define RGC_SKIP(line) ((void)0)\n",
            "#endif\n",
        ],
    )
}

/// Adds how a word is declared at which parts are kept apart, unless the device says so.
#[tactic(auto, unfolding(crate::specs::Heads::apart_type))]
pub(crate) fn push_apart_type(text: &mut String) -> Result<(), AllocError>
    ensures { OnOk result (string_bytes text.new ≡ string_bytes text.old ++ apart_type) }
{
    push_all(
        text,
        &[
            "#ifndef RGC_APART\n",
            "#define RGC_APART(type) type\n",
            "#endif\n",
        ],
    )
}

/// Adds that the device has to say what a section is.
#[tactic(auto, unfolding(crate::specs::Heads::sections_text))]
pub(crate) fn push_sections_text(text: &mut String) -> Result<(), AllocError>
    ensures { OnOk result (string_bytes text.new ≡ string_bytes text.old ++ sections_text) }
{
    push_all(
        text,
        &[
            "#if !defined(RGC_ENTER) || !defined(RGC_LEAVE)\n",
            "#error \"define RGC_ENTER(w) and RGC_LEAVE(w): the ends of a critical section\"\n",
            "#endif\n",
        ],
    )
}

/// Adds the beginning of the struct of the words.
#[tactic(auto, unfolding(crate::specs::Heads::struct_open))]
pub(crate) fn push_struct_open(text: &mut String, name: &str) -> Result<(), AllocError>
    ensures { OnOk result (string_bytes text.new ≡ string_bytes text.old ++ struct_open name.now) }
{
    push_all(text, &["\nstruct ", name, " {\n"])
}

/// Adds a word.
#[tactic(auto, unfolding(crate::specs::Heads::field_line))]
pub(crate) fn push_field_line(
    text: &mut String,
    before: &str,
    kind: &str,
    after: &str,
    name: &str,
    what: &str,
) -> Result<(), AllocError>
    ensures { OnOk result (string_bytes text.new ≡ string_bytes text.old ++ field_line before.now kind.now after.now name.now what.now) }
{
    push_all(
        text,
        &[
            "    ", before, kind, after, " ", name, "; /* ", what, " */\n",
        ],
    )
}

/// Adds what is said of an item of an array.
#[tactic(auto, unfolding(crate::specs::Heads::item_line))]
pub(crate) fn push_item_line(text: &mut String, member: &str, what: &str) -> Result<(), AllocError>
    ensures { OnOk result (string_bytes text.new ≡ string_bytes text.old ++ item_line member.now what.now) }
{
    push_all(text, &["    /* ", member, ": ", what, " */\n"])
}

/// Adds the end of the struct.
#[tactic(auto, unfolding(crate::specs::Heads::struct_close))]
pub(crate) fn push_struct_close(text: &mut String) -> Result<(), AllocError>
    ensures { OnOk result (string_bytes text.new ≡ string_bytes text.old ++ struct_close) }
{
    push_all(text, &["};\n"])
}

/// Adds a start of the words, as a macro.
#[tactic(auto, unfolding(crate::specs::Heads::start_lines))]
pub(crate) fn push_start_lines(
    text: &mut String,
    name: &str,
    members: &str,
) -> Result<(), AllocError>
    ensures { OnOk result (string_bytes text.new ≡ string_bytes text.old ++ start_lines name.now members.now) }
{
    push_all(
        text,
        &[
            "\n/* A start inside pre. */\n#define RGC_START_",
            name,
            " { ",
            members,
            " }\n",
        ],
    )
}

/// Adds a function that tells whether a formula holds.
#[tactic(auto, unfolding(crate::specs::Heads::assertion_text))]
pub(crate) fn push_assertion_text(
    text: &mut String,
    name: &str,
    what: &str,
    test: &str,
) -> Result<(), AllocError>
    ensures { OnOk result (string_bytes text.new ≡ string_bytes text.old ++ assertion_text name.now what.now test.now) }
{
    push_all(
        text,
        &[
            "\n/* Whether the words are inside ",
            what,
            ". */\nstatic inline bool ",
            name,
            "_",
            what,
            "(struct ",
            name,
            " *w)\n{\n    (void)w;\n    return ",
            test,
            ";\n}\n",
        ],
    )
}

/// Adds the beginning of a part.
#[tactic(auto, unfolding(crate::specs::Heads::part_open))]
pub(crate) fn push_part_open(text: &mut String, name: &str, part: &str) -> Result<(), AllocError>
    ensures { OnOk result (string_bytes text.new ≡ string_bytes text.old ++ part_open name.now part.now) }
{
    push_all(
        text,
        &[
            "\n/* Part ",
            part,
            ". Where it returns, the part has ended. */\nstatic inline void ",
            name,
            "_run_",
            part,
            "(struct ",
            name,
            " *w)\n",
        ],
    )
}

/// Adds the beginning of one round of a part.
#[tactic(auto, unfolding(crate::specs::Heads::round_open))]
pub(crate) fn push_round_open(text: &mut String, name: &str, part: &str) -> Result<(), AllocError>
    ensures { OnOk result (string_bytes text.new ≡ string_bytes text.old ++ round_open name.now part.now) }
{
    push_all(
        text,
        &[
            "\n/* One round of part ",
            part,
            ", for a caller that goes round by itself. */\nstatic inline void ",
            name,
            "_round_",
            part,
            "(struct ",
            name,
            " *w)\n",
        ],
    )
}

/// Adds the beginning of the function of one use of named statements in a part.
#[tactic(auto, unfolding(crate::specs::Heads::operation_open))]
pub(crate) fn push_operation_open(
    text: &mut String,
    name: &str,
    part: &str,
    operation: &str,
) -> Result<(), AllocError>
    ensures { OnOk result (string_bytes text.new ≡ string_bytes text.old ++ operation_open name.now part.now operation.now) }
{
    push_all(
        text,
        &[
            "\n/* Of part ",
            part,
            ", the statements of one use alone, for a caller that makes the part's other steps by itself. */\nstatic inline void ",
            name,
            "_perform_",
            operation,
            "(struct ",
            name,
            " *w)\n",
        ],
    )
}

/// Adds the end of the header.
#[tactic(auto, unfolding(crate::specs::Heads::guard_close))]
pub(crate) fn push_guard_close(text: &mut String) -> Result<(), AllocError>
    ensures { OnOk result (string_bytes text.new ≡ string_bytes text.old ++ guard_close) }
{
    push_all(text, &["\n#endif\n"])
}
