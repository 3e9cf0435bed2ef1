//! The stages from a text to code, each from the one before; and typed programs that were read from no text: two parts of one `skip` each,
//! without a word.

ghost use Rattle.rg_tree.specs.Trees.{truth};
ghost use Rattle.std.specs.Prelude.{◌≡◌, true};
ghost use Rattle.rg_tree.specs.ProgramView.{specification};

use crate::program::{DERIVATION, PROOFS, TEXT};
use rg_code::checked::Checked;
use rg_tree::part::{Part, Spec};
use rg_tree::program::Program;
use rg_tree::statement::Stmt;
use rg_tree::tree::Formula;
use rg_watch::Unwatched;
use rg_words::{Layout, Place, Refusal, RefusalNumber, SourceFile};
use rgc::{
    Derived, Parsed, ProofsFound, accept_program, build_program, failures_text, find_proofs,
};
use rgc_answers::{conditions_text, listing_text};
use rgc_line::Format;
use std::alloc::{AllocError, Global};
use std::sync::Wait;
use std::test::Fail;
use std::thread::Threads;

/// How many parts the program has at each of the four stages, and how many conditions.
fn counts_of_stages(alloc: Global) -> Result<([usize; 4], usize), Refusal> {
    let parsed = Parsed::read(alloc, TEXT)?;
    let parts = parsed.program().parts.len();
    let derived = parsed.derive(alloc, DERIVATION)?;
    let derived_parts = derived.program().parts.len();
    let conditions = derived.conditions(alloc)?.len();
    let accepted = derived.prove(alloc, PROOFS)?;
    let accepted_parts = accepted.program().parts.len();
    let emitted = accepted.emit(alloc)?;
    let emitted_parts = emitted.program().parts.len();
    Ok((
        [parts, derived_parts, accepted_parts, emitted_parts],
        conditions,
    ))
}

#[test]
fn each_stage_comes_from_the_one_before(rt: HostRuntime) -> Result<(), Fail> {
    assert!(rt; counts_of_stages(rt.alloc())? == ([2, 2, 2, 2], 17));
    Ok(())
}

const LINES: &[u8] =
    b"line 1 basic 1 pre true rely true guar true post true\nline 2 basic 2 pre true rely true guar true post true\n";

/// A specification that promises a post, and else nothing.
fn promising(post: bool) -> Spec
    ensures { specification result ≡ record { pre = truth true; rely = truth true; guar = truth true; post = truth post } }
{
    Spec {
        pre: Formula::Truth(true),
        rely: Formula::Truth(true),
        guar: Formula::Truth(true),
        post: Formula::Truth(post),
    }
}

/// Two parts, each of one `skip`, on lines 8 and 11, where the program promises a post.
fn two_skips(alloc: Global, post: bool) -> Result<Program, AllocError> {
    let mut parts = Vec::new(alloc);
    parts.push(Part {
        name: String::from_str(alloc, "a")?,
        spec: promising(true),
        body: Stmt::Skip(8),
    })?;
    parts.push(Part {
        name: String::from_str(alloc, "b")?,
        spec: promising(true),
        body: Stmt::Skip(11),
    })?;
    Ok(Program {
        layout: Layout::new(alloc),
        spec: promising(post),
        parts,
    })
}

/// The listing of the code of the two parts.
const LISTING: &[u8] =
    b"{\"parts\":[{\"blocks\":[[\"do\",8,1,[]],[\"end\"]],\"name\":\"a\"},{\"blocks\":[[\"do\",11,1,[]],[\"end\"]],\"name\":\"b\"}],\"words\":[]}\n";

/// Whether the two parts have their code.
fn has_code(alloc: Global) -> Result<bool, Refusal> {
    let program = two_skips(alloc, true)?;
    let emitted = build_program(alloc, program, LINES, b"")?;
    let listing = listing_text(alloc, emitted.code())?;
    Ok(listing.as_bytes() == LISTING && emitted.program().parts.len() == 2)
}

#[test]
fn an_accepted_program_has_code(rt: HostRuntime) -> Result<(), Fail> {
    assert!(rt; has_code(rt.alloc())?);
    Ok(())
}

/// The fault of a derivation and proofs for the two parts; none where they are accepted.
fn fault_of(alloc: Global, derivation: &[u8], proofs: &[u8]) -> Option<Refusal> {
    let program = two_skips(alloc, true).ok()?;
    accept_program(alloc, program, derivation, proofs).err()
}

/// A fault at a line of a file.
fn at_line(number: RefusalNumber, file: SourceFile, line: u64) -> Option<Refusal> {
    Some(Refusal::at(number, file, Place::Line(line)))
}

#[test]
fn the_first_fault_of_both_files_is_reported(rt: HostRuntime) {
    let proofs = b"section 1\nc nothing\nsection 17";
    assert!(rt; fault_of(rt.alloc(), LINES, proofs).is_none());
    let unknown = at_line(RefusalNumber::UnknownCondition, SourceFile::Proofs, 2);
    assert!(rt; fault_of(rt.alloc(), LINES, b"\nsection 18") == unknown);
    let not_derived = at_line(RefusalNumber::PartNotDerived, SourceFile::Derivation, 1);
    assert!(rt; fault_of(rt.alloc(), b"", b"section 18") == not_derived);
}

/// The two parts with their derivation, where the program promises a post.
fn derived(alloc: Global, post: bool) -> Result<Derived, Refusal> {
    let program = two_skips(alloc, post)?;
    Derived::read(alloc, program, LINES)
}

/// Whether the text of conditions begins with the pre and the first condition's name.
fn names_conditions(alloc: Global, derived: &Derived) -> bool {
    match conditions_text(alloc, derived, Format::Plain) {
        Ok(text) => text.as_bytes().starts_with(b"pre true\n1 line 1 re"),
        Err(_) => false,
    }
}

#[test]
fn conditions_are_named(rt: HostRuntime) -> Result<(), Fail> {
    let derived = derived(rt.alloc(), true)?;
    assert!(rt; names_conditions(rt.alloc(), &derived));
    Ok(())
}

/// Whether the search for proofs of the two parts ends so: with proofs where the program promises what it keeps.
fn ends_so<R: Threads + Wait + Sync>(
    rt: &R,
    alloc: Global,
    post: bool,
    text: &str,
) -> Result<bool, Refusal> {
    let derived = derived(alloc, post)?;
    match find_proofs(rt, alloc, 1, &derived, 100, &Unwatched)? {
        ProofsFound::Proofs(found) => Ok(post && found.len() == 1 && found[0].as_str() == text),
        ProofsFound::Failures(unproved) => {
            let reported = failures_text(alloc, &derived, &unproved)?;
            Ok(!post && reported.as_str() == text)
        }
    }
}

#[test]
fn proofs_are_found_or_failures_reported(rt: HostRuntime) -> Result<(), Fail> {
    assert!(rt; ends_so(&rt, rt.alloc(), true, "")?);
    assert!(rt;
        ends_so(
            &rt,
            rt.alloc(),
            false,
            "condition 17 all post fails\nbefore\n"
        )?
    );
    Ok(())
}
