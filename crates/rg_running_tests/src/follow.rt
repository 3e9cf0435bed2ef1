//! What `follows` says of traces of small programs over the words x and y, with the expected answers written by hand; and that the machine does
//! just those that it says are runs.

ghost use Rattle.std.specs.Prelude.{◌≡◌};
ghost use Rattle.rg_machine.specs.Replay.{EventFits};

use crate::programs::EACH_SETS_A_WORD;
use rg_code::compile::compile;
use rg_machine::config::Config;
use rg_machine::event::Event;
use rg_parse::{program, show, start};
use rg_runs::{Step, Trace, follows};
use rg_tree::program::Program;
use rg_words::{Layout, Refusal, State};
use std::alloc::Global;
use std::process::Abort;
use std::test::Fail;

/// A trace: each step by who makes it and the state that it leads to, where a word that isn't named is 0.
type Steps<'a> = &'a [(usize, &'a str)];

/// The trace of these steps from a first state.
fn trace(alloc: Global, layout: &Layout, first: &str, steps: Steps) -> Result<Trace, Refusal> {
    let mut all = Vec::new(alloc);
    for (who, after) in steps {
        all.push(Step {
            who: *who,
            after: start(alloc, layout, after.as_bytes())?,
        })?;
    }
    Ok(Trace {
        first: start(alloc, layout, first.as_bytes())?,
        steps: all,
    })
}

/// What `follows` says of a program and of a trace over the words of a layout: that it is no run, or whether the run has ended.
fn answer(
    alloc: Global,
    read: &Program,
    layout: &Layout,
    first: &str,
    steps: Steps,
) -> Result<Option<bool>, Refusal> {
    let trace = trace(alloc, layout, first, steps)?;
    Ok(follows(alloc, read, &trace)?)
}

/// Whether the machine does this event, and then stands in this state.
fn does(config: &mut Config, event: Event, after: &State) -> bool
    requires { EventFits config.old event }
    ensures words { config.new.words ≡ config.old.words }
    ensures codes { config.new.codes ≡ config.old.codes }
{
    let events = [event];
    config.replay(events.as_slice()) == 1 && config.words().same(after)
}

/// Whether the machine does this step, and then stands in the state that it leads to.
fn does_step(
    alloc: Global,
    config: &mut Config,
    layout: &Layout,
    who: usize,
    after: &str,
) -> Result<bool, Refusal>
    requires { config.old.words ≡ layout.now }
    ensures { config.new.words ≡ layout.now }
{
    let after = start(alloc, layout, after.as_bytes())?;
    if who == 0 {
        let event = Event::Environment(after.copy()?);
        return Ok(does(config, event, &after));
    }
    Ok(who <= config.parts() && does(config, Event::Part(who), &after))
}

/// Whether the machine does all of these steps in order, each into its state.
fn does_all(alloc: Global, read: &Program, first: &str, steps: Steps) -> Result<bool, Refusal> {
    let code = compile(alloc, read)?;
    let first = start(alloc, &read.layout, first.as_bytes())?;
    let mut config = Config::new(alloc, &code, first)?;
    for (who, after) in steps {
        if !does_step(alloc, &mut config, &read.layout, *who, after)? {
            return Ok(false);
        }
    }
    Ok(true)
}

/// A trace, and what is said of it.
type JudgedTrace<'a> = (Steps<'a>, Option<bool>);

/// Of each trace of a program this is said, and the machine does just the runs.
fn expect(
    rt: &impl Abort,
    alloc: Global,
    read: &Program,
    first: &str,
    traces: &[JudgedTrace],
) -> Result<(), Fail> {
    for (steps, ended) in traces {
        let found = answer(alloc, read, &read.layout, first, steps)?;
        let is_done = does_all(alloc, read, first, steps)?;
        assert!(rt; found == *ended && is_done == ended.is_some());
    }
    Ok(())
}

const ASSIGNMENT: &str = "words x:2 y:2 pre true rely true guar true post true
part p pre true rely true guar true post true begin x := 1 end";

/// Programs, each with the first state of its traces, and these.
const PROGRAMS: &[(&str, &str, &[JudgedTrace<'static>])] = &[
    // An assignment is one step.
    (
        ASSIGNMENT,
        "",
        &[
            (&[], Some(false)),
            (&[(1, "x = 1")], Some(true)),
            (&[(1, "")], None),
            (&[(1, "x = 1"), (1, "x = 1")], None),
            (
                &[(0, "x = 3 y = 2"), (1, "x = 1 y = 2"), (0, "")],
                Some(true),
            ),
            (&[(2, "x = 1")], None),
        ],
    ),
    // Items are done in order.
    (
        "words x:2 y:2 pre true rely true guar true post true
part p pre true rely true guar true post true begin x := 1; if (x = 1) then skip; x := 2 else skip end end",
        "",
        &[
            (
                &[(1, "x = 1"), (1, "x = 1"), (1, "x = 1"), (1, "x = 2")],
                Some(true),
            ),
            (&[(1, "x = 1"), (0, ""), (1, ""), (1, "")], Some(true)),
            (&[(1, "x = 1"), (1, "x = 1"), (1, "x = 2")], None),
            (&[(1, "x = 1"), (1, "x = 1")], Some(false)),
        ],
    ),
    // An await waits for its guard.
    (
        "words x:2 y:2 pre true rely true guar true post true
part p pre true rely true guar true post true begin await (x = 1) do x := 2; y := x end end",
        "",
        &[
            (&[(1, "x = 2 y = 2")], None),
            (&[(0, "x = 1 y = 3"), (1, "x = 2 y = 2")], Some(true)),
            (&[(0, "x = 1 y = 3"), (1, "x = 2 y = 1")], None),
            (&[(0, "x = 1 y = 3"), (0, "")], Some(false)),
        ],
    ),
    // A loop ends by a test.
    (
        "words x:2 y:2 pre true rely true guar true post true
part p pre true rely true guar true post true begin while (x = 0) do x := 1 end end",
        "",
        &[
            (&[(1, ""), (1, "x = 1"), (1, "x = 1")], Some(true)),
            (&[(1, ""), (1, "x = 1")], Some(false)),
            (&[(0, "x = 2"), (1, "x = 2")], Some(true)),
            (
                &[
                    (1, ""),
                    (0, "y = 1"),
                    (1, "x = 1 y = 1"),
                    (0, "y = 1"),
                    (1, "y = 1"),
                ],
                Some(false),
            ),
            (&[(1, "x = 1")], None),
        ],
    ),
    // Parts take turns.
    (
        "words x:2 y:2 pre true rely true guar true post true
part p pre true rely true guar true post true begin x := 1 end
part q pre true rely true guar true post true begin y := x end",
        "",
        &[
            (&[], Some(false)),
            (&[(1, "x = 1")], Some(false)),
            (&[(1, "x = 1"), (2, "x = 1 y = 1")], Some(true)),
            (&[(2, ""), (1, "x = 1")], Some(true)),
            (&[(1, "")], None),
            (&[(0, "x = 1 y = 1")], Some(false)),
            (&[(3, "x = 1 y = 1")], None),
        ],
    ),
    // Each part sets a word.
    (
        EACH_SETS_A_WORD,
        "",
        &[
            (&[], Some(false)),
            (&[(1, "x = 1")], Some(false)),
            (&[(1, "x = 1"), (2, "x = 1 y = 1")], Some(true)),
            (&[(1, "")], None),
            (&[(0, "x = 1 y = 1")], Some(false)),
        ],
    ),
    // Fixed words stay.
    (
        "words x:2 fixed y:2 pre true rely true guar true post true
part p pre true rely true guar true post true begin x := 1 end",
        "x = 1 y = 1",
        &[
            (&[(0, "x = 1 y = 2")], None),
            (&[(0, "x = 3 y = 1")], Some(false)),
            (&[(1, "x = 1 y = 1")], Some(true)),
        ],
    ),
];

#[test]
fn follows_is_some_where_the_machine_does_the_trace(rt: HostRuntime) -> Result<(), Fail> {
    for (text, first, traces) in PROGRAMS {
        let read = program(rt.alloc(), text.as_bytes())?;
        expect(&rt, rt.alloc(), &read, first, traces)?;
    }
    Ok(())
}

/// What `follows` says of a program and of a trace without steps, whose first state is of the words that another text declares.
fn answer_of_words(
    alloc: Global,
    read: &Program,
    declared: &str,
    first: &str,
) -> Result<Option<bool>, Refusal> {
    let (layout, _goal) = show(alloc, declared.as_bytes())?;
    answer(alloc, read, &layout, first, &[])
}

#[test]
fn a_state_of_other_words_is_none(rt: HostRuntime) -> Result<(), Fail> {
    let rows = [
        ("words x:3 show true", "", None),
        ("words x:3 y:3 show true", "", Some(false)),
        ("words x:3 y:3 show true", "y = 4", None),
    ];
    let read = program(rt.alloc(), ASSIGNMENT.as_bytes())?;
    for (declared, first, ended) in &rows {
        assert!(rt; answer_of_words(rt.alloc(), &read, declared, first)? == *ended);
    }
    Ok(())
}
