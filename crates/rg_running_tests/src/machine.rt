//! What the machine does with the code of small programs, with the expected answers written by hand.

use rg_code::code::Code;
use rg_code::compile::compile;
use rg_machine::config::Config;
use rg_machine::event::Event;
use rg_parse::{program, start};
use rg_words::Refusal;
use std::alloc::{AllocError, Global};
use std::process::Abort;
use std::test::Fail;

/// The code of the program that a text spells.
fn code_of(alloc: Global, text: &str) -> Result<Code, Refusal> {
    let read = program(alloc, text.as_bytes())?;
    Ok(compile(alloc, &read)?)
}

/// The configuration at which all words are 0.
fn begin(alloc: Global, code: &Code) -> Result<Config<'_>, Refusal> {
    let zero = start(alloc, &code.layout, b"")?;
    Ok(Config::new(alloc, code, zero)?)
}

/// The values of two words, and for each of two parts whether it is at its end and the line at which it stands.
type Seen = ((u64, u64), [(bool, u32); 2]);

/// What a configuration shows.
fn seen(rt: &impl Abort, config: &Config) -> Seen {
    let state = config.words();
    assert!(rt; state.len() == 2);
    assert!(rt; config.parts() == 2);
    let ends = [
        (config.at_end(1), config.line(1)),
        (config.at_end(2), config.line(2)),
    ];
    ((state.get(0), state.get(1)), ends)
}

/// Whether a configuration and its copy are at the ends of both parts, with these values of the words.
fn is_over(rt: &impl Abort, config: &Config, values: (u64, u64)) -> Result<bool, AllocError> {
    let copy = config.copy()?;
    let over = (values, [(true, 0), (true, 0)]);
    Ok(seen(rt, config) == over && seen(rt, &copy) == over)
}

const TWO_ASSIGNMENTS: &str = "words x:1 y:1 pre true rely true guar true post true
part a pre true rely true guar true post true begin
x := 1 end part b pre true rely true guar true post true begin y := 1 end";

/// How many happen of these: a step of the first part, that the environment puts back the words of the beginning, a step of the
/// second part, and another one of the first.
fn replayed(rt: &impl Abort, config: &mut Config) -> Result<usize, AllocError> {
    assert!(rt; config.parts() == 2);
    let state = config.words().copy()?;
    let events = [
        Event::Part(1),
        Event::Environment(state),
        Event::Part(2),
        Event::Part(1),
    ];
    Ok(config.replay(events.as_slice()))
}

#[test]
fn events_happen_up_to_the_first_that_can_not(rt: HostRuntime) -> Result<(), Fail> {
    let code = code_of(rt.alloc(), TWO_ASSIGNMENTS)?;
    let mut config = begin(rt.alloc(), &code)?;
    assert!(rt; seen(&rt, &config) == ((0, 0), [(false, 3), (false, 3)]));
    let done = replayed(&rt, &mut config)?;
    assert!(rt; done == 3 && is_over(&rt, &config, (0, 1))?);
    Ok(())
}

const AWAIT: &str = "words x:1 y:1 pre true rely true guar true post true
part a pre true rely true guar true post true begin
await (x = 1) do y := 1 end end
part b pre true rely true guar true post true begin
x := 1 end";

/// How many happen of a step of the first part and then one of the second, or the other way round.
fn steps_done(rt: &impl Abort, config: &mut Config, first_leads: bool) -> usize {
    assert!(rt; config.parts() == 2);
    if first_leads {
        return config.replay([Event::Part(1), Event::Part(2)].as_slice());
    }
    config.replay([Event::Part(2), Event::Part(1)].as_slice())
}

#[test]
fn an_await_waits_for_another_part(rt: HostRuntime) -> Result<(), Fail> {
    let code = code_of(rt.alloc(), AWAIT)?;
    let mut config = begin(rt.alloc(), &code)?;
    let waits = config.parts() == 2 && !config.can_step(1);
    let blocked = steps_done(&rt, &mut config, true);
    assert!(rt; waits && blocked == 0 && seen(&rt, &config) == ((0, 0), [(false, 3), (false, 5)]));
    let free = steps_done(&rt, &mut config, false);
    assert!(rt; free == 2 && is_over(&rt, &config, (1, 1))?);
    Ok(())
}
