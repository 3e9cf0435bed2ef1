//! Reports as JSON, one value a line.

use crate::broken::{Breach, Breaks};
use crate::files::OutlineSource;
use crate::reports::{Cause, Detail, DetailKind, Moved, Report};
use crate::run::{push_broken, push_start, push_step};
use rg_outline::Expansion;
use rg_outline_syntax::{Span, file_of};
use rg_walk::{Bound, BreakingRun, Unbroken};
use serde_json::{Map, Value};
use std::alloc::{AllocError, Global};

/// A text, with what is no UTF-8 replaced.
fn text_value(alloc: Global, text: &[u8]) -> Result<Value, AllocError> {
    Ok(Value::String(String::from_utf8_lossy(alloc, text)?))
}

/// A JSON object that is filled member by member. It notes that memory was refused, so that nothing is handed on at each member.
#[derive(Drop)]
pub(crate) struct JsonObject {
    alloc: Global,
    members: Map<String, Value>,
    /// The items of the list that is the next member.
    items: Vec<Value>,
    is_short: bool,
}

impl JsonObject {
    /// An object without members.
    fn new(alloc: Global) -> Self {
        JsonObject {
            alloc,
            members: Map::new(alloc),
            items: Vec::new(alloc),
            is_short: false,
        }
    }

    /// An object of a kind.
    pub(crate) fn of_kind(alloc: Global, kind: &[u8]) -> Self {
        let mut object = JsonObject::new(alloc);
        object.put_text("kind", kind);
        object
    }

    /// Adds a member, or notes that memory was refused.
    fn put(&mut self, key: &str, value: Result<Value, AllocError>) {
        let is_put = match (String::from_str(self.alloc, key), value) {
            (Ok(key), Ok(value)) => self.members.insert(key, value).is_ok(),
            _ => false,
        };
        self.is_short |= !is_put;
    }

    /// Adds a text.
    pub(crate) fn put_text(&mut self, key: &str, text: &[u8]) {
        self.put(key, text_value(self.alloc, text));
    }

    /// Adds a number.
    pub(crate) fn put_count(&mut self, key: &str, count: u64) {
        self.put(key, Ok(Value::from(count)));
    }

    /// Adds `true` or `false`.
    fn put_flag(&mut self, key: &str, flag: bool) {
        self.put(key, Ok(Value::from(flag)));
    }

    /// Adds an item to the list that is the next member.
    fn add_item(&mut self, item: Result<Value, AllocError>) {
        let is_put = match item {
            Ok(item) => self.items.push(item).is_ok(),
            Err(_) => false,
        };
        self.is_short |= !is_put;
    }

    /// Adds a text to the list that is the next member.
    fn add_text(&mut self, text: &[u8]) {
        self.add_item(text_value(self.alloc, text));
    }

    /// Adds the list of the items that were added since the last one.
    fn put_items(&mut self, key: &str) {
        let alloc = self.alloc;
        let items = std::mem::replace(&mut self.items, Vec::new(alloc));
        self.put(key, Ok(Value::Array(items)));
    }

    /// Adds where something is: the file, the line and the column. `own` is the name of the outline's own file.
    pub(crate) fn put_place(&mut self, own: &[u8], source: &[u8], place: Span) {
        let position = place.position(source);
        let used = file_of(source, place);
        self.put_text("file", if used.is_empty() { own } else { used });
        self.put_count("line", position.line as u64);
        self.put_count("column", position.column as u64);
    }

    /// Adds the details of a kind as a list: their texts; of names also the lines of what they name, with the files of these where they are used ones.
    fn put_details_of(&mut self, key: &str, source: &[u8], details: &[Detail], kind: DetailKind) {
        for detail in details {
            if detail.kind == kind && kind == DetailKind::Name {
                let mut object = JsonObject::new(self.alloc);
                object.put_text("name", &detail.text);
                object.put_count("line", detail.place.position(source).line as u64);
                let used = file_of(source, detail.place);
                if !used.is_empty() {
                    object.put_text("file", used);
                }
                self.add_item(object.value());
            } else if detail.kind == kind {
                self.add_text(&detail.text);
            }
        }
        self.put_items(key);
    }

    /// Adds the conjunct that is false, null where there is none, the premises that hold, and the names within which it stands.
    fn put_details(&mut self, source: &[u8], details: &[Detail]) {
        match details
            .iter()
            .find(|detail| detail.kind == DetailKind::Conjunct)
        {
            Some(detail) => self.put_text("conjunct", &detail.text),
            None => self.put("conjunct", Ok(Value::Null)),
        }
        self.put_details_of("premises", source, details, DetailKind::Premise);
        self.put_details_of("within", source, details, DetailKind::Name);
    }

    /// The object with all its members; an error where memory was refused for one of them.
    fn value(self) -> Result<Value, AllocError> {
        let JsonObject {
            members,
            is_short,
            ..
        } = self;
        if is_short {
            return Err(AllocError);
        }
        Ok(Value::Object(members))
    }

    /// Adds it to a text as a line.
    ///
    /// # Errors
    ///
    /// `AllocError` where memory is refused; the text is then of no use. So it is of the calls below.
    pub(crate) fn push_to(self, text: &mut Vec<u8>) -> Result<(), AllocError> {
        let alloc = self.alloc;
        let value = self.value()?;
        let line = value.to_string(alloc)?;
        text.extend_from_slice(line.as_bytes())?;
        text.push(b'\n')?;
        Ok(())
    }
}

/// Adds a report.
pub(crate) fn push_json(
    expansion: &Expansion<'_>,
    text: &mut Vec<u8>,
    report: &Report,
    own: &[u8],
) -> Result<(), AllocError> {
    let scope = &expansion.scope;
    let kind: &[u8] = match report.key.cause {
        Cause::Unproved => b"unproved",
        Cause::Warned(_) => b"warning",
        _ => b"false",
    };
    let values: &[u8] = match report.moved {
        Moved::Nothing => b"nothing",
        Moved::State => b"state",
        Moved::Step => b"step",
        Moved::StepOfOthers => b"step of others",
    };
    let mut object = JsonObject::of_kind(scope.alloc, kind);
    object.put_place(own, scope.source, report.place);
    for part in &report.parts {
        object.add_text(expansion.part_names.at(*part));
    }
    object.put_items("parts");
    object.put_text("sentence", &report.sentence);
    object.put_text("values", values);
    object.put_details(scope.source, &report.details);
    for valued in &report.values {
        let mut value = JsonObject::new(scope.alloc);
        value.put_text("word", scope.shown.at(valued.word));
        value.put_count("before", valued.before);
        value.put_count("after", valued.after);
        object.add_item(value.value());
    }
    object.put_items("words");
    object.put_details_of("hints", scope.source, &report.details, DetailKind::Hint);
    object.push_to(text)
}

/// Adds a run that breaks the specification, the invariant or what a part promises: which of these, and all its steps, each as its line has it; then what
/// is broken, with its first conjunct that is false, the premises that hold, and what it stands within. No file is named where its name has no bytes.
pub(crate) fn push_json_of_run(
    expansion: &Expansion<'_>,
    text: &mut Vec<u8>,
    file: &[u8],
    run: &BreakingRun,
) -> Result<(), AllocError> {
    let breach = Breach::of(expansion, run)?;
    let breaks: &[u8] = match breach.breaks {
        Breaks::Specification => b"specification",
        Breaks::Invariant => b"invariant",
        Breaks::Part => b"part",
    };
    let mut line = Vec::new(expansion.scope.alloc);
    let mut object = JsonObject::of_kind(expansion.scope.alloc, b"run");
    if !file.is_empty() {
        object.put_text("file", file);
    }
    object.put_text("breaks", breaks);
    object.is_short |= push_start(expansion, &mut line, &run.start).is_err();
    object.put_text("start", &line);
    let mut before = &run.start;
    for step in &run.steps {
        line.clear();
        object.is_short |= push_step(expansion, &mut line, before, step).is_err();
        object.add_text(&line);
        before = &step.after;
    }
    object.put_items("steps");
    line.clear();
    object.is_short |= push_broken(expansion, &mut line, run).is_err();
    object.put_text("broken", &line);
    object.put_details(expansion.scope.source, &breach.details);
    object.push_to(text)
}

/// Adds that no run was found that breaks the specification, and how far was looked.
pub(crate) fn push_json_of_not_found(
    text: &mut Vec<u8>,
    alloc: Global,
    file: &[u8],
    unbroken: Unbroken,
) -> Result<(), AllocError> {
    let bound: &[u8] = match unbroken.ended_by {
        None => b"none",
        Some(Bound::Steps) => b"steps",
        Some(Bound::Bytes) => b"memory",
        Some(Bound::Seconds) => b"seconds",
    };
    let mut object = JsonObject::of_kind(alloc, b"no-run");
    object.put_text("file", file);
    object.put_count("steps", unbroken.steps);
    object.put_count("states", unbroken.states);
    object.put_count("depth", unbroken.depth);
    object.put_count("starts", unbroken.starts);
    object.put_flag("all_starts", unbroken.are_all_starts);
    object.put_flag("all", unbroken.is_all);
    object.put_flag("without_others", unbroken.is_without_others);
    object.put_text("ended_by", bound);
    object.push_to(text)
}

/// A change of an outline's program.
#[derive(Clone, Copy)]
pub struct ChangeEntry<'a> {
    /// What is changed.
    pub place: Span,
    /// How it is changed.
    pub change: &'a [u8],
    /// Which words it touches.
    pub group: &'a str,
    /// What is known of the changed program.
    pub answer: &'a str,
    /// The run that breaks the specification, as a JSON value in a line of its own; no bytes where there is none.
    pub run: &'a [u8],
}

/// How many changes have each answer.
#[derive(Clone, Copy)]
pub struct ChangeCounts {
    pub surviving: u64,
    pub breaking: u64,
    pub undecided: u64,
}

/// Puts the run as the last member of the object that ends the text, which is a line.
fn put_run(text: &mut Vec<u8>, run: &[u8]) -> Result<(), AllocError> {
    let Some(run) = run.strip_suffix(b"\n") else {
        return Ok(());
    };
    text.truncate(text.len().saturating_sub(2));
    text.extend_from_slice(b",\"run\":")?;
    text.extend_from_slice(run)?;
    text.extend_from_slice(b"}\n")
}

/// Adds a change of an outline's program, as a challenge reports it.
///
/// # Errors
///
/// `AllocError` where memory is refused; the text is then of no use. So it is of the call below.
pub fn push_json_of_change(
    text: &mut Vec<u8>,
    alloc: Global,
    outline: OutlineSource<'_>,
    entry: ChangeEntry<'_>,
) -> Result<(), AllocError> {
    let mut object = JsonObject::of_kind(alloc, b"change");
    object.put_place(outline.name.as_bytes(), outline.source, entry.place);
    object.put_text("change", entry.change);
    object.put_text("group", entry.group.as_bytes());
    object.put_text("answer", entry.answer.as_bytes());
    object.push_to(text)?;
    put_run(text, entry.run)
}

/// Adds how many changes have each answer, and the names of the words of which nothing is said.
pub fn push_json_of_changes(
    text: &mut Vec<u8>,
    alloc: Global,
    outline: OutlineSource<'_>,
    counts: ChangeCounts,
    unspoken: &[Span],
) -> Result<(), AllocError> {
    let mut object = JsonObject::of_kind(alloc, b"challenged");
    object.put_text("file", outline.name.as_bytes());
    object.put_count("surviving", counts.surviving);
    object.put_count("breaking", counts.breaking);
    object.put_count("undecided", counts.undecided);
    for name in unspoken {
        object.add_text(name.of(outline.source));
    }
    object.put_items("unspoken");
    object.push_to(text)
}
