//! The files that an outline uses: they are read, and stand before it in one text.

use crate::input::{INPUT, read};
use rg_outline_syntax::{
    Fault, MOST_FILES, SEPARATOR, Span, UseFault, push_file, uses_of, without_quotes,
};
use rg_words::limits::MOST_TEXT_BYTES;
use std::alloc::AllocError;
use std::io::ErrorKind;
use std::path::Path;

/// A file whose uses are followed.
#[derive(Drop)]
struct Open {
    name: String,
    /// Its name as its head line has it: none where it is the outline's own file.
    head: Vec<u8>,
    bytes: Vec<u8>,
    /// The names of the files that it uses, in quotes, and how many of them were followed.
    uses: Vec<Span>,
    followed: usize,
}

/// An outline with all files that it uses.
#[derive(Drop)]
pub struct Joined {
    /// Their text.
    pub text: Vec<u8>,
    /// Why a file can't be used; the text then ends with the file that uses it.
    pub fault: Option<Fault>,
    /// The files whose uses are followed: each uses the next one.
    open: Vec<Open>,
    /// The names of all files so far, the outline's own first.
    names: Vec<String>,
}

/// Whether a name leads to a file in a folder or below it, in one way alone.
fn is_inside(name: &str) -> bool {
    name.split('/').all(|step| !matches!(step, "" | "." | ".."))
}

/// The first byte that separates files, which stands in none.
fn separator_in(bytes: &[u8]) -> Option<Span> {
    let start = bytes.iter().position(|byte| *byte == SEPARATOR)?;
    let end = start.saturating_add(1);
    Some(Span { start, end })
}

/// The name of a used file, from that of the file that uses it and what stands there in quotes; or why there is none.
fn name_of(
    rt: &HostRuntime,
    user: &str,
    quoted: &[u8],
) -> Result<Result<String, UseFault>, AllocError> {
    let name = match str::from_utf8(without_quotes(quoted)) {
        Ok(name) if is_inside(name) => name,
        Ok(_) => return Ok(Err(UseFault::Outside)),
        Err(_) => return Ok(Err(UseFault::Unread)),
    };
    let folder = Path::new(user).parent().unwrap_or(Path::new(""));
    let path = folder.join(rt.alloc(), name)?;
    let path = match path.as_str() {
        // (a file of this name, which is no standard input)
        INPUT => "./-",
        path => path,
    };
    Ok(Ok(String::from_str(rt.alloc(), path)?))
}

/// A name as a head line has it, which it neither begins nor ends.
fn in_head(rt: &HostRuntime, name: &str) -> Result<Vec<u8>, AllocError> {
    let mut shown = Vec::from_slice(rt.alloc(), name.as_bytes())?;
    for byte in shown.iter_mut() {
        if matches!(*byte, SEPARATOR | b'\n') {
            *byte = b'?';
        }
    }
    Ok(shown)
}

impl Joined {
    /// The names of the used files.
    pub fn used(&self) -> &[String] {
        self.names.get(1..).unwrap_or(&[])
    }

    /// The outline of this name with these bytes, and all files that it uses.
    pub fn of(rt: &HostRuntime, name: &str, bytes: &[u8]) -> Result<Joined, AllocError> {
        let mut joined = Joined {
            text: Vec::new(rt.alloc()),
            fault: None,
            open: Vec::new(rt.alloc()),
            names: Vec::new(rt.alloc()),
        };
        let name = String::from_str(rt.alloc(), name)?;
        let bytes = Vec::from_slice(rt.alloc(), bytes)?;
        joined.begin(rt, name, bytes)?;
        for _ in 0..u64::MAX {
            match joined.next_use() {
                Some(used) => joined.follow(rt, used)?,
                None if joined.open.is_empty() => break,
                None => joined.close()?,
            }
        }
        Ok(joined)
    }

    /// The next use of the last open file, which is followed from now on.
    fn next_use(&mut self) -> Option<Span> {
        let file = self.open.last_mut()?;
        let used = file.uses.get(file.followed).copied();
        file.followed = file.followed.saturating_add(1);
        used
    }

    /// Begins to follow the uses of a file.
    fn begin(&mut self, rt: &HostRuntime, name: String, bytes: Vec<u8>) -> Result<(), AllocError> {
        let uses = uses_of(rt.alloc(), &bytes)?;
        let separator = separator_in(&bytes);
        let head = match self.open.last() {
            Some(_) => in_head(rt, &name)?,
            None => Vec::new(rt.alloc()),
        };
        self.names.push(name.clone()?)?;
        self.open.push(Open {
            name,
            head,
            bytes,
            uses,
            followed: 0,
        })?;
        match separator {
            Some(place) => self.refuse(UseFault::Separator, place),
            None => Ok(()),
        }
    }

    /// Adds the last open file to the text.
    fn close(&mut self) -> Result<(), AllocError> {
        let Some(file) = self.open.pop() else {
            return Ok(());
        };
        if self.open.is_empty() && self.text.is_empty() {
            return self.text.extend_from_slice(&file.bytes);
        }
        push_file(&mut self.text, &file.head, &file.bytes)
    }

    /// Keeps a fault at a place of the last open file, and ends.
    fn refuse(&mut self, fault: UseFault, place: Span) -> Result<(), AllocError> {
        let Some(file) = self.open.pop() else {
            return Ok(());
        };
        push_file(&mut self.text, &file.head, &file.bytes)?;
        let before = self.text.len().saturating_sub(file.bytes.len());
        let span = Span {
            start: place.start.saturating_add(before),
            end: place.end.saturating_add(before),
        };
        self.fault = Some(Fault::of_use(fault, span));
        self.open.clear();
        Ok(())
    }

    /// The name of the file that the last open one uses here; or why there is none.
    fn name_at(
        &self,
        rt: &HostRuntime,
        used: Span,
    ) -> Result<Result<String, UseFault>, AllocError> {
        match self.open.last() {
            Some(user) => name_of(rt, &user.name, used.of(&user.bytes)),
            None => Ok(Err(UseFault::Unread)),
        }
    }

    /// Reads the file that the last open one uses here, unless it was read before.
    fn follow(&mut self, rt: &HostRuntime, used: Span) -> Result<(), AllocError> {
        let name = match self.name_at(rt, used)? {
            Ok(name) => name,
            Err(fault) => return self.refuse(fault, used),
        };
        if self.open.iter().any(|file| file.name == name) {
            return self.refuse(UseFault::Circular, used);
        }
        if self.names.contains(&name) {
            return Ok(());
        }
        if self.names.len() >= MOST_FILES {
            return self.refuse(UseFault::TooManyFiles, used);
        }
        match read(rt, &name, MOST_TEXT_BYTES) {
            Ok(bytes) => self.begin(rt, name, bytes),
            Err(error) => match error.kind() {
                ErrorKind::OutOfMemory => Err(AllocError),
                ErrorKind::NotFound => self.refuse(UseFault::NoFile, used),
                _ => self.refuse(UseFault::Unread, used),
            },
        }
    }
}

/// The outline of this name with all files that it uses; none where there is none, or it can't be read.
pub fn joined_of(
    rt: &HostRuntime,
    name: Option<&str>,
    own: Option<&[u8]>,
) -> Result<Option<Joined>, AllocError> {
    match (name, own) {
        (Some(name), Some(own)) => Ok(Some(Joined::of(rt, name, own)?)),
        _ => Ok(None),
    }
}
