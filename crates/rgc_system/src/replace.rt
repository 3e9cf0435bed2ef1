//! The files that a command writes, each of which is replaced by a whole new one, or written straight where it is no regular file.

use crate::faults::report_failure;
use crate::place::{are_same, end_of, is_standard_output};
use crate::screen::Screen;
use rg_words::write_all;
use std::alloc::AllocError;
use std::fs::{File, Metadata, OpenOptions, Permissions};
use std::io::{Error, ErrorKind, Write};
use std::os::unix::fs::{MetadataExt, OpenOptionsExt, PermissionsExt, fchown};
use std::path::{Path, PathBuf};
use std::random::RandomSource;
use std::{fs, io};

/// A file that is to be written: its name as it was given, what stands in it then, and what it is called where it can't be written.
#[derive(Clone, Copy)]
pub struct Output<'a> {
    pub name: &'a str,
    pub bytes: &'a [u8],
    pub what: &'a str,
}

/// Adds a file that may not be named.
pub fn add_output<'a>(
    outputs: &mut Vec<Output<'a>>,
    name: Option<&'a str>,
    bytes: &'a [u8],
    what: &'static str,
) -> Result<(), AllocError> {
    if let Some(name) = name {
        outputs.push(Output { name, bytes, what })?;
    }
    Ok(())
}

/// Adds the files that pieces go to; those without a piece are empty.
pub fn add_pieces<'a>(
    outputs: &mut Vec<Output<'a>>,
    names: &[&'a str],
    pieces: &[&'a [u8]],
    what: &'static str,
) -> Result<(), AllocError> {
    for (index, name) in names.iter().enumerate() {
        let bytes = pieces.get(index).copied().unwrap_or(&[]);
        outputs.push(Output { name, bytes, what })?;
    }
    Ok(())
}

/// Where the bytes of an output go.
#[derive(Drop)]
enum Place {
    /// To the standard output, which is the file that is named.
    Printed,
    /// To what is named as it stands: no regular file, or one that a process has open.
    Straight { is_file: bool },
    /// To a new file, where they stand already; it then takes the name of the target.
    Beside { file: PathBuf, target: PathBuf },
}

/// The mode of a file that is made, of which the system takes off what the user's mask says; and of one that takes the place of another, until
/// it has the mode of that.
const NEW_MODE: u32 = 0o666;

const OWN_MODE: u32 = 0o600;

/// How often an output is looked for, where other calls replace its file.
const MOST_LOOKS: usize = 16;

/// The bits of a mode that say who may do what; and those of them by which nobody gets the rights of the owner.
const MODE_BITS: u32 = 0o7777;

const PLAIN_BITS: u32 = 0o777;

/// A name beside a file that nobody can guess.
fn fresh_name(rt: &HostRuntime) -> io::Result<String> {
    let mut bytes = [0_u8; 8];
    rt.fill_bytes(&mut bytes)?;
    let number = u64::from_le_bytes(bytes);
    Ok(format!(in rt.alloc(); ".rgc.{number:016x}")?)
}

/// Makes a new file in the folder of the target, and opens it; no link of its name is followed.
fn fresh(rt: &HostRuntime, target: Path<'_>, mode: u32) -> io::Result<(File, PathBuf)> {
    let name = fresh_name(rt)?;
    let path = target.with_file_name(rt.alloc(), name.as_str())?;
    let file = OpenOptions::new()
        .write(true)
        .create_new(true)
        .mode(mode)
        .open(rt, path.as_path())?;
    Ok((file, path))
}

/// The mode that a file takes over from an older one. Without its owner it gives nobody the rights of who has it now, and without its group no
/// group more than all have.
fn mode_from(older: u32, has_owner: bool, has_group: bool) -> u32 {
    if has_owner {
        return older & MODE_BITS;
    }
    if has_group {
        return older & PLAIN_BITS;
    }
    older & (0o707 | ((older & 0o007) << 3))
}

/// Gives a file the owner and the group of an older one, where the process may, and its mode.
fn take_over(file: &File, older: &Metadata) -> io::Result<()> {
    let has_owner = fchown(file, Some(older.uid()), Some(older.gid())).is_ok();
    let has_group = has_owner || fchown(file, None, Some(older.gid())).is_ok();
    let mode = mode_from(older.mode(), has_owner, has_group);
    if file.metadata()?.mode() & MODE_BITS == mode {
        return Ok(());
    }
    file.set_permissions(Permissions::from_mode(mode))
}

/// Writes a new file whole, to the disk.
fn fill(file: &mut File, bytes: &[u8], older: Option<&Metadata>) -> io::Result<()> {
    file.write_all(bytes)?;
    if let Some(older) = older {
        take_over(file, older)?;
    }
    file.sync_all()
}

/// Writes bytes to a new file beside the target, which an older file may have the name of. Where that fails, no new file is left.
fn write_beside(
    rt: &HostRuntime,
    target: PathBuf,
    bytes: &[u8],
    older: Option<&Metadata>,
) -> io::Result<Place> {
    let mode = if older.is_some() { OWN_MODE } else { NEW_MODE };
    let (mut made, file) = fresh(rt, target.as_path(), mode)?;
    match fill(&mut made, bytes, older) {
        Ok(()) => Ok(Place::Beside { file, target }),
        Err(error) => {
            let _ = fs::remove_file(rt, file.as_path());
            Err(error)
        }
    }
}

/// The file at the end of links, which may be written; none where it isn't the one that was found any more.
fn writable(rt: &HostRuntime, target: Path<'_>, found: &Metadata) -> io::Result<Option<Metadata>> {
    let file = OpenOptions::new().write(true).open(rt, target)?;
    let older = file.metadata()?;
    if are_same(&older, found) {
        Ok(Some(older))
    } else {
        Ok(None)
    }
}

/// Looks where an output goes. Where that is a new file, it is written; nothing else is. None where another file got the name meanwhile.
fn look(rt: &HostRuntime, output: &Output<'_>) -> io::Result<Option<Place>> {
    let found = match fs::metadata(rt, output.name) {
        Ok(found) => Some(found),
        Err(error) if error.kind() == ErrorKind::NotFound => None,
        Err(error) => return Err(error),
    };
    if let Some(found) = &found {
        if is_standard_output(rt, found) {
            return Ok(Some(Place::Printed));
        }
        if !found.is_file() {
            return Ok(Some(Place::Straight { is_file: false }));
        }
    }
    let Some(target) = end_of(rt, output.name)? else {
        return Ok(Some(Place::Straight { is_file: true }));
    };
    let mut older = None;
    if let Some(found) = &found {
        older = writable(rt, target.as_path(), found)?;
        if older.is_none() {
            return Ok(None);
        }
    }
    Ok(Some(write_beside(rt, target, output.bytes, older.as_ref())?))
}

/// Finds out where an output goes, as `look` does, and looks again where another call replaces the file meanwhile.
fn prepare(rt: &HostRuntime, output: &Output<'_>) -> io::Result<Place> {
    for _ in 0..MOST_LOOKS {
        if let Some(place) = look(rt, output)? {
            return Ok(place);
        }
    }
    Err(Error::from(ErrorKind::Other))
}

/// Writes bytes to what has this name, if that is still a regular file, or still none.
fn write_straight(rt: &HostRuntime, name: &str, bytes: &[u8], is_file: bool) -> io::Result<()> {
    let mut file = OpenOptions::new().write(true).open(rt, name)?;
    if file.metadata()?.is_file() != is_file {
        return Err(Error::from(ErrorKind::Other));
    }
    if is_file {
        file.set_len(0)?;
    }
    file.write_all(bytes)
}

/// Writes an output that goes to no new file.
fn write_in_place(rt: &HostRuntime, output: &Output<'_>, place: &Place) -> io::Result<()> {
    match *place {
        Place::Printed => {
            let mut out = Screen::new(rt.stdout());
            match write_all(&mut out, output.bytes) {
                Ok(()) => Ok(()),
                Err(_) => Err(Error::from(ErrorKind::Other)),
            }
        }
        Place::Straight { is_file } => write_straight(rt, output.name, output.bytes, is_file),
        Place::Beside { .. } => Ok(()),
    }
}

/// Gives a new file the name of its target.
fn rename(rt: &HostRuntime, place: &Place) -> io::Result<()> {
    match place {
        Place::Beside { file, target } => fs::rename(rt, file.as_path(), target.as_path()),
        _ => Ok(()),
    }
}

/// Why an output can't be written, and what it is called then.
#[derive(Drop)]
struct Fault<'a> {
    what: &'a str,
    kind: ErrorKind,
}

/// Tells of which output an error is.
fn of<'a, T>(output: &Output<'a>, written: io::Result<T>) -> Result<T, Fault<'a>> {
    match written {
        Ok(value) => Ok(value),
        Err(error) => Err(Fault {
            what: output.what,
            kind: error.kind(),
        }),
    }
}

/// Writes outputs whose places are put into the list, which has room for them.
fn write_each<'a>(
    rt: &HostRuntime,
    outputs: &[Output<'a>],
    places: &mut Vec<Place>,
) -> Result<(), Fault<'a>> {
    for output in outputs {
        let place = of(output, prepare(rt, output))?;
        of(
            output,
            places
                .push(place)
                .map_err(|_| Error::from(ErrorKind::OutOfMemory)),
        )?;
    }
    for (output, place) in outputs.iter().zip(places.iter()) {
        of(output, write_in_place(rt, output, place))?;
    }
    for (output, place) in outputs.iter().zip(places.iter()) {
        of(output, rename(rt, place))?;
    }
    Ok(())
}

/// Removes new files that have not taken the name of their targets.
fn discard(rt: &HostRuntime, places: &[Place]) {
    for place in places {
        if let Place::Beside { file, .. } = place {
            let _ = fs::remove_file(rt, file.as_path());
        }
    }
}

/// Writes outputs: a regular file as a whole or not at all, and none before all of them are written; the status. What can't be written is said.
pub fn write_outputs(rt: &HostRuntime, outputs: &[Output<'_>]) -> Result<u8, AllocError> {
    let mut places = Vec::with_capacity(rt.alloc(), outputs.len())?;
    let Err(fault) = write_each(rt, outputs, &mut places) else {
        return Ok(0);
    };
    discard(rt, &places);
    if fault.kind == ErrorKind::OutOfMemory {
        return Err(AllocError);
    }
    let line = format!(in rt.alloc(); "device {}", fault.what)?;
    Ok(report_failure(rt, &line))
}

/// Writes pieces to files, each to its own, as `write_outputs`; files without a piece are empty. The status.
///
/// # Errors
///
/// `AllocError` where memory is refused.
pub fn write_pieces(
    rt: &HostRuntime,
    names: &[&str],
    pieces: &[&[u8]],
    what: &'static str,
) -> Result<u8, AllocError> {
    let mut outputs = Vec::new(rt.alloc());
    add_pieces(&mut outputs, names, pieces, what)?;
    write_outputs(rt, &outputs)
}
