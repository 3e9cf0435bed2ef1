//! Where the name of a file leads, and what tells a file from another.

use std::alloc::{AllocError, Global};
use std::fs::Metadata;
use std::io::{Error, ErrorKind};
use std::os::unix::fs::MetadataExt;
use std::path::{Path, PathBuf};
use std::{fs, io};

/// The standard input and the standard output of the program, as files.
pub const INPUT_FILE: &str = "/proc/self/fd/0";

const OUTPUT_FILE: &str = "/proc/self/fd/1";

/// A name in the file system of processes. Its links, as `/proc/self/fd/3`, are files that a process has open, and no names.
const PROCESS: &str = "/proc/self";

/// The most links that are followed from one name, as many as Linux follows.
const MOST_LINKS: usize = 40;

/// Whether two are of one file.
pub fn are_same(one: &Metadata, other: &Metadata) -> bool {
    one.dev() == other.dev() && one.ino() == other.ino()
}

/// Whether a file is the standard output of the program.
pub fn is_standard_output(rt: &HostRuntime, found: &Metadata) -> bool {
    match fs::metadata(rt, OUTPUT_FILE) {
        Ok(output) => are_same(found, &output),
        Err(_) => false,
    }
}

/// The link of this name; none where it is no link's, or nothing has it.
fn link_at(rt: &HostRuntime, path: Path<'_>) -> io::Result<Option<Metadata>> {
    match fs::symlink_metadata(rt, path) {
        Ok(found) if found.is_symlink() => Ok(Some(found)),
        Ok(_) => Ok(None),
        Err(error) if error.kind() == ErrorKind::NotFound => Ok(None),
        Err(error) => Err(error),
    }
}

/// Whether a link is a file that a process has open.
fn is_open_file(rt: &HostRuntime, link: &Metadata) -> bool {
    match fs::metadata(rt, PROCESS) {
        Ok(process) => process.dev() == link.dev(),
        Err(_) => false,
    }
}

/// The folder of a file.
fn folder_of(path: Path<'_>) -> Path<'_> {
    path.parent().unwrap_or(Path::new(""))
}

/// The name that a link leads to.
fn followed(rt: &HostRuntime, link: Path<'_>) -> io::Result<PathBuf> {
    let to = fs::read_link(rt, link)?;
    Ok(folder_of(link).join(rt.alloc(), to.as_path())?)
}

/// The name at the end of the links that this name leads over, whether or not a file is there; none where they lead to a file that a process
/// has open, which may have no name.
pub fn end_of(rt: &HostRuntime, name: &str) -> io::Result<Option<PathBuf>> {
    let mut path = PathBuf::from_str(rt.alloc(), name)?;
    for _ in 0..MOST_LINKS {
        match link_at(rt, path.as_path())? {
            None => return Ok(Some(path)),
            Some(link) if is_open_file(rt, &link) => return Ok(None),
            Some(_) => path = followed(rt, path.as_path())?,
        }
    }
    Err(Error::from(ErrorKind::FilesystemLoop))
}

/// What tells a regular file from another.
#[derive(Drop)]
pub enum Identity {
    /// One that is there, by its device and its number.
    There(u64, u64),
    /// One that isn't there yet, by those of its folder, and its name in that.
    New(u64, u64, String),
}

impl Identity {
    /// Whether both are of one file.
    pub fn is_of(&self, other: &Identity) -> bool {
        match (self, other) {
            (Identity::There(device, number), Identity::There(of_device, of_number)) => {
                device == of_device && number == of_number
            }
            (Identity::New(device, number, name), Identity::New(of_device, of_number, of_name)) => {
                device == of_device && number == of_number && name == of_name
            }
            _ => false,
        }
    }
}

/// What tells the file that this name will make from others; none where it makes none.
fn identity_of_new(rt: &HostRuntime, name: &str) -> io::Result<Option<Identity>> {
    let Some(path) = end_of(rt, name)? else {
        return Ok(None);
    };
    let Some(last) = path.as_path().file_name() else {
        return Ok(None);
    };
    let folder = folder_of(path.as_path()).join(rt.alloc(), ".")?;
    let found = fs::metadata(rt, folder.as_path())?;
    let last = String::from_str(rt.alloc(), last)?;
    Ok(Some(Identity::New(found.dev(), found.ino(), last)))
}

/// What tells the file of this name from others; none where it is no regular file, or is the standard output.
pub fn identity_of(rt: &HostRuntime, name: &str) -> Result<Option<Identity>, AllocError> {
    let identity = match fs::metadata(rt, name) {
        Ok(found) if !found.is_file() || is_standard_output(rt, &found) => Ok(None),
        Ok(found) => Ok(Some(Identity::There(found.dev(), found.ino()))),
        Err(error) if error.kind() == ErrorKind::NotFound => identity_of_new(rt, name),
        Err(error) => Err(error),
    };
    match identity {
        Ok(identity) => Ok(identity),
        Err(error) if error.kind() == ErrorKind::OutOfMemory => Err(AllocError),
        Err(_) => Ok(None),
    }
}
