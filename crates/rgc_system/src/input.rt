//! The bytes of a file.

use std::fs::File;
use std::io;
use std::io::Read;

/// The name of a file that stands for standard input.
pub const INPUT: &str = "-";

/// A file's bytes, or those of standard input, but no more than one past the limit: that one shows that there are too many.
///
/// # Errors
///
/// That of the system where the file can't be read, and `OutOfMemory` where memory is refused.
pub fn read(rt: &HostRuntime, name: &str, most: usize) -> io::Result<Vec<u8>> {
    let mut bytes = Vec::new(rt.alloc());
    let limit = (most as u64).saturating_add(1);
    if name == INPUT {
        let mut input = rt.reader().take(limit);
        input.read_to_end(&mut bytes)?;
    } else {
        let mut file = File::open(rt, name)?.take(limit);
        file.read_to_end(&mut bytes)?;
    }
    Ok(bytes)
}
