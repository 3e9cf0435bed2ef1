//! The commit at which the program was proved.

use std::env::current_exe;
use std::fs::File;
use std::io;
use std::io::Read;
use std::path::Path;

/// The most bytes that are read of the file that says it.
const MOST_BYTES: u64 = 200;

/// Where that file stands, from the folder of the program: beside it, where it was built, or below the prefix where it was installed.
const PLACES: [&str; 2] = ["proved_at", "../share/doc/rgc/proved_at"];

/// The beginning of a file, by its name from a folder.
fn read_from(rt: &HostRuntime, folder: Path<'_>, name: &str) -> io::Result<Vec<u8>> {
    let path = folder.join(rt.alloc(), name)?;
    let mut file = File::open(rt, path)?.take(MOST_BYTES);
    let mut bytes = Vec::new(rt.alloc());
    file.read_to_end(&mut bytes)?;
    Ok(bytes)
}

/// The line that says at which commit the program was proved: nothing where no file says so, or where it can't be read.
pub fn proved_at(rt: &HostRuntime) -> Vec<u8> {
    if let Ok(program) = current_exe(rt)
        && let Some(folder) = program.parent()
    {
        for name in PLACES {
            if let Ok(line) = read_from(rt, folder, name) {
                return line;
            }
        }
    }
    Vec::new(rt.alloc())
}
