//! How the file of a disk is opened: made where it isn't there, locked, and brought onto the disk. No contract speaks
//! of it.

use std::fs::{self, File, OpenOptions};
use std::io::{self, ErrorKind};
use std::os::fd::AsRawFd;
use std::path::Path;
use std::rt::Files;

// Opens the file for reading and writing, and locks it, so that nobody else who asks for the lock has it. Then the file
// and its name in the folder are brought onto the disk, and what the system keeps of its bytes in memory is dropped,
// which a sync that failed before may have left other than the disk has them.
pub fn open<R: Files<File = File>>(rt: &R, path: &str) -> io::Result<File> {
    let file = beyond_the_streams(open_or_make(rt, path)?)?;
    if !file.metadata()?.is_file() {
        return Err(no_regular_file());
    }
    file.try_lock()?;
    file.sync_all()?;
    let advised = libc::posix_fadvise(file.as_raw_fd(), 0, 0, libc::POSIX_FADV_DONTNEED);
    if advised != 0 {
        return Err(io::Error::from_raw_os_error(advised));
    }
    File::open(rt, folder_of(path))?.sync_all()?;
    Ok(file)
}

// The regular file that stands there, or a new one where nothing does.
fn open_or_make<R: Files<File = File>>(rt: &R, path: &str) -> io::Result<File> {
    let mut options = OpenOptions::new();
    options.read(true).write(true);
    match fs::metadata(rt, path) {
        Ok(found) if found.is_file() => options.open(rt, path),
        Ok(_) => Err(no_regular_file()),
        Err(fault) if fault.kind() == ErrorKind::NotFound => {
            options.create_new(true);
            options.open(rt, path)
        }
        Err(fault) => Err(fault),
    }
}

// The same file, whose number isn't that of a standard stream. The program may have been started without one, and what
// is meant for it must not land in the file.
fn beyond_the_streams(file: File) -> io::Result<File> {
    if file.as_raw_fd() <= 2 {
        file.try_clone()
    } else {
        Ok(file)
    }
}

fn no_regular_file() -> io::Error {
    io::Error::from(ErrorKind::Unsupported)
}

// The folder of a path.
fn folder_of(path: &str) -> &str {
    match Path::new(path).parent() {
        Some(folder) if !folder.as_str().is_empty() => folder.as_str(),
        _ => ".",
    }
}
