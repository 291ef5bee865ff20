// The file that the program's argument names, read whole. It refuses a file that cannot be read, with the system's words on
// standard error, and one that is longer than its room.
use crate::TABLE;
use crate::show::{fail, say};
use std::env::FillError;
use std::io::{Read, Write};
use std::rt::{Env, Files};
use std::{fs, io};

// The bytes that a path may have.
const PATH: usize = 4_096;

// The system's numbers for an argument that is missing, a name that is too long, and one that is no UTF-8, which no path is.
// Numbers and no enum, since std's error is made from one.
const MISSING: i32 = 22;

const TOO_LONG: i32 = 36;

const NO_TEXT: i32 = 84;

// What reading a file comes to: three things, so no Option and no Result.
#[derive(Clone, Copy)]
pub enum File {
    // All of it stands at the room's start.
    Whole { bytes: usize },
    // The room holds a part of it.
    Longer,
    // It could not be opened or read, and why is told.
    Unread,
}

// Tells why a file was not read.
fn unread<W: Write>(err: &mut W, path: &[u8], error: &io::Error) -> io::Result<File> {
    say(err, b"the table cannot be read: ")?;
    fail(err, path, error)?;
    Ok(File::Unread)
}

// Reads the file that the first argument names.
pub fn read_named<S: Env + Files, W: Write>(
    rt: &S,
    err: &mut W,
    room: &mut [u8],
) -> io::Result<File> {
    let mut path = [0u8; PATH];
    let number = match rt.arg(TABLE, &mut path) {
        Ok(length) => match std::str::from_utf8(&path[..length]) {
            Ok(path) => return read_at(rt, err, path, room),
            Err(_) => NO_TEXT,
        },
        Err(FillError::TooLong) => TOO_LONG,
        Err(FillError::NotPresent) => MISSING,
    };
    unread(err, b"its path", &io::Error::from_raw_os_error(number))
}

fn read_at<S: Files, W: Write>(
    rt: &S,
    err: &mut W,
    path: &str,
    room: &mut [u8],
) -> io::Result<File> {
    let found = match fs::open(rt, path) {
        Ok(file) => read_open(file, room),
        Err(error) => Err(error),
    };
    match found {
        Ok(found) => Ok(found),
        Err(error) => unread(err, path.as_bytes(), &error),
    }
}

// A short count is no end: each turn reads a byte at least, or finds the end. Where the room is full, one more read tells
// whether something is left. The loop is a `while` and no `for`, since how far a turn goes is the reader's to say.
fn read_open<F: Read + Drop>(mut file: F, room: &mut [u8]) -> io::Result<File> {
    let mut bytes = 0;
    while bytes < room.len() {
        let count = file.read(&mut room[bytes..])?;
        if count == 0 {
            return Ok(File::Whole { bytes });
        }
        bytes += count;
    }
    let mut next = [0u8; 1];
    if file.read(&mut next)? == 0 {
        Ok(File::Whole { bytes })
    } else {
        Ok(File::Longer)
    }
}
