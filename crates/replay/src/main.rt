// replay CALLS-FILE: serves the recorded calls of a file, and writes the answers to standard output.
#![tactic(auto)]

use std::env::{Env, FillError};
use std::fs;
use std::io::{Error, Print};

// The system's numbers for a name that is too long, and for bytes that are no text.
const NAME_TOO_LONG: i32 = 36;

const NO_TEXT: i32 = 84;

// Nothing is left to do where standard error takes none of it.
fn usage(rt: &HostRuntime) {
    let errors = rt.stderr();
    let _ = errors.write_all(
        b"usage: replay CALLS-FILE    a line is one of: catalogue HEX | connect SEAT VERSION | open SEAT HEX",
    );
    let _ = errors.write_all(
        b" | message SEAT ROOM HEX | word INDEX VALUE (# starts a comment, - is empty HEX)\n",
    );
}

// Whether there is an argument of this number. The program's own name is number 0.
fn is_given(rt: &HostRuntime, number: usize) -> bool {
    match rt.arg(number, &mut []) {
        Err(FillError::NotPresent) => false,
        _ => true,
    }
}

// Serves the file of this name.
fn replay(rt: &HostRuntime, path: &str) {
    match fs::open(rt, path) {
        Ok(mut file) => file_serve::replay(rt, &mut file, path),
        Err(error) => file_buffer::fail(rt, path, error),
    }
}

fn main(rt: HostRuntime) {
    if !is_given(&rt, 1) || is_given(&rt, 2) {
        usage(&rt);
        return;
    }
    let mut name = [0u8; 4096];
    let length = match rt.arg(1, &mut name) {
        Ok(length) => length,
        Err(_) => {
            let error = Error::from_raw_os_error(NAME_TOO_LONG);
            file_buffer::fail(&rt, "replay: the file's name", error);
            return;
        }
    };
    let path = &name[..length];
    match std::str::from_utf8(path) {
        Ok(path) => replay(&rt, path),
        Err(_) => {
            // std opens no file whose name is not text
            let _ = rt.stderr().write_all(path);
            file_buffer::fail(&rt, "", Error::from_raw_os_error(NO_TEXT));
        }
    }
}
