// Standard streams kept, and files read into a buffer. What fails is told on standard error.
#![tactic(auto)]

ghost use Rattle.std.specs.Prelude.{◌≡◌, IfSome, IfOk};
ghost use Rattle.std.specs.Result.{result_ok};
ghost use Rattle.io.specs.Counts.{IsPrefixLen};

use std::fs::{File, OpenOptions};
use std::io::Error;
use std::os::fd::{AsRawFd, IntoRawFd};

// Keeps the descriptors 0, 1 and 2 from every file that is opened later, so that no message can get into a file. One that is closed
// is opened so that it fails all the same: 0 for writing, 1 and 2 for reading.
pub fn keep_streams(rt: HostRuntime) {
    let input = OpenOptions::new().append(true).open(&rt, "/dev/null");
    release(input, 0);
    let first = File::open(&rt, "/dev/null");
    let second = File::open(&rt, "/dev/null");
    release(first, 2);
    release(second, 2);
}

// Closes a file whose descriptor is above `last`; another stays open up to the program's end.
fn release(opened: Result<File, Error>, last: i32) {
    if let Ok(file) = opened {
        if file.as_raw_fd() <= last {
            file.into_raw_fd();
        }
    }
}

// Reads an open file up to its end or the buffer's, and answers how many bytes then stand at the buffer's start.
fn read_open<F: std::io::Read>(file: &mut F, buffer: &mut [u8]) -> Result<usize, Error>
    ensures { IfOk result (λ length. IsPrefixLen length buffer.new) }
{
    let mut length = 0;
    while length < buffer.len() {
        let more = file.read(&mut buffer[length..])?;
        if more == 0 {
            return Ok(length);
        }
        length += more;
    }
    Ok(length)
}

// Reads standard input, as above.
fn read_stdin(rt: HostRuntime, buffer: &mut [u8]) -> Result<usize, Error>
    ensures { IfOk result (λ length. IsPrefixLen length buffer.new) }
{
    let mut input = rt.stdin();
    read_open(&mut input, buffer)
}

// Reads the file that has this path, as above.
fn read_file(rt: HostRuntime, path: &[u8], buffer: &mut [u8]) -> Result<usize, Error>
    ensures { IfOk result (λ length. IsPrefixLen length buffer.new) }
{
    let mut file = File::open(&rt, arguments::path(path)?)?;
    read_open(&mut file, buffer)
}

// Tells why a file that has a path, or else standard input, could not be read.
fn tell_unread(rt: HostRuntime, program: &[u8], path: Option<&[u8]>, error: Error) {
    match path {
        Some(path) => messages::file_failed(rt, program, path, error),
        None => messages::failed(rt, program, b"standard input", error),
    }
}

// How many bytes count as read. Where the reading failed none does, and the reason is told.
fn counted(
    rt: HostRuntime,
    program: &[u8],
    path: Option<&[u8]>,
    read: Result<usize, Error>,
) -> Option<usize>
    ensures { result ≡ result_ok read }
{
    match read {
        Ok(length) => Some(length),
        Err(error) => {
            tell_unread(rt, program, path, error);
            None
        }
    }
}

// Reads standard input up to its end or the buffer's, and answers how many bytes then stand at the buffer's start.
pub fn read_input(rt: HostRuntime, program: &[u8], buffer: &mut [u8]) -> Option<usize>
    ensures { IfSome result (λ length. IsPrefixLen length buffer.new) }
{
    let read = read_stdin(rt, buffer);
    counted(rt, program, None, read)
}

// Reads the file that argument i names, as above; `-` names standard input.
pub fn read_argument(rt: HostRuntime, program: &[u8], i: usize, buffer: &mut [u8]) -> Option<usize>
    ensures { IfSome result (λ length. IsPrefixLen length buffer.new) }
{
    let mut typed = io::buffer();
    let length = arguments::argument(rt, i, &mut typed);
    let path = &typed[..length];
    let read = if matches!(path, b"-") {
        read_stdin(rt, buffer)
    } else {
        read_file(rt, path, buffer)
    };
    counted(rt, program, Some(path), read)
}

// Tells that two arguments name standard input.
pub fn tell_twice(rt: HostRuntime, program: &[u8]) {
    messages::tell_line(
        rt,
        program,
        b"'-' is given twice, and standard input can be read only once",
    );
}

// Whether both arguments name standard input, which is then told.
fn twice_input(rt: HostRuntime, program: &[u8], i: usize, j: usize) -> bool {
    if arguments::is_argument(rt, i, b"-") && arguments::is_argument(rt, j, b"-") {
        tell_twice(rt, program);
        return true;
    }
    false
}

// Reads the files that arguments i and j name, as above, each into its own buffer. Where one cannot be read neither counts.
pub fn read_both(
    rt: HostRuntime,
    program: &[u8],
    i: usize,
    j: usize,
    first: &mut [u8],
    second: &mut [u8],
) -> Option<(usize, usize)>
    ensures first_len { IfSome result (λ lengths. IsPrefixLen lengths.0 first.new) }
    ensures second_len { IfSome result (λ lengths. IsPrefixLen lengths.1 second.new) }
{
    if twice_input(rt, program, i, j) {
        return None;
    }
    let first_length = read_argument(rt, program, i, first)?;
    let second_length = read_argument(rt, program, j, second)?;
    Some((first_length, second_length))
}
