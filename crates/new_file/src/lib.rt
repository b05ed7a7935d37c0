// A new file, made whole or not at all, that only its owner may read and write. What fails is told on standard error.
#![tactic(auto)]

ghost use Rattle.std.specs.Prelude.{ℕ, true, Option, Some, None, ◌≡◌, IfSome, option_map, length};
ghost use Rattle.std.specs.Result.{result_ok};
ghost use Rattle.io.specs.Counts.{IsPrefixLen};
ghost use Rattle.outcomes.specs.Status.{is_done};

use outcomes::Ended;
use std::fs::{File, OpenOptions};
use std::io::{Error, ErrorKind, Write};
use std::os::unix::fs::OpenOptionsExt;
use std::random::RandomSource;

// Puts the name of a temporary file beside a file at the start of the buffer.
fn name_beside(path: &[u8], name: &mut [u8]) -> usize
    ensures { IsPrefixLen result name.new }
{
    let beside = command::temporary_name(path, name);
    beside.length
}

// A letter or a digit for a byte that was drawn.
fn letter(drawn: u8) -> u8 {
    match drawn % 62 {
        digit @ 0..=9 => b'0' + digit,
        small @ 10..=35 => b'a' + (small - 10),
        capital => b'A' + (capital - 36),
    }
}

// Puts the six letters that a temporary file's name ends in: drawn, or those of the number of the try where the system draws none.
fn put_letters(rt: HostRuntime, name: &mut [u8], turn: u8) {
    let mut drawn = [0u8; 6];
    if rt.fill_bytes(&mut drawn).is_err() {
        drawn = [turn; 6];
    }
    for (place, byte) in name.iter_mut().rev().zip(drawn) {
        *place = letter(byte);
    }
}

// Opens a new file that only its owner may read and write.
fn create_private(rt: HostRuntime, name: &[u8]) -> Result<File, Error> {
    OpenOptions::new()
        .write(true)
        .create_new(true)
        .mode(0o600)
        .open(&rt, arguments::path(name)?)
}

// Makes a temporary file that only its owner may read and write. The last six letters of its name are drawn, and drawn again where the name is taken.
fn create_temp(rt: HostRuntime, name: &mut [u8]) -> Result<File, Error> {
    for turn in 0..99 {
        put_letters(rt, name, turn);
        match create_private(rt, name) {
            Err(error) if error.kind() == ErrorKind::AlreadyExists => {}
            made => return made,
        }
    }
    put_letters(rt, name, 99);
    create_private(rt, name)
}

// Writes all bytes to an open file, and has them kept.
fn write_kept(file: &mut File, bytes: &[u8]) -> Result<(), Error> {
    file.write_all(bytes)?;
    file.sync_all()
}

// Gives a file another name.
fn rename(rt: HostRuntime, from: &[u8], to: &[u8]) -> Result<(), Error> {
    std::fs::rename(&rt, arguments::path(from)?, arguments::path(to)?)
}

// Removes a file, by a path of the system.
fn unlink(rt: HostRuntime, path: &[u8]) -> Result<(), Error> {
    std::fs::remove_file(&rt, arguments::path(path)?)
}

// Gives a temporary file its bytes, and then the name of the file that is to be made.
fn finish(
    rt: HostRuntime,
    mut file: File,
    name: &[u8],
    path: &[u8],
    bytes: &[u8],
) -> Result<(), Error> {
    write_kept(&mut file, bytes)?;
    drop(file);
    rename(rt, name, path)
}

// How many bytes of a file that was to be made count: all of them, or none where it could not be made, and the reason is told.
fn counted(
    rt: HostRuntime,
    program: &[u8],
    path: &[u8],
    bytes: &[u8],
    made: Result<(), Error>,
) -> Option<usize>
    ensures { result ≡ option_map (λ done. length bytes.now) (result_ok made) }
{
    match made {
        Ok(()) => Some(bytes.len()),
        Err(error) => {
            messages::file_failed(rt, program, path, error);
            None
        }
    }
}

// Makes a file by way of a temporary one of this name, so that it is there only when it is whole. Where it could not be made, the reason is told
// before the temporary one is removed.
fn make_by(
    rt: HostRuntime,
    program: &[u8],
    name: &mut [u8],
    path: &[u8],
    bytes: &[u8],
) -> Option<usize>
    ensures { IfSome result (λ size. size ≡ length bytes.now) }
{
    match create_temp(rt, name) {
        Ok(file) => {
            let made = finish(rt, file, name, path, bytes);
            let size = counted(rt, program, path, bytes, made);
            if size.is_none() {
                let _ = unlink(rt, name);
            }
            size
        }
        Err(error) => counted(rt, program, path, bytes, Err(error)),
    }
}

// Makes a file by way of one beside it.
fn make(rt: HostRuntime, program: &[u8], path: &[u8], bytes: &[u8]) -> Option<usize>
    ensures { IfSome result (λ size. size ≡ length bytes.now) }
{
    // Room for every path that an argument can be; the system refuses one that is too long.
    let mut name = [0u8; 8192];
    let length = name_beside(path, &mut name);
    make_by(rt, program, &mut name[..length], path, bytes)
}

// Takes a name by an empty file, unless there is a file of that name.
fn take(rt: HostRuntime, path: &[u8]) -> Result<File, Error> {
    OpenOptions::new()
        .write(true)
        .create_new(true)
        .open(&rt, arguments::path(path)?)
}

// Makes a file with these bytes, never over one that exists. The name is taken first, by an empty file, and the whole file is moved
// over that. Where something fails nothing is left.
fn make_new(rt: HostRuntime, program: &[u8], path: &[u8], bytes: &[u8]) -> Option<usize>
    ensures { IfSome result (λ size. size ≡ length bytes.now) }
{
    match take(rt, path) {
        Ok(empty) => {
            drop(empty);
            let size = make(rt, program, path, bytes);
            if size.is_none() {
                let _ = unlink(rt, path);
            }
            size
        }
        Err(error) => counted(rt, program, path, bytes, Err(error)),
    }
}

// Saves bytes in a new file, and answers how many it has: all of them. Whether it is made depends on the file system, of which no contract speaks.
pub fn save(rt: HostRuntime, program: &[u8], path: &[u8], bytes: &[u8]) -> Option<usize>
    ensures { IfSome result (λ size. size ≡ length bytes.now) }
{
    make_new(rt, program, path, bytes)
}

// Removes a file that was saved.
fn remove(rt: HostRuntime, program: &[u8], path: &[u8]) {
    if let Err(error) = unlink(rt, path) {
        messages::file_failed(rt, program, path, error);
    }
}

// Saves bytes in a new file, and prints what is told of it: by how many bytes it has, or by None where it was not saved. A file that cannot be told
// of is removed again.
pub fn keep<F: FnOnce(Option<usize>) -> Ended>(
    rt: HostRuntime,
    program: &[u8],
    path: &[u8],
    bytes: &[u8],
    tell: F,
) -> Ended
    requires { F.pre tell None × F.pre tell (Some (length bytes.now)) }
    ensures { (saved : Option ℕ) × IfSome saved (λ size. size ≡ length bytes.now) × (is_done result ≡ true → F.post tell saved result) }
{
    let saved = save(rt, program, path, bytes);
    let told = answers::print(rt, program, tell(saved));
    if saved.is_some() && matches!(told, Ended::Failed) {
        remove(rt, program, path);
    }
    told
}

// Whether the argument that is to name a new file is `-`, which is then told.
pub fn is_no_file(rt: HostRuntime, program: &[u8], i: usize) -> bool {
    if arguments::is_argument(rt, i, b"-") {
        messages::tell_line(
            rt,
            program,
            b"OUT '-' is not a file name; what is written goes to a new file only",
        );
        return true;
    }
    false
}
