// Reading a descriptor or a file to its end, and writing all of a slice. The calls of the system are in `read_some`, `write_some` and `open_file`.
#![tactic(auto)]

ghost use Rattle.std.specs.Prelude.{◌≡◌, ◌≤◌, length, take};
ghost use Rattle.std.specs.Io.{ReadsAtMost, WritesAtMost};
ghost use Rattle.streams.specs.Calls.{Moved, Within, Answered, Took, Opened, AllRead, FileRead, WroteTo, number, opened_number};

use std::fs::File;
use std::io::{Read, Write};
use std::os::fd::{AsFd, AsRawFd, BorrowedFd};
use std::process::{ChildStdin, ChildStdout};

// What is read and written: the descriptors 0, 1 and 2, a file, which has the number that opening it gave, and any other number.
#[derive(Clone, Copy)]
enum Descriptor<'a> {
    Input,
    Output,
    Error,
    File(&'a File),
    Number(i32),
}

// ---- the calls

fn descriptor_of(fd: i32) -> Descriptor<'static>
    ensures { number result ≡ fd }
{
    match fd {
        0 => Descriptor::Input,
        1 => Descriptor::Output,
        2 => Descriptor::Error,
        _ => Descriptor::Number(fd),
    }
}

// std reads no standard output and no standard error, and writes no standard input. Here a duplicate of the descriptor serves, which names the
// same open file.
fn read_duplicate(fd: BorrowedFd<'_>, part: &mut [u8]) -> std::io::Result<usize>
    ensures { ReadsAtMost result part.new }
{
    ChildStdout::from(fd.try_clone_to_owned()?).read(part)
}

fn write_duplicate(fd: BorrowedFd<'_>, part: &[u8]) -> std::io::Result<usize>
    ensures { WritesAtMost result part.now }
{
    ChildStdin::from(fd.try_clone_to_owned()?).write(part)
}

// Std reads and writes no other number: there the crate `io` makes one call, which is lent one byte. `io` tells no error from the end, so an
// error counts as the end.
fn read_byte(fd: i32, part: &mut [u8]) -> Option<usize>
    ensures { Within (length part.old) (record { answer = result; lent = part.new }) }
{
    if part.is_empty() {
        return Some(0);
    }
    Some(io::read_full(fd, &mut part[..1]))
}

fn write_byte(fd: i32, part: &[u8]) -> Option<usize>
    ensures { Moved (length part.now) result }
{
    if part.is_empty() {
        return Some(0);
    }
    io::write_all(fd, &part[..1]).then_some(1)
}

// The count of bytes that were read, or `None`. A negative number cannot be read, where `io` would tell the end.
#[tactic(auto, unfolding(crate::specs::Calls::Answered))]
fn read_some(rt: &HostRuntime, from: Descriptor<'_>, part: &mut [u8]) -> Option<usize>
    ensures answered { Answered (number from.entry) (length part.old) (record { answer = result; lent = part.new }) }
    ensures within { Within (length part.old) (record { answer = result; lent = part.new }) }
{
    let moved = match from {
        Descriptor::Input => rt.stdin().read(part),
        Descriptor::Output => read_duplicate(rt.stdout().as_fd(), part),
        Descriptor::Error => read_duplicate(rt.stderr().as_fd(), part),
        Descriptor::File(file) => (&*file).read(part),
        Descriptor::Number(..=-1) => return None,
        Descriptor::Number(fd) => return read_byte(fd, part),
    };
    moved.ok()
}

// The count of bytes that were written, or `None`.
#[tactic(auto, unfolding(crate::specs::Calls::Took))]
fn write_some(rt: &HostRuntime, to: Descriptor<'_>, part: &[u8]) -> Option<usize>
    ensures took { Took (number to.entry) part.now result }
    ensures moved { Moved (length part.now) result }
{
    let moved = match to {
        Descriptor::Input => write_duplicate(rt.stdin().as_fd(), part),
        Descriptor::Output => rt.stdout().write(part),
        Descriptor::Error => rt.stderr().write(part),
        Descriptor::File(file) => (&*file).write(part),
        Descriptor::Number(fd) => return write_byte(fd, part),
    };
    moved.ok()
}

#[tactic(auto, unfolding(crate::specs::Calls::Opened))]
fn open_file(rt: &HostRuntime, path: &[u8]) -> Option<File>
    ensures { Opened path.now (opened_number result) }
{
    let name = std::str::from_utf8(path).ok()?;
    File::open(rt, name).ok()
}

// ---- reading

// Reads until the buffer is full or the input ends: the count of bytes in the buffer. After an error nothing that came before it counts.
fn read_from(rt: &HostRuntime, from: Descriptor<'_>, buffer: &mut [u8]) -> Option<usize>
    ensures { AllRead (number from.entry) (length buffer.old) result buffer.new }
{
    // Not a `for`: a call decides how far it goes.
    let mut len: usize = 0;
    while len < buffer.len() {
        let got = read_some(rt, from, &mut buffer[len..])?;
        if got == 0 {
            return Some(len);
        }
        len += got;
    }
    Some(len)
}

// The same of the descriptor with this number.
pub fn read_all(rt: &HostRuntime, fd: i32, buffer: &mut [u8]) -> Option<usize>
    ensures { AllRead fd (length buffer.old) result buffer.new }
{
    read_from(rt, descriptor_of(fd), buffer)
}

// The same of a file, which is closed again. One that cannot be opened, or that has a negative number, cannot be read.
pub fn read_file(rt: &HostRuntime, path: &[u8], buffer: &mut [u8]) -> Option<usize>
    ensures { FileRead path.now (length buffer.old) result buffer.new }
{
    let file = open_file(rt, path)?;
    if file.as_raw_fd() < 0 {
        return None;
    }
    read_from(rt, Descriptor::File(&file), buffer)
}

// The first bytes of a buffer: what was read into it, or what it holds of a line.
pub fn prefix(buffer: &[u8], len: usize) -> &[u8]
    ensures { result.now ≡ take len buffer.now }
{
    buffer.get(..len).unwrap_or(buffer)
}

// ---- writing

// Writes all of the bytes and returns true, or stops at the first call that fails or takes none.
fn write_to(rt: &HostRuntime, to: Descriptor<'_>, bytes: &[u8]) -> bool
    ensures { WroteTo (number to.entry) bytes.now result }
{
    // A call of the system says how many bytes it took, so no range over them is known beforehand.
    let mut done: usize = 0;
    while done < bytes.len() {
        let put = write_some(rt, to, &bytes[done..]).unwrap_or(0);
        if put == 0 {
            return false;
        }
        done += put;
    }
    true
}

// The same to the descriptor with this number.
pub fn write_all(rt: &HostRuntime, fd: i32, bytes: &[u8]) -> bool
    ensures { WroteTo fd bytes.now result }
{
    write_to(rt, descriptor_of(fd), bytes)
}
