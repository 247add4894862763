// What the programs need of the system, over std: arguments, files, reading and printing.
#![tactic(auto)]

ghost use Rattle.std.specs.Prelude.{◌≤◌, length, take, IfOk, IsUtf8};
ghost use Rattle.std.specs.Io.KnownBytes.{Consumes};

use std::env::FillError;
use std::fs::File;
use std::io;
use std::io::Read;
use std::rt::{Env, Files};

// Whether there is an argument i. No contract: `arg` promises of an argument no more than that it fits the buffer.
fn has_argument(rt: &impl Env, i: usize) -> bool {
    !matches!(rt.arg(i, &mut []), Err(FillError::NotPresent))
}

// How many arguments there are, the program's own name among them. No contract, as `has_argument` has none.
pub fn argument_count(rt: &impl Env) -> usize {
    (0..usize::MAX).take_while(|i| has_argument(rt, *i)).count()
}

// Argument i at the front of the buffer, and its length: 0 where it is missing or has no room. (No Result: what could not fail still can't.)
pub fn argument(rt: &impl Env, i: usize, buffer: &mut [u8]) -> usize
    ensures { result ≤ length buffer.new }
{
    rt.arg(i, buffer).unwrap_or(0)
}

// The file of this name, to be read. Paths are text: a name that is none is not opened.
pub fn open_read<R: Files>(rt: &R, name: &[u8]) -> io::Result<R::File>
    ensures { IfOk result (λ _. IsUtf8 name.now) }
{
    let Ok(path) = std::str::from_utf8(name) else {
        return Err(io::Error::from(io::ErrorKind::InvalidFilename));
    };
    File::open(rt, path)
}

// Reads until the buffer is full, the input ends or a read fails: how many bytes then stand at the front of the buffer. Each turn goes on by
// as many as were read, so there is no index to count.
pub fn read_full<R: Read>(input: &mut R, buffer: &mut [u8]) -> usize
    ensures in_bounds { result ≤ length buffer.new }
    ensures taken { Consumes (R.remaining input.old) (R.remaining input.new) (take result buffer.new) }
{
    let mut done = 0;
    while done < buffer.len() {
        match input.read(&mut buffer[done..]) {
            Ok(0) => break,
            Ok(n) => done += n,
            Err(_) => break,
        }
    }
    done
}

// Where standard output takes nothing, there is nobody left to tell. No contract: `write_all` of a `Print` promises nothing.
pub fn print(rt: &impl Print, text: &[u8]) {
    let _ = rt.write_all(text);
}
