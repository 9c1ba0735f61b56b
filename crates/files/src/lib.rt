// Files and standard streams, as the programs use them. No contract can say what the system reads or writes; these say what a program may rely on.
#![tactic(auto)]

ghost use Rattle.std.specs.Prelude.{IfOk};
ghost use Rattle.io.specs.Counts.{IsPrefixLen};

use std::fs::OpenFile;
use std::io::{Error, ErrorKind, Read, Result, Write};
use std::rt::Files;
use std::{fs, result, str};

// An operation failed, and that was said on standard error.
#[derive(Clone, Copy)]
pub struct Said;

// What came of an operation. Where it failed, what failed and why is said on standard error; where that fails too, nobody is left to be told.
fn told<R: Eprint, T>(rt: &R, what: &[u8], came: Result<T>) -> result::Result<T, Said> {
    match came {
        Ok(value) => Ok(value),
        Err(error) => {
            let _ = match str::from_utf8(what) {
                Ok(text) => eprintln!(rt; "{text}: {error}"),
                Err(_) => eprintln!(rt; "{}: {error}", what.escape_ascii()),
            };
            Err(Said)
        }
    }
}

// A path as text: a file is opened by no other.
fn path_text(path: &[u8]) -> Result<&str> {
    match str::from_utf8(path) {
        Ok(text) => Ok(text),
        Err(_) => Err(Error::new(ErrorKind::InvalidInput, "the path is not UTF-8")),
    }
}

fn open<R: Files>(rt: &R, path: &[u8]) -> Result<R::File> {
    fs::open(rt, path_text(path)?)
}

fn create<R: Files>(rt: &R, path: &[u8]) -> Result<R::File> {
    fs::create(rt, path_text(path)?)
}

// One read, made again where a signal interrupts it.
fn read<S: Read>(source: &mut S, out: &mut [u8]) -> Result<usize>
    ensures { IfOk result (λ n. IsPrefixLen n out.new) }
{
    for _ in 0..u64::MAX {
        match source.read(out) {
            Err(error) if error.kind() == ErrorKind::Interrupted => {}
            got => return got,
        }
    }
    Err(Error::from(ErrorKind::Interrupted))
}

// Reads until `out` is full, the input ends or a read fails; how many bytes came.
fn fill<S: Read>(source: &mut S, out: &mut [u8]) -> usize
    ensures { IsPrefixLen result out.new }
{
    let mut done = 0;
    while done < out.len() {
        match read(source, &mut out[done..]) {
            Ok(0) | Err(_) => break,
            Ok(n) => done += n,
        }
    }
    done
}

// The bytes of a file, as many as fit; none where it can't be read.
pub fn load<R: Files>(rt: &R, path: &[u8], out: &mut [u8]) -> usize
    ensures { IsPrefixLen result out.new }
{
    match open(rt, path) {
        Ok(mut file) => fill(&mut file, out),
        Err(_) => 0,
    }
}

// Standard input, until `out` is full or no more comes.
pub fn input<R: Input>(rt: &R, out: &mut [u8]) -> usize
    ensures { IsPrefixLen result out.new }
{
    fill(&mut rt.reader(), out)
}

// Whether standard input stopped at its end, and not because it can't be read. One read more tells that.
pub fn input_end<R: Input + Eprint>(rt: &R) -> result::Result<(), Said> {
    let mut byte = [0u8; 1];
    told(rt, b"standard input", read(&mut rt.reader(), &mut byte))?;
    Ok(())
}

// Text on standard output.
pub fn print<R: Print + Eprint>(rt: &R, text: &[u8]) {
    let _ = told(rt, b"standard output", rt.write_all(text));
}

// A file that is written, by its path.
#[derive(Drop)]
pub struct Output<'a, F> {
    file: F,
    path: &'a [u8],
}

impl<'a, F: OpenFile + Write + Drop> Output<'a, F> {
    // It is empty at first.
    pub fn begin<R: Files<File = F> + Eprint>(
        rt: &R,
        path: &'a [u8],
    ) -> result::Result<Self, Said> {
        let file = told(rt, path, create(rt, path))?;
        Ok(Output { file, path })
    }

    pub fn append<R: Eprint>(&mut self, rt: &R, bytes: &[u8]) -> result::Result<(), Said> {
        told(rt, self.path, self.file.write_all(bytes))
    }

    // What a system writes late can fail here. It is waited for, since closing tells no failure.
    pub fn finish<R: Eprint>(self, rt: &R) {
        match self.file.sync_all() {
            // A pipe or a device has nothing that is written late.
            Err(error) if error.kind() == ErrorKind::InvalidInput => {}
            synced => {
                let _ = told(rt, self.path, synced);
            }
        }
    }
}
