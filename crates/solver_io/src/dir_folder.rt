// The folder over the working directory. It tells no content.
ghost use Rattle.std.specs.Prelude.{◌≡◌, ◌≢◌, ◌≤◌, [], Err};
ghost use Rattle.std.specs.IoError.{error_kind};
ghost use Rattle.solver_io.specs.Bytes.{PutCause};
ghost use Rattle.solver_io.specs.Files.{LeavesIn, ReadCause, unopened};
ghost use Rattle.solver_io.specs.Memory.{count_after_put, count_after_read};

use crate::transfers::{put_all, take_all};
use crate::{Failed, Folder, PutEnd, ReadEnd};
use std::fs;
use std::io::{Error, ErrorKind};
use std::marker::Model;
use std::rt::Runtime;

/// The working directory. Contracts see its counts of the reads and writes that failed.
#[derive(Drop)]
pub struct DirFolder<R: Runtime> {
    rt: R,
    failed_reads: u64,
    failed_writes: u64,
}

impl<R: Runtime> Model for DirFolder<R> {
    ghost use Rattle.solver_io.specs.Memory.{FaultCounts};

    ghost Value = { FaultCounts };

    ghost view = { λ s. record { failed_reads = s.failed_reads; failed_writes = s.failed_writes } };
}

impl<R: Runtime> DirFolder<R> {
    pub fn new(rt: R) -> DirFolder<R>
        ensures { result ≡ record { failed_reads = 0; failed_writes = 0 } }
    {
        DirFolder {
            rt,
            failed_reads: 0,
            failed_writes: 0,
        }
    }
}

impl<R: Runtime> Folder for DirFolder<R> {
    ghost use Rattle.std.specs.Prelude.{None};

    ghost content = { λ _. None };

    ghost read_faults = { λ s. s.failed_reads };

    ghost write_faults = { λ s. s.failed_writes };

    ghost write_wants = { λ _. 0 };

    fn read(&mut self, name: &str, limit: usize, into: &mut Vec<u8>) -> ReadEnd
        requires { into.old.items ≡ [] }
        ensures leaves { LeavesIn limit into.new.items result }
        ensures later { self.old.failed_reads ≤ self.new.failed_reads }
        ensures cause { ReadCause self.old.failed_reads self.new.failed_reads result }
        ensures counted { self.new
            ≡ record self.old { failed_reads = count_after_read self.old.failed_reads result } }
    {
        let end = read_file(&self.rt, name, limit, into);
        if end == ReadEnd::Failed {
            self.failed_reads = self.failed_reads.saturating_add(1);
            return ReadEnd::Failed;
        }
        end
    }

    fn write(&mut self, name: &str, bytes: &[u8]) -> Result<(), PutEnd>
        ensures later { self.old.failed_writes ≤ self.new.failed_writes }
        ensures cause { PutCause self.old.failed_writes self.new.failed_writes result }
        ensures sure { result ≢ Err PutEnd.Memory }
        ensures counted { self.new
            ≡ record self.old { failed_writes = count_after_put self.old.failed_writes result } }
    {
        if write_file(&self.rt, name, bytes).is_err() {
            self.failed_writes = self.failed_writes.saturating_add(1);
            return Err(PutEnd::Failed);
        }
        Ok(())
    }
}

// Reads a file from its start to its end.
fn read_file<R: Runtime>(rt: &R, name: &str, limit: usize, into: &mut Vec<u8>) -> ReadEnd
    requires { into.old.items ≡ [] }
    ensures { LeavesIn limit into.new.items result }
{
    match fs::open(rt, name) {
        Ok(mut file) => take_all(&mut file, limit, into),
        Err(error) => end_unopened(&error),
    }
}

// How a read ends where the file does not open: the runtime finds none of this name, also where its path leads through a file, or it fails.
fn end_unopened(error: &Error) -> ReadEnd
    ensures { result ≡ unopened (error_kind error.now) }
{
    match error.kind() {
        ErrorKind::NotFound | ErrorKind::NotADirectory => ReadEnd::Missing,
        _ => ReadEnd::Failed,
    }
}

// Makes the file, or empties it, and writes these bytes.
fn write_file<R: Runtime>(rt: &R, name: &str, bytes: &[u8]) -> Result<(), Failed> {
    match fs::create(rt, name) {
        Ok(mut file) => put_all(&mut file, bytes),
        Err(_) => Err(Failed),
    }
}
