// Whole pieces and whole files, by the calls of a reader and a writer that may move less.
ghost use Rattle.std.specs.Prelude.{◌≡◌, ◌≢◌, []};
ghost use Rattle.solver_io.specs.Files.{LeavesIn, TakesAll};
ghost use Rattle.solver_io.specs.Moving.{AppendsPiece};

use crate::{Failed, ReadEnd};
use std::io::{Read, Write};

const CHUNK: usize = 4096;

// Writes the whole piece. A write that takes nothing is a fault.
pub(crate) fn put_all<W: Write>(to: &mut W, piece: &[u8]) -> Result<(), Failed>
    ensures { AppendsPiece (W.contents to.old) (W.contents to.new) piece.now result }
{
    let mut rest = piece;
    while !rest.is_empty() {
        let Ok(count) = to.write(rest) else {
            return Err(Failed);
        };
        if count == 0 {
            return Err(Failed);
        }
        rest = &rest[count..];
    }
    Ok(())
}

// Reads to the end, if that takes at most `limit` bytes.
pub(crate) fn take_all<F: Read>(file: &mut F, limit: usize, into: &mut Vec<u8>) -> ReadEnd
    requires { into.old.items ≡ [] }
    ensures leaves { LeavesIn limit into.new.items result }
    ensures takes { TakesAll (F.remaining file.old) limit into.new.items result }
    ensures there { result ≢ ReadEnd.Missing }
{
    let end = take_some(file, limit, into);
    if end != ReadEnd::Whole {
        into.clear();
    }
    end
}

// The same, but leaves in `into` what came before it stopped.
fn take_some<F: Read>(file: &mut F, limit: usize, into: &mut Vec<u8>) -> ReadEnd
    requires { into.old.items ≡ [] }
    ensures leaves { result ≡ ReadEnd.Whole → LeavesIn limit into.new.items result }
    ensures takes { TakesAll (F.remaining file.old) limit into.new.items result }
    ensures there { result ≢ ReadEnd.Missing }
{
    let mut chunk = [0u8; CHUNK];
    loop {
        let Ok(count) = file.read(&mut chunk) else {
            return ReadEnd::Failed;
        };
        if count == 0 {
            return ReadEnd::Whole;
        }
        if count > limit - into.len() {
            return ReadEnd::TooLong;
        }
        if into.extend_from_slice(&chunk[..count]).is_err() {
            return ReadEnd::Memory;
        }
    }
}
