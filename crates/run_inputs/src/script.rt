// Reading the script.
ghost use Rattle.std.specs.Prelude.{◌≡◌, ◌≤◌, IfOk, IfSome, length};
ghost use Rattle.run_inputs.specs.Inputs.{EndCause, FindsCommands, ReadsRecords, ReadsScript};

use crate::stop::{Cause, End, Input, Limit, Stop};
use cell_refs::FILE_BYTES;
use sheet_csv::{Rows, SheetFault, read_records};
use solver_io::Source;
use std::alloc::Global;

const CHUNK: usize = 4096;

/// Reads the script to its end, and the records in it.
pub(crate) fn read_commands<S: Source>(alloc: Global, script: &mut S) -> Result<Rows, End>
    ensures finds { IfSome (S.left script.old)
        (λ bytes. FindsCommands bytes (S.left script.new) result) }
    ensures cause { EndCause (S.faults script.old) (S.faults script.new) result }
{
    let bytes = read_script(alloc, script)?;
    records(alloc, &bytes)
}

// Reads all that is left of the script.
fn read_script<S: Source>(alloc: Global, script: &mut S) -> Result<Vec<u8>, End>
    ensures reads { IfSome (S.left script.old)
        (λ bytes. ReadsScript bytes (S.left script.new) result) }
    ensures fits { IfOk result (λ bytes. length bytes.items ≤ FILE_BYTES) }
    ensures cause { EndCause (S.faults script.old) (S.faults script.new) result }
{
    let mut bytes = Vec::new(alloc);
    let mut chunk = [0u8; CHUNK];
    loop {
        let Ok(count) = script.read(&mut chunk) else {
            return Err(End::Failed);
        };
        if count == 0 {
            return Ok(bytes);
        }
        if count > FILE_BYTES - bytes.len() {
            return Err(End::Stopped(Stop::TooMuch(Limit::ScriptBytes)));
        }
        if bytes.extend_from_slice(&chunk[..count]).is_err() {
            return Err(End::Memory);
        }
    }
}

// The records of a script.
fn records(alloc: Global, script: &[u8]) -> Result<Rows, End>
    requires { length script.now ≤ FILE_BYTES }
    ensures { ReadsRecords script.now result }
{
    match read_records(alloc, script) {
        Ok(rows) => Ok(rows),
        Err(SheetFault::NotUtf8(place)) => {
            let cause = Cause::NotUtf8(place);
            Err(End::Stopped(Stop::BadInput(Input::Script, cause)))
        }
        Err(SheetFault::Memory) => Err(End::Memory),
        Err(_) => unreachable!(),
    }
}
