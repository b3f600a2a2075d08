// Reading the certificate.
ghost use Rattle.std.specs.Prelude.{◌≡◌, ◌≤◌, IfOk, IfSome, length};
ghost use Rattle.std.specs.FinMap.{get};
ghost use Rattle.optcheck_cli.specs.Inner.{EndCause, ReadsBytes, ReadsCertificate, ReadsText};

use crate::halt::{End, Halt};
use cell_refs::FILE_BYTES;
use certificate_texts::{Cert, CertFault, read_cert};
use run_inputs::{Limit, Stop};
use solver_io::{Folder, ReadEnd};
use std::alloc::Global;
use std::str;

/// Reads the certificate in the file of this name.
pub(crate) fn read_certificate<F: Folder>(
    alloc: Global,
    folder: &mut F,
    word: &str,
) -> Result<Cert, End>
    ensures reads { IfSome (F.content folder.old)
        (λ files. ReadsCertificate (get files word.now) result) }
    ensures same { F.content folder.new ≡ F.content folder.old }
    ensures cause { EndCause (F.read_faults folder.old) (F.read_faults folder.new) result }
    ensures writes { F.write_faults folder.new ≡ F.write_faults folder.old }
    ensures wants { F.write_wants folder.new ≡ F.write_wants folder.old }
{
    let bytes = read_bytes(alloc, folder, word)?;
    certificate_of(alloc, &bytes)
}

// Reads the bytes of the file.
fn read_bytes<F: Folder>(alloc: Global, folder: &mut F, word: &str) -> Result<Vec<u8>, End>
    ensures reads { IfSome (F.content folder.old)
        (λ files. ReadsBytes (get files word.now) result) }
    ensures fits { IfOk result (λ bytes. length bytes.items ≤ FILE_BYTES) }
    ensures same { F.content folder.new ≡ F.content folder.old }
    ensures cause { EndCause (F.read_faults folder.old) (F.read_faults folder.new) result }
    ensures writes { F.write_faults folder.new ≡ F.write_faults folder.old }
    ensures wants { F.write_wants folder.new ≡ F.write_wants folder.old }
{
    let mut bytes = Vec::new(alloc);
    match folder.read(word, FILE_BYTES, &mut bytes) {
        ReadEnd::Whole => Ok(bytes),
        ReadEnd::Missing => Err(End::Halted(Halt::Missing)),
        ReadEnd::TooLong => Err(End::Halted(Halt::Files(Stop::TooMuch(Limit::FileBytes)))),
        ReadEnd::Failed => Err(End::Failed),
        ReadEnd::Memory => Err(End::Memory),
    }
}

// The certificate of which the bytes are the text.
fn certificate_of(alloc: Global, bytes: &[u8]) -> Result<Cert, End>
    requires { length bytes.now ≤ FILE_BYTES }
    ensures { ReadsText bytes.now result }
{
    match str::from_utf8(bytes) {
        Ok(text) => cert_of(alloc, text),
        Err(error) => Err(End::Halted(Halt::NotUtf8(error.valid_up_to() as u32))),
    }
}

// The certificate of which this is the text.
fn cert_of(alloc: Global, text: &str) -> Result<Cert, End>
    requires { length text.now ≤ FILE_BYTES }
    ensures { ReadsText text.now result }
{
    match read_cert(alloc, text) {
        Ok(cert) => Ok(cert),
        Err(CertFault::Line(line)) => Err(End::Halted(Halt::Line(line))),
        Err(CertFault::Memory) => Err(End::Memory),
    }
}
