// The text of a certificate.
ghost use Rattle.std.specs.Prelude.{◌≡◌, ◌++◌, List, OnOk, codes, string_bytes, ℕ};
ghost use Rattle.commands.specs.Certificates.{certificate_text};
ghost use Rattle.commands.specs.Printing.{IsReadWhere};

use certificate_texts::{Cert, write_cert};
use sheet_model::Memory;

/// Appends the text of a certificate, without its last line end.
pub(crate) fn say_certificate(cert: &Cert, to: &mut String) -> Result<(), Memory>
    ensures text { OnOk result (string_bytes to.new
        ≡ string_bytes to.old ++ certificate_text cert.now) }
    ensures reads_back { OnOk result (IsReadWhere cert.now) }
{
    // (this call lends the proof that the nodes list one tree)
    let _nodes = cert.tree.nodes();
    let mut text = String::new(*to.allocator());
    write_cert(&cert.tree, &cert.claim, cert.value, &mut text)?;
    to.push_str(before_line_end(text.as_str()))?;
    Ok(())
}

// What stands before the line end with which the text ends.
fn before_line_end(text: &str) -> &str
    ensures { (front : List ℕ) → text.now ≡ front ++ codes "\n" → result.now ≡ front }
{
    match text.strip_suffix('\n') {
        Some(front) => front,
        None => text,
    }
}
