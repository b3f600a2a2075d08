// What the words of the command line ask for.
use command_line::Named;

/// The files of a workbook, and that of a certificate.
#[derive(Drop)]
pub(crate) struct Asked {
    pub(crate) named: Named,
    pub(crate) certificate: String,
}
