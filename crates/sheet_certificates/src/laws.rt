// What is true of the certificates of sheets.
ghost use Rattle.sheet_certificates.specs.Laws.{CertificatesAreReadable, CertificatesReadBack};

/// The certificate of a search of a model that has a decision has a text of its own, which is light enough to be read.
pub fn certificates_are_readable()
    ensures { CertificatesAreReadable }
{}

/// So the text that is printed of it is read as this certificate, and as no other.
pub fn certificates_read_back()
    ensures { CertificatesReadBack }
{}
