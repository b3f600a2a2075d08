// What is true of addresses and of what is printed.
ghost use Rattle.commands.specs.Printing.{CertificatesArePrinted};
ghost use Rattle.commands.specs.Spelling.{AddressesAreSpelled};

/// The address that is read in a text is the one that it spells.
pub fn addresses_are_spelled()
    ensures { AddressesAreSpelled }
{}

/// What is printed of a certificate is its text.
pub fn certificates_are_printed()
    ensures { CertificatesArePrinted }
{}
