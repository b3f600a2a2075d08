// How texts are compared.

use std::test::Fail;

/// Fails where a text isn't the one that is wanted.
pub(crate) fn check(found: &str, want: &str, shows: &str) -> Result<(), Fail> {
    if found != want {
        return Err(Fail::new(format_args!("{shows}: {found} and not {want}")));
    }
    Ok(())
}
