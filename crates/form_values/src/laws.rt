// What is true of every open form.
ghost use Rattle.form_values.specs.Meaning.{OpenHasATerm};

/// Every open form is a form, and has a term.
pub fn open_laws()
    ensures { OpenHasATerm }
{}
