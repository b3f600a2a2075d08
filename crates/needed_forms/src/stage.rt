// The kinds of refusals, as they come one after the other.
ghost use Rattle.std.specs.Prelude.{◌≡◌};
ghost use Rattle.needed_forms.specs.Stages.{is_circular, is_in, is_malformed, is_no_number, is_refused};

use form_needs::FormRefusal;

/// The kinds of refusals in their order.
#[derive(Clone, Copy)]
pub(crate) enum Stage {
    Malformed,
    Circular,
    /// A refusal of a place's own formula.
    Refused,
    NotNumber,
}

/// Whether there is a refusal, which is of this kind.
pub(crate) fn is_in(stage: Stage, refusal: Option<FormRefusal>) -> bool
    ensures { result ≡ is_in stage refusal }
{
    match refusal {
        None => false,
        Some(FormRefusal::Malformed(_)) => is_malformed(stage),
        Some(FormRefusal::Circular(_)) => is_circular(stage),
        Some(FormRefusal::NotNumber(_)) => is_no_number(stage),
        Some(_) => is_refused(stage),
    }
}

// Whether this is the first kind.
fn is_malformed(stage: Stage) -> bool
    ensures { result ≡ is_malformed stage }
{
    match stage {
        Stage::Malformed => true,
        _ => false,
    }
}

// Whether this is the second kind.
fn is_circular(stage: Stage) -> bool
    ensures { result ≡ is_circular stage }
{
    match stage {
        Stage::Circular => true,
        _ => false,
    }
}

// Whether this is the third kind.
fn is_refused(stage: Stage) -> bool
    ensures { result ≡ is_refused stage }
{
    match stage {
        Stage::Refused => true,
        _ => false,
    }
}

// Whether this is the last kind.
fn is_no_number(stage: Stage) -> bool
    ensures { result ≡ is_no_number stage }
{
    match stage {
        Stage::NotNumber => true,
        _ => false,
    }
}
