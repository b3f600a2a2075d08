// Terms that are added to others in place.
ghost use Rattle.std.specs.Prelude.{◌≡◌, ◌+◌, ◌<◌, IfErr, OnErr, length};
ghost use Rattle.std.specs.Result.{result_map_both};
ghost use Rattle.affine_forms.specs.Answers.{Answers};
ghost use Rattle.affine_forms.specs.Forms.{RiseFrom};
ghost use Rattle.affine_forms.specs.Lists.{NeedsRoomFor};
ghost use Rattle.affine_forms.specs.Steps.{merged};
ghost use Rattle.affine_forms.specs.declared.stop.FormStop.TheVariants as stops;

use crate::comparing::lie_behind;
use crate::merging::sum_of_terms;
use crate::stop::FormStop;
use crate::terms::Terms;
use frac128::Frac;

/// The sum in place of the terms. Terms behind all others are put there, and nothing else is moved.
pub(crate) fn add_terms(terms: &mut Terms, more: &[(u16, Frac)]) -> Result<(), FormStop>
    requires { RiseFrom 0 terms.old }
    ensures answer { Answers (merged terms.old more.now)
        (result_map_both (λ _. terms.new) (λ stop. stop) result) }
    ensures unchanged { OnErr result (terms.new ≡ terms.old) }
    ensures in_place { IfErr result (λ stop. stop ≡ stops.Memory
        → NeedsRoomFor (merged terms.old more.now)) }
    ensures few { IfErr result (λ stop. stop ≡ stops.Memory
        → 2 < length terms.old + length more.now) }
{
    if lie_behind(terms.as_slice(), more) {
        terms.append(more)?;
        return Ok(());
    }
    *terms = sum_of_terms(terms.alloc(), terms.as_slice(), more)?;
    Ok(())
}
