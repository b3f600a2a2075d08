// Forms that aren't the same under every assignment.
ghost use Rattle.std.specs.Prelude.{◌≡◌, IfOk, IsTrue};
ghost use Rattle.form_values.specs.OpenForms.{is_open};

use affine_forms::Form;
use memory::Memory;
use std::alloc::Global;

/// A form with a term.
#[derive(Drop)]
pub struct Open {
    pub form: Form,
    pub ghost has_a_term: { IsTrue (is_open form) },
}

impl Open {
    ghost use Rattle.form_values.specs.Entries.{open_decision};

    /// The form of a decision.
    pub fn decision(alloc: Global, j: u16) -> Open
        ensures { result ≡ open_decision j }
    {
        Open {
            form: Form::decision(alloc, j),
        }
    }

    /// The same form again.
    pub fn copy(&self) -> Result<Open, Memory>
        ensures { IfOk result (λ copy. copy ≡ self.now) }
    {
        Ok(Open {
            form: self.form.copy()?,
        })
    }
}
