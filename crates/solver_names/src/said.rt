// What a name says.
ghost use Rattle.std.specs.Prelude.{◌≡◌};
ghost use Rattle.solver_names.specs.Texts.{by_form, is_absent, is_unformed};

/// A name that isn't there, one whose text isn't of its form, or what it says.
#[derive(Drop)]
pub(crate) enum Said<T> {
    Absent,
    Unformed,
    Says(T),
}

impl<T> Said<T> {
    /// What a text says that is there.
    pub(crate) fn by_form(read: Option<T>) -> Said<T>
        ensures { result ≡ by_form read }
    {
        match read {
            Some(said) => Said::Says(said),
            None => Said::Unformed,
        }
    }

    pub(crate) fn is_absent(&self) -> bool
        ensures { result ≡ is_absent self.now }
    {
        matches!(self, Said::Absent)
    }

    pub(crate) fn is_unformed(&self) -> bool
        ensures { result ≡ is_unformed self.now }
    {
        matches!(self, Said::Unformed)
    }
}
