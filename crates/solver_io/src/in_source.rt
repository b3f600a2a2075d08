// The source over standard input. It tells no content.
ghost use Rattle.std.specs.Prelude.{◌≡◌, ◌<◌, length};
ghost use Rattle.std.specs.Io.{ReadsAtMost};
ghost use Rattle.solver_io.specs.Causes.{HasCause};
ghost use Rattle.solver_io.specs.Memory.{count_after};

use crate::{Failed, Source};
use std::io::Read;
use std::marker::Model;
use std::rt::Runtime;

/// Standard input. Contracts see its count of the runtime's errors.
#[derive(Drop)]
pub struct InSource<R: Runtime> {
    rt: R,
    faults: u64,
}

impl<R: Runtime> Model for InSource<R> {
    ghost use Rattle.std.specs.Prelude.{ℕ};

    ghost Value = { ℕ };

    ghost view = { λ s. s.faults };
}

impl<R: Runtime> InSource<R> {
    pub fn new(rt: R) -> InSource<R>
        ensures { result ≡ 0 }
    {
        InSource { rt, faults: 0 }
    }
}

impl<R: Runtime> Source for InSource<R> {
    ghost use Rattle.std.specs.Prelude.{None};

    ghost left = { λ _. None };

    ghost faults = { λ s. s };

    fn read(&mut self, into: &mut [u8]) -> Result<usize, Failed>
        requires { 0 < length into.old }
        ensures bound { ReadsAtMost result into.new }
        ensures cause { HasCause self.old self.new result }
        ensures counted { self.new ≡ count_after self.old result }
    {
        let Ok(count) = self.rt.reader().read(into) else {
            self.faults = self.faults.saturating_add(1);
            return Err(Failed);
        };
        Ok(count)
    }
}
