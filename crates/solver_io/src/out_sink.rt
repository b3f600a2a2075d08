// The sink over standard output. It tells no content.
ghost use Rattle.std.specs.Prelude.{◌≡◌, ◌≤◌};
ghost use Rattle.solver_io.specs.Bytes.{PutCause};
ghost use Rattle.solver_io.specs.Memory.{count_after_put};

use crate::transfers::put_all;
use crate::{PutEnd, Sink};
use std::io;
use std::marker::Model;
use std::rt::Runtime;

/// Standard output. Contracts see its count of the writes that failed.
#[derive(Drop)]
pub struct OutSink<R: Runtime> {
    rt: R,
    faults: u64,
}

impl<R: Runtime> Model for OutSink<R> {
    ghost use Rattle.std.specs.Prelude.{ℕ};

    ghost Value = { ℕ };

    ghost view = { λ s. s.faults };
}

impl<R: Runtime> OutSink<R> {
    pub fn new(rt: R) -> OutSink<R>
        ensures { result ≡ 0 }
    {
        OutSink { rt, faults: 0 }
    }
}

impl<R: Runtime> Sink for OutSink<R> {
    ghost use Rattle.std.specs.Prelude.{None};

    ghost pieces = { λ _. None };

    ghost faults = { λ s. s };

    fn write(&mut self, piece: &[u8]) -> Result<(), PutEnd>
        ensures later { self.old ≤ self.new }
        ensures cause { PutCause self.old self.new result }
        ensures counted { self.new ≡ count_after_put self.old result }
    {
        if put_all(&mut io::writer(&self.rt), piece).is_err() {
            self.faults = self.faults.saturating_add(1);
            return Err(PutEnd::Failed);
        }
        Ok(())
    }
}
