// A sink that grows.

ghost use Rattle.std.specs.Prelude.{◌≡◌, ◌<◌, ◌↔◌, [], IsTrue, Some};
ghost use Rattle.outside.specs.Causes.{HasCause};
ghost use Rattle.outside.specs.Written.{WritesPiece};

use outside::{Failed, Sink};
use std::alloc::Global;

// The bytes that were written. Want of memory is a fault.
#[derive(Drop)]
pub struct Page {
    held: Vec<u8>,
    faults: u64,
}

impl Page {
    // Nothing is written.
    pub fn new(alloc: Global) -> Page
        ensures held { result.held.items ≡ [] }
        ensures faults { result.faults ≡ 0 }
    {
        Page {
            held: Vec::new(alloc),
            faults: 0,
        }
    }

    // Whether a write failed.
    pub fn has_failed(&self) -> bool
        ensures { IsTrue result ↔ 0 < self.now.faults }
    {
        self.faults > 0
    }

    // What was written.
    pub fn into_bytes(self) -> Vec<u8>
        ensures { result.items ≡ self.held.items }
    {
        self.held
    }
}

impl Sink for Page {
    ghost held = { λ s. Some s.held.items };

    ghost faults = { λ s. s.faults };

    fn write(&mut self, piece: &[u8]) -> Result<(), Failed>
        ensures bytes { WritesPiece (Some self.old.held.items) (Some self.new.held.items) result piece.now }
        ensures cause { HasCause self.old.faults self.new.faults result }
    {
        if self.held.extend_from_slice(piece).is_err() {
            self.faults = self.faults.saturating_add(1);
            return Err(Failed);
        }
        Ok(())
    }
}
