// A sink that also keeps the first bytes.

ghost use Rattle.std.specs.Prelude.{◌≡◌, [], ◌++◌, take, MatchResult};
ghost use Rattle.outside.specs.Causes.{HasCause};
ghost use Rattle.outside.specs.Written.{WritesPiece};

use arrayvec::ArrayVec;
use outside::{Failed, Sink};

/// How many bytes a `KeepingSink` keeps.
pub const KEPT: usize = 32;

/// A sink that passes every piece on to another, and keeps the first 32 bytes that it was given, also
/// those of a piece whose write failed.
#[derive(Drop)]
pub struct KeepingSink<K: Sink> {
    inner: K,
    kept: ArrayVec<u8, KEPT>,
}

impl<K: Sink> KeepingSink<K> {
    /// Nothing is kept yet.
    pub fn new(inner: K) -> Self
        ensures inner { result.inner ≡ inner }
        ensures kept { result.kept.items ≡ [] }
    {
        KeepingSink {
            inner,
            kept: ArrayVec::new(),
        }
    }

    /// The sink that was written to, and the bytes that were kept.
    pub fn into_parts(self) -> (K, ArrayVec<u8, KEPT>)
        ensures inner { result.0 ≡ self.inner }
        ensures kept { result.1.items ≡ self.kept.items }
    {
        (self.inner, self.kept)
    }

    // Keeps what there is room for.
    fn keep(&mut self, piece: &[u8])
        ensures inner { self.new.inner ≡ self.old.inner }
        ensures kept { self.new.kept.items ≡ take 32 (self.old.kept.items ++ piece.now) }
    {
        let count = self.kept.remaining_capacity().min(piece.len());
        self.kept.try_extend_from_slice(&piece[..count]).unwrap();
    }
}

impl<K: Sink> Sink for KeepingSink<K> {
    ghost held = { λ s. K.held s.inner };

    ghost faults = { λ s. K.faults s.inner };

    #[tactic(auto, using(crate::proofs::Kept::kept_full))]
    fn write(&mut self, piece: &[u8]) -> Result<(), Failed>
        ensures bytes { WritesPiece (K.held self.old.inner) (K.held self.new.inner) result piece.now }
        ensures cause { HasCause (K.faults self.old.inner) (K.faults self.new.inner) result }
        ensures kept { self.new.kept.items ≡ take 32 (self.old.kept.items ++ piece.now) }
    {
        if !self.kept.is_full() {
            self.keep(piece);
        }
        self.inner.write(piece)
    }
}
