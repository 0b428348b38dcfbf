// Pseudo-random draws.

ghost use Rattle.std.specs.Prelude.{◌≡◌, ◌<◌};
ghost use Rattle.program_model.specs.Draws.{after, drawn};

// A number of the sequence, behind which further ones are drawn.
#[derive(Drop)]
pub struct Draws(pub u64);

impl Draws {
    // A draw below this bound.
    #[tactic(auto, using(crate::proofs::DrawLaws::next_number))]
    pub fn below(&mut self, bound: u32) -> u32
        requires { 0 < bound }
        ensures next { self.new.0 ≡ after self.old.0 }
        ensures value { result ≡ drawn (after self.old.0) bound }
        ensures below { result < bound }
    {
        self.0 = self
            .0
            .wrapping_mul(6_364_136_223_846_793_005)
            .wrapping_add(1_442_695_040_888_963_407);
        ((self.0 >> 33) % u64::from(bound)) as u32
    }
}
