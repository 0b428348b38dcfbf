// Where lines begin, kept so that lines side by side that begin at one place share it.

ghost use Rattle.std.specs.Prelude.{◌≡◌, ◌<◌, ◌^◌, ◌++◌, ◌∷◌, [], length, OnOk, OnErr};
ghost use Rattle.asm_places.specs.Operands.{place_at as place_in};
ghost use Rattle.asm_places.specs.LinePlacesView.{IsEndedWith};

use crate::places::{NO_PLACE, Place};
use std::alloc::{AllocError, Global};
use std::marker::Model;

/// Where lines begin, in order.
#[derive(Drop)]
pub struct LinePlaces {
    /// The places, of lines side by side each once.
    distinct: Vec<Place>,
    /// Which of them is the place of each line.
    indices: Vec<u32>,
}

impl Model for LinePlaces {
    ghost use Rattle.std.specs.Prelude.{List};
    ghost use Rattle.asm_places.specs.Place.{Place as Read};
    ghost use Rattle.asm_places.specs.LinePlacesView.{places_by, IsShared};

    ghost Value = { List Read };

    ghost view = { λ p. places_by p.distinct.items p.indices.items };

    ghost invariant = { λ p. IsShared p.distinct.items p.indices.items };
}

// Ends some places with this one, unless they do already.
fn end_with(places: &mut Vec<Place>, place: Place) -> Result<(), AllocError>
    ensures ok { OnOk result (IsEndedWith places.old.items place places.new.items) }
    ensures err { OnErr result (places.new.items ≡ places.old.items) }
{
    match places.last() {
        Some(last) if *last == place => {}
        _ => places.push(place)?,
    }
    Ok(())
}

impl LinePlaces {
    pub fn new(alloc: Global) -> LinePlaces
        ensures { result ≡ [] }
    {
        LinePlaces {
            distinct: Vec::new(alloc),
            indices: Vec::new(alloc),
        }
    }

    /// Adds the place of the next line. There are no places after an error.
    pub fn push(&mut self, place: Place) -> Result<(), AllocError>
        requires { length self.old < 2 ^ 32 }
        ensures ok { OnOk result (self.new ≡ self.old ++ place ∷ []) }
    {
        end_with(&mut self.distinct, place)?;
        let index = (self.distinct.len() - 1) as u32;
        let Ok(()) = self.indices.push(index) else {
            self.distinct.clear();
            self.indices.clear();
            return Err(AllocError);
        };
        Ok(())
    }

    /// The place of the line that so many lines stand before.
    pub fn at(&self, line: usize) -> Place
        ensures { result ≡ place_in self.now line }
    {
        match self.indices.get(line) {
            Some(index) => self
                .distinct
                .get(*index as usize)
                .copied()
                .unwrap_or(NO_PLACE),
            None => NO_PLACE,
        }
    }
}
