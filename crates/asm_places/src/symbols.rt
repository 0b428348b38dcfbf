// The symbols of an executable as names of a text.

ghost use Rattle.std.specs.Prelude.{◌≡◌, ℕ, List, OnOk};
ghost use Rattle.std.specs.Option.{option_or};
ghost use Rattle.asm_places.specs.Names.{first_of};
ghost use Rattle.asm_places.specs.NamesView.{known_in};
ghost use Rattle.asm_places.specs.Symbols.{symbols_defined};

use crate::names::{Names, define};
use crate::places::{Definition, Meaning};
use app_image::Symbol;
use asm_lines::{Span, spelling};
use std::alloc::AllocError;

/// Defines the symbols of an executable, with their names in its bytes. A name that is defined keeps its
/// definition.
pub fn define_symbols<'a>(
    names: &mut Names<'a>,
    bytes: &'a [u8],
    symbols: &[Symbol],
) -> Result<(), AllocError>
    ensures { OnOk result ((q : List ℕ) → known_in names.new q ≡ option_or (known_in names.old q) (first_of (symbols_defined bytes.now symbols.now) q)) }
{
    for symbol in symbols {
        let name = Span {
            start: symbol.start,
            len: symbol.len,
        };
        let definition = Definition {
            line: None,
            meaning: Meaning::Constant(i64::from(symbol.value)),
        };
        define(names, spelling(bytes, name), definition)?;
    }
    Ok(())
}
