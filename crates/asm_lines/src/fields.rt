// The operands of a declaration, in memory of their own, and those of `.word`, as their tokens: so every line stays small.

ghost use Rattle.std.specs.Prelude.{◌≡◌, ◌<◌, ◌^◌, length, IfOk};

use crate::pieces::Operand;
use std::alloc::{AllocError, Global};
use std::marker::Model;
use text_lex::Token;

/// The operands of a declaration.
#[derive(Drop)]
pub struct Fields<const N: usize> {
    operands: Box<[Operand; N]>,
}

impl<const N: usize> Model for Fields<N> {
    ghost use Rattle.std.specs.Prelude.{List};
    ghost use Rattle.asm_lines.specs.declared.pieces.Operand.{Operand as Read};

    ghost Value = { List Read };

    ghost view = { λ f. f.operands.value };
}

impl<const N: usize> Fields<N> {
    pub fn new(alloc: Global, operands: [Operand; N]) -> Result<Fields<N>, AllocError>
        ensures { IfOk result (λ fields. fields ≡ operands.entry) }
    {
        let operands = Box::new(alloc, operands)?;
        Ok(Fields { operands })
    }

    /// All of them, in order.
    pub fn all(&self) -> &[Operand; N]
        ensures { result.now ≡ self.now }
    {
        &*self.operands
    }
}

/// The values of `.word`, as their tokens with the commas between them.
#[derive(Drop)]
pub struct Listed<'a> {
    tokens: &'a [Token],
}

impl<'a> Model for Listed<'a> {
    ghost use Rattle.std.specs.Prelude.{◌<◌, ◌^◌, List, length};
    ghost use Rattle.text_lex.specs.declared.Token.{Token as Read};

    ghost Value = { List Read };

    ghost view = { λ l. l.tokens.now };

    ghost invariant = { λ l. length l.tokens.now < 2 ^ 32 };
}

impl<'a> Listed<'a> {
    pub fn new(tokens: &'a [Token]) -> Listed<'a>
        requires { length tokens.now < 2 ^ 32 }
        ensures { result ≡ tokens.now }
    {
        Listed { tokens }
    }

    /// The tokens, in order.
    pub fn tokens(&self) -> &[Token]
        ensures same { result.now ≡ self.now }
        ensures few { length result.now < 2 ^ 32 }
    {
        self.tokens
    }
}
