// Names of tasks and objects.

ghost use Rattle.std.specs.Prelude.{◌≡◌, ◌≤◌, length};

use std::marker::Model;

/// The name of a task or an object: its 1 to 16 bytes.
#[derive(Clone, Copy)]
pub struct Name {
    bytes: [u8; 16],
    len: u8,
}

impl Model for Name {
    ghost use Rattle.std.specs.Prelude.{List, ℕ};

    ghost Value = { List ℕ };

    ghost use Rattle.app_image.specs.NameView.{name_of, IsPadded, padded, padded-name_of};

    ghost view = { name_of };

    ghost invariant = { IsPadded };

    ghost inverse = { padded };

    ghost inverse_ok = { padded-name_of };
}

impl Name {
    ghost use Rattle.app_image.specs.Padding.{name_bytes};

    /// The name with these bytes.
    pub fn of(text: &[u8]) -> Name
        requires some { 1 ≤ length text.now }
        requires short { length text.now ≤ 16 }
        ensures { result ≡ text.now }
    {
        let mut bytes = [0; 16];
        bytes[..text.len()].copy_from_slice(text);
        Name {
            bytes,
            len: text.len() as u8,
        }
    }

    /// The bytes of the name.
    pub fn bytes(&self) -> &[u8]
        ensures value { result.now ≡ self.now }
        ensures some { 1 ≤ length self.now }
        ensures short { length self.now ≤ 16 }
    {
        &self.bytes[..self.len as usize]
    }

    // The 16 bytes of the name, with zeros at their end.
    pub(crate) fn padded(&self) -> [u8; 16]
        ensures { result ≡ name_bytes self.now }
    {
        self.bytes
    }
}
