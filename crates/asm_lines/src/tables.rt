// Tables by name.

ghost use Rattle.std.specs.Prelude.{◌≡◌, map};
ghost use Rattle.asm_lines.specs.Tables.{entry, row_of};

/// The entry of a name in a table.
pub fn entry<V: Copy>(name: &[u8], table: &[(&[u8], V)]) -> Option<V>
    ensures { result ≡ entry name.now (map row_of table.now) }
{
    for (spelled, value) in table {
        if name == *spelled {
            return Some(*value);
        }
    }
    None
}
