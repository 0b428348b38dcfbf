ghost use Rattle.std.specs.Prelude.{◌≡◌, ◌<◌, ◌≤◌, length, IfOk, IfSome, OnOk, IsErrOf};
ghost use Rattle.outside.specs.Causes.{Rose};
ghost use Rattle.ucos_top.specs.Told.{ReadWhole};
ghost use Rattle.program_model.specs.Limits.{longest_input};

use crate::INPUT_LIMIT;
use outside::Source;
use std::alloc::Global;

/// Why the input was not read.
#[derive(Clone, Copy, Debug, PartialEq, Eq)]
pub enum InputError {
    /// A read failed.
    Fault,
    /// More than `INPUT_LIMIT` bytes came.
    TooLong,
    NoMemory,
}

// Reads the input to its end, or to the first piece past the limit. Each turn takes a byte or ends.
pub fn read_input<S: Source>(alloc: Global, source: &mut S) -> Result<Vec<u8>, InputError>
    ensures later { S.faults source.old ≤ S.faults source.new }
    ensures whole { IfOk result (λ input. IfSome (S.left source.old) (λ bytes. input.items ≡ bytes)) }
    ensures end { OnOk result (ReadWhole (S.left source.old) (S.left source.new)) }
    ensures within { IfOk result (λ input. length input.items ≤ longest_input) }
    ensures fault { IsErrOf result InputError.Fault → Rose (S.faults source.old) (S.faults source.new) }
    ensures too_long { IsErrOf result InputError.TooLong → IfSome (S.left source.old) (λ bytes. longest_input < length bytes) }
{
    let mut input = Vec::new(alloc);
    let mut piece = [0u8; 65536];
    'reading: loop {
        match source.read(&mut piece) {
            Err(_) => return Err(InputError::Fault),
            Ok(0) => return Ok(input),
            Ok(count) => {
                if input.extend_from_slice(&piece[..count]).is_err() {
                    return Err(InputError::NoMemory);
                }
                if input.len() > INPUT_LIMIT {
                    return Err(InputError::TooLong);
                }
            }
        }
    }
}
