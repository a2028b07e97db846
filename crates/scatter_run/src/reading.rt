//! Reads the input to its end.
ghost use Rattle.std.specs.Prelude.{◌≡◌, ◌≤◌, length, IfOk, OnOk, Err};
ghost use Rattle.limits.specs.Limits.{most_bytes};
ghost use Rattle.outside_io.specs.Outside.{Rose};
ghost use Rattle.scatter_run.specs.Reading.{IsReadWhole, IsTooLong};

use limits::MOST_BYTES;
use outside_io::Source;
use std::alloc::Global;

/// The most bytes that one read asks for.
const PIECE: usize = 4096;

/// Why the input isn't there whole.
#[derive(Clone, Copy, Debug, PartialEq, Eq)]
pub(crate) enum InputFault {
    Failed,
    TooLong,
    Memory,
}

/// All bytes that the source has left, at most `MOST_BYTES` of them.
pub(crate) fn read_input<S: Source>(alloc: Global, source: &mut S) -> Result<Vec<u8>, InputFault>
    ensures whole { IfOk result (λ b. IsReadWhole (S.left source.old) (S.left source.new) b.items) }
    ensures short { IfOk result (λ bytes. length bytes.items ≤ most_bytes) }
    ensures long { result ≡ Err InputFault.TooLong → IsTooLong (S.left source.old) }

    // The source failed exactly where that is told.
    ensures failed { result ≡ Err InputFault.Failed → Rose (S.faults source.old) (S.faults source.new) }
    ensures memory { result ≡ Err InputFault.Memory → S.faults source.new ≡ S.faults source.old }
    ensures kept { OnOk result (S.faults source.new ≡ S.faults source.old) }
    ensures later { S.faults source.old ≤ S.faults source.new }
{
    let mut bytes = Vec::new(alloc);
    let mut piece = [0u8; PIECE];
    while bytes.len() <= MOST_BYTES {
        let Ok(taken) = source.read(&mut piece) else {
            return Err(InputFault::Failed);
        };
        if taken == 0 {
            return Ok(bytes);
        }
        if bytes.extend_from_slice(&piece[..taken]).is_err() {
            return Err(InputFault::Memory);
        }
    }
    Err(InputFault::TooLong)
}
