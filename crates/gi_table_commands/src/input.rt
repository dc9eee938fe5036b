ghost use Rattle.std.specs.Prelude.{◌≡◌, ◌≢◌, ◌+◌, ◌<◌, ◌≤◌, ℕ, true, false, Err, IfOk, IfErr, IfSome, None, Ok, OnErr, OnOk, Some, length};
ghost use Rattle.std.specs.IoError.{error_kind};
ghost use Rattle.gi_table_commands.specs.Input.{IsChunk, IsInputFault, most_input, most_reads};

use crate::fault::Fault;
use std::alloc::Global;
use std::io::{self, ErrorKind, Read};

/// The most bytes of input that a command takes.
pub const MOST_INPUT: usize = 67_108_864;

/// How often a command calls its reader before it gives up.
const MOST_READS: u32 = 134_217_728;

const CHUNK: usize = 65_536;

/// How a reader has been called: how often, and whether a call failed for good.
#[derive(Clone, Copy)]
pub struct Calls {
    pub made: u32,
    pub failed: bool,
}

impl Calls {
    /// No call yet.
    pub fn none() -> Calls
        ensures made { result.made ≡ 0 }
        ensures failed { result.failed ≡ false }
    {
        Calls {
            made: 0,
            failed: false,
        }
    }
}

/// What comes of a call: an interrupted one is made again, and any other that failed is `Read`.
fn judged(read: io::Result<usize>, calls: &mut Calls) -> Result<Option<usize>, Fault>
    ensures given { (count : ℕ) → read ≡ Ok count → (result ≡ Ok (Some count)) × (calls.new ≡ calls.old) }
    ensures again { IfErr read (λ error. error_kind error ≡ ErrorKind.Interrupted → (result ≡ Ok None) × (calls.new ≡ calls.old)) }
    ensures failed { IfErr read (λ error. error_kind error ≢ ErrorKind.Interrupted → (result ≡ Err Fault.Read) × (calls.new ≡ record calls.old { failed = true })) }
{
    match read {
        Ok(count) => Ok(Some(count)),
        Err(error) if error.kind() == ErrorKind::Interrupted => Ok(None),
        Err(_) => {
            calls.failed = true;
            Err(Fault::Read)
        }
    }
}

fn read_chunk<R: Read>(
    input: &mut R,
    chunk: &mut [u8],
    calls: &mut Calls,
) -> Result<Option<usize>, Fault>
    requires { calls.old.made < most_reads }
    ensures counted { calls.new.made ≡ calls.old.made + 1 }
    ensures sound { OnOk result (calls.new.failed ≡ calls.old.failed) }
    ensures failed { OnErr result (calls.new.failed ≡ true) }
    ensures fault { IfErr result (λ fault. fault ≡ Fault.Read) }
    ensures read { IfOk result (IsChunk (R.remaining input.old) (R.remaining input.new) chunk.new) }
{
    calls.made += 1;
    judged(input.read(chunk), calls)
}

/// All that the reader has left: `TooLarge` for more than `MOST_INPUT` bytes, and `Read` where the
/// reader fails or has been called `MOST_READS` times. A read that was interrupted is made again.
pub fn read_input<R: Read>(
    alloc: Global,
    input: &mut R,
    calls: &mut Calls,
) -> Result<Vec<u8>, Fault>
    requires made { calls.old.made ≡ 0 }
    requires failed { calls.old.failed ≡ false }
    ensures whole { IfOk result (λ bytes. IfSome (R.remaining input.old) (λ all. bytes.items ≡ all)) }
    ensures within { IfOk result (λ bytes. length bytes.items ≤ most_input) }
    ensures refused { IfErr result (IsInputFault (R.remaining input.old) calls.new) }
{
    let mut bytes = Vec::new(alloc);
    let mut chunk = [0; CHUNK];
    for _ in 0..MOST_READS {
        match read_chunk(input, &mut chunk, calls)? {
            None => {}
            Some(0) => return Ok(bytes),
            Some(count) => {
                if count > MOST_INPUT - bytes.len() {
                    return Err(Fault::TooLarge);
                }
                if bytes.extend_from_slice(&chunk[..count]).is_err() {
                    return Err(Fault::OutOfMemory);
                }
            }
        }
    }
    Err(Fault::Read)
}
