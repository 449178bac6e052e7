// What the order desk's C program calls: preparing (crate sheets) and both ceilings (crate codes), each answer as one signed number. c/finder.h is the C side.
#![tactic(auto)]

ghost use Rattle.std.specs.Prelude.{◌≡◌, ◌^◌, ◌<◌, length};
ghost use Rattle.codes.specs.Refusals.{answer_value, told};
ghost use Rattle.codes.specs.Entry.{byte_answer, total_answer};
ghost use Rattle.sheets.specs.Entry.{prepare_answer, prepare_buffer};
ghost use Rattle.desk.specs.Signed.{signed};

use codes::{byte_ceiling, total_ceiling};
use runs::Refusal;
use sheets::prepare;

// An answer as one signed number: the value, or minus the refusal's number.
fn signed(answer: Result<u64, Refusal>) -> i64
    requires { answer_value (told answer) < 2 ^ 63 }
    ensures { result ≡ signed (told answer) }
{
    match answer {
        Ok(value) => value as i64,
        Err(refusal) => -i64::from(refusal.number()),
    }
}

// The sheet of a code, written to the buffer's start: its length in bytes. A refusal changes nothing.
#[unsafe(no_mangle)]
pub extern "C" fn finder_prepare(code: &[u8], buffer: &mut [u8]) -> i64
    ensures { (result ≡ signed (prepare_answer code.now (length buffer.old)))
        × (buffer.new ≡ prepare_buffer code.now buffer.old) }
{
    signed(prepare(code, buffer))
}

// The byte ceiling of a code: no byte of a text costs more comparisons.
#[unsafe(no_mangle)]
pub extern "C" fn finder_byte_ceiling(code: &[u8]) -> i64
    ensures { result ≡ signed (byte_answer code.now) }
{
    signed(byte_ceiling(code))
}

// The total ceiling of a code of m bytes: n bytes of a text together cost no more comparisons.
#[unsafe(no_mangle)]
pub extern "C" fn finder_total_ceiling(m: u32, n: u32) -> i64
    ensures { result ≡ signed (total_answer m n) }
{
    signed(total_ceiling(m, n))
}
