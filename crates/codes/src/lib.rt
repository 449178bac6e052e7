// Codes (the patterns): which are accepted, and their ceilings (the most comparisons that a text can cost).
#![tactic(auto)]

ghost use Rattle.std.specs.Prelude.{◌≡◌, ◌≤◌};
ghost use Rattle.runs.specs.Refusals.{refusal_of};
ghost use Rattle.automaton.specs.Ceilings.{log2, different};
ghost use Rattle.codes.specs.Refusals.{told};
ghost use Rattle.codes.specs.Codes.{length_refusal, has_control, code_refusal};
ghost use Rattle.codes.specs.Entry.{byte_answer, total_answer};

use runs::Refusal;

// The longest code that is accepted.
pub const LONGEST: u32 = 4000;

// Refuses a length m that is 0 or over `longest`.
pub fn check_length(longest: usize, m: usize) -> Result<(), Refusal>
    ensures { refusal_of result ≡ length_refusal longest m }
{
    if m == 0 {
        return Err(Refusal::EmptyCode);
    }
    if longest < m {
        return Err(Refusal::LongCode);
    }
    Ok(())
}

// Whether a code has a control byte, one below 32. It goes on behind the first, so that the compiler tests many at a time.
pub fn has_control(code: &[u8]) -> bool
    ensures { result ≡ has_control code.now }
{
    let mut found = false;
    for byte in code {
        if *byte < 32 {
            found = true;
        }
    }
    found
}

// Refuses a code by its length, and one with a control byte.
pub fn check_code(code: &[u8]) -> Result<(), Refusal>
    ensures { refusal_of result ≡ code_refusal code.now }
{
    check_length(LONGEST as usize, code.len())?;
    if has_control(code) {
        return Err(Refusal::ControlByte);
    }
    Ok(())
}

// The logarithm of m to base 2, rounded down: how many binary digits follow the first 1 of m.
fn log2(m: usize) -> u64
    requires { 1 ≤ m }
    ensures { result ≡ log2 m }
{
    63 - (u64::leading_zeros(m as u64) as u64)
}

// How many different bytes the code has: it counts each that it has not seen yet.
fn different(code: &[u8]) -> u64
    ensures { result ≡ different code.now }
{
    let mut seen = [false; 256];
    let mut n: u64 = 0;
    for &byte in code {
        let v = usize::from(byte);
        if !seen[v] {
            n += 1;
        }
        seen[v] = true;
    }
    n
}

// The byte ceiling (the delay) of a code: no byte of a text costs more comparisons.
pub fn byte_ceiling(code: &[u8]) -> Result<u64, Refusal>
    ensures { told result ≡ byte_answer code.now }
{
    check_code(code)?;
    let arrows = 1 + log2(code.len());
    let bytes = different(code);
    Ok(arrows.min(bytes))
}

// The total ceiling of a code of m bytes: n bytes of a text together cost no more comparisons.
pub fn total_ceiling(m: u32, n: u32) -> Result<u64, Refusal>
    ensures { told result ≡ total_answer m n }
{
    check_length(LONGEST as usize, m as usize)?;
    let size = u64::from(m);
    let total = (2 * size - 1) * u64::from(n) / size;
    Ok(total)
}
