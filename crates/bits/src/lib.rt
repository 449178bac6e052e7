// Words of 64 bits as sets of numbers below 64: the highest, one more, and all but the highest.
#![tactic(auto)]

ghost use Rattle.bits.specs.Bits.{Top, WithBit, WithoutTop};

// The highest bit of m, 0 where there is none: `Top` says so, and no caller has such a word.
pub fn top(m: u64) -> usize
    ensures { Top m result }
{
    if m == 0 {
        return 0;
    }
    63 - m.leading_zeros() as usize
}

// m with bit j put. A bit that a word has no room for is not put.
pub fn with_bit(m: u64, j: usize) -> u64
    ensures { WithBit m j result }
{
    if j < 64 {
        return m | (1 << j);
    }
    m
}

// m without its highest bit, 0 for 0.
pub fn without_top(m: u64) -> u64
    ensures { WithoutTop m result }
{
    if m == 0 {
        return 0;
    }
    m - (1 << top(m))
}
