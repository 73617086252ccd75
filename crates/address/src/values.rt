// Sums of what is known: unknown where one of the terms is.
ghost use Rattle.std.specs.Prelude.{◌≡◌, ◌≤◌, length};
ghost use Rattle.record.specs.Records.{everyday_bytes, record_of};
ghost use Rattle.address.specs.Places.{plus_of, sum_of, low_of, scaled_of, cut_of};

use crate::words::{low_if, times};
use registers::Value;

// A value and a number.
pub fn plus(v: Value, offset: u64) -> Value
    ensures { result ≡ plus_of v offset }
{
    v.map(|a| a.wrapping_add(offset))
}

pub fn sum(u: Value, v: Value) -> Value
    ensures { result ≡ sum_of u v }
{
    plus(v, u?)
}

// The low 32 bits.
pub fn low(v: Value) -> Value
    ensures { result ≡ low_of v }
{
    v.map(|a| a % 0x1_0000_0000)
}

// Unknown stays unknown, also times 0.
pub fn scaled(v: Value, scale: u8) -> Value
    ensures { result ≡ scaled_of v scale }
{
    v.map(|a| times(a, scale))
}

// The address of an explicit operand, from its whole sum: cut where the record has the address-size bit.
pub fn cut(b: &[u8], v: Value) -> Value
    requires { everyday_bytes ≤ length b.now }
    ensures { result ≡ cut_of (record_of b.now) v }
{
    let short = record::address_size_in(b);
    v.map(|a| low_if(short, a))
}
