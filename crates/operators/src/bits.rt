// Signed 32-bit numbers and their bits. A negative number and bits from 2 ^ 31 on go through 64 bits, where neither cast loses.
ghost use Rattle.std.specs.Prelude.{◌≡◌};
ghost use Rattle.std.specs.Int.{w32};
ghost use Rattle.std.proofs.Common.{to_z};
ghost use Rattle.definitions.specs.Operators.{residue};

// The bits of a number: its remainder modulo 2 ^ 32.
pub fn bits_of(x: i32) -> u32
    ensures { result ≡ residue w32 x }
{
    if x < 0 {
        (x as i64 + 0x1_0000_0000) as u32
    } else {
        x as u32
    }
}

// The number that bits are read as.
pub fn number_of(n: u32) -> i32
    ensures { result ≡ to_z w32 n }
{
    if n < 0x8000_0000 {
        n as i32
    } else {
        (n as i64 - 0x1_0000_0000) as i32
    }
}
