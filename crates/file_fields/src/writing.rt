// Writing little-endian fields. A write is total: past the end nothing is written.
ghost use Rattle.std.specs.Prelude.{◌≡◌, set};
ghost use Rattle.std.proofs.lemmas.List.Edits.{sets};
ghost use Rattle.definitions.specs.Bytes.{word_bytes, words32, bytes_of};

// Writes a byte at a place.
pub fn put_byte(b: &mut [u8], at: usize, v: u8)
    ensures { b.new ≡ set b.old at v }
{
    if at < b.len() {
        b[at] = v;
    }
}

// Writes a field of two bytes at a place.
pub fn put_word(b: &mut [u8], at: usize, n: u16)
    ensures { b.new ≡ sets b.old at (word_bytes n) }
{
    if at < b.len() {
        let [low, high] = n.to_le_bytes();
        put_byte(b, at, low);
        put_byte(b, at + 1, high);
    }
}

// Writes a field of four bytes at a place.
pub fn put_word32(b: &mut [u8], at: usize, n: u32)
    ensures { b.new ≡ sets b.old at (bytes_of (words32 n)) }
{
    put_word(b, at, (n % 65536) as u16);
    if let Some(next) = at.checked_add(2) {
        put_word(b, next, (n / 65536) as u16);
    }
}
