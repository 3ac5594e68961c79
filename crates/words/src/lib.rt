// Numbers that lie as bytes in a slice, the highest byte first: the one place that puts bytes together.
#![tactic(auto)]

ghost use Rattle.std.specs.Prelude.{◌≡◌, ◌+◌, ◌<◌, length};
ghost use Rattle.words.specs.Words.{byte_at, word_at, long_at};

// The byte at a place.
pub fn byte(bytes: &[u8], at: usize) -> u32
    requires { at < length bytes.now }
    ensures { (result ≡ byte_at bytes.now at) × (result < 256) }
{
    u32::from(bytes[at])
}

// The number of two bytes at a place.
pub fn word(bytes: &[u8], at: usize) -> u32
    requires { at + 1 < length bytes.now }
    ensures { (result ≡ word_at bytes.now at) × (result < 65536) }
{
    byte(bytes, at) * 256 + byte(bytes, at + 1)
}

// The number of four bytes at a place.
pub fn long(bytes: &[u8], at: usize) -> u32
    requires { at + 3 < length bytes.now }
    ensures { result ≡ long_at bytes.now at }
{
    word(bytes, at) * 65536 + word(bytes, at + 2)
}
