// Big-endian numbers of 2 and of 4 bytes, read at a place.
ghost use Rattle.std.specs.Prelude.{◌≡◌, ◌+◌, ◌≤◌, ◌<◌, length};
ghost use Rattle.model.specs.TableFile.{half_at, word_at};

// A number of 2 bytes, and one of 4, read at a place.
pub fn half_at(bytes: &[u8], at: usize) -> usize
    requires { at + 2 ≤ length bytes.now }
    ensures { (result ≡ half_at bytes.now at) × (result < 65536) }
{
    let a = usize::from(bytes[at]);
    let b = usize::from(bytes[at + 1]);
    a * 256 + b
}

pub fn word_at(bytes: &[u8], at: usize) -> usize
    requires { at + 4 ≤ length bytes.now }
    ensures { (result ≡ word_at bytes.now at) × (result < 4294967296) }
{
    let a = half_at(bytes, at);
    let b = half_at(bytes, at + 2);
    a * 65536 + b
}
