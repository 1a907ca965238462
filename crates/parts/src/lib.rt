// Parts of a slice: a number read at a place and written there, bytes copied over a part, and a part cleared.
#![tactic(auto)]

ghost use Rattle.std.specs.Prelude.{◌≡◌, ◌+◌, ◌≤◌, length, replicate};
ghost use Rattle.parts.specs.Part.{with_part, same_bytes};
ghost use Rattle.parts.specs.Number.{number_at, with_number};

// The number that stands in w bytes from a place on, byte by byte.
fn number_by_bytes(bytes: &[u8], at: usize, w: usize) -> u64
    requires { (w ≤ 8) × (at + w ≤ length bytes.now) }
    ensures { result ≡ number_at at w bytes.now }
{
    let mut n: u64 = 0;
    for i in (0..w).rev() {
        n = n * 256 + u64::from(bytes[at + i]);
    }
    n
}

// The number that stands in w bytes from a place on. The widths of lanes are told apart, so that each is read by code of its own.
pub fn number_at(bytes: &[u8], at: usize, w: usize) -> u64
    requires { (w ≤ 8) × (at + w ≤ length bytes.now) }
    ensures { result ≡ number_at at w bytes.now }
{
    match w {
        1 => number_by_bytes(bytes, at, 1),
        2 => number_by_bytes(bytes, at, 2),
        4 => number_by_bytes(bytes, at, 4),
        8 => number_by_bytes(bytes, at, 8),
        _ => number_by_bytes(bytes, at, w),
    }
}

// Writes a number's low bytes into the w from a place on, byte by byte.
fn put_by_bytes(bytes: &mut [u8], at: usize, w: usize, n: u64)
    requires { at + w ≤ length bytes.old }
    ensures { bytes.new ≡ with_number at w n bytes.old }
{
    let mut rest = n;
    for byte in bytes[at..at + w].iter_mut() {
        *byte = (rest % 256) as u8;
        rest /= 256;
    }
}

// Writes a number's low bytes into the w from a place on, each width of a lane by code of its own.
pub fn put_number(bytes: &mut [u8], at: usize, w: usize, n: u64)
    requires { at + w ≤ length bytes.old }
    ensures { bytes.new ≡ with_number at w n bytes.old }
{
    match w {
        1 => put_by_bytes(bytes, at, 1, n),
        2 => put_by_bytes(bytes, at, 2, n),
        4 => put_by_bytes(bytes, at, 4, n),
        8 => put_by_bytes(bytes, at, 8, n),
        _ => put_by_bytes(bytes, at, w, n),
    }
}

// Sets every byte to zero.
pub fn clear(bytes: &mut [u8])
    ensures { bytes.new ≡ replicate (length bytes.old) 0 }
{
    bytes.fill(0);
}

// Sets n bytes from a place on to zero.
pub fn clear_part(bytes: &mut [u8], at: usize, n: usize)
    requires { at + n ≤ length bytes.old }
    ensures { bytes.new ≡ with_part at n (replicate n 0) bytes.old }
{
    clear(&mut bytes[at..at + n]);
}

// Writes some bytes over those from a place on.
pub fn overwrite(bytes: &mut [u8], at: usize, source: &[u8])
    requires { at + length source.now ≤ length bytes.old }
    ensures { bytes.new ≡ with_part at (length source.now) source.now bytes.old }
{
    bytes[at..at + source.len()].copy_from_slice(source);
}

// Whether two slices have the same bytes.
pub fn same_bytes(a: &[u8], b: &[u8]) -> bool
    ensures { result ≡ same_bytes a.now b.now }
{
    a == b
}
