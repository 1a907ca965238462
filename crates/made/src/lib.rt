// The predicate that a word makes, written over a register byte by byte.
#![tactic(auto)]

ghost use Rattle.std.specs.Prelude.{◌≡◌, ◌<◌, length};
ghost use Rattle.machine.specs.Size.{sizes};
ghost use Rattle.made.specs.Made.{made_byte, made_bytes};

// The byte that has the first bit of each of its lanes.
#[tactic(auto, unfolding(crate::specs::Made::made_byte))]
fn every_lane(size: usize) -> u8
    requires { size < sizes }
    ensures { result ≡ made_byte size 8 0 }
{
    match size {
        0 => 0xff,
        1 => 0x55,
        2 => 0x11,
        _ => 0x01,
    }
}

// The byte that has the first bit of each of its lanes below the count.
#[tactic(auto, using(crate::proofs::Bytes::byte_below))]
fn lanes_below(size: usize, count: usize) -> u8
    requires { size < sizes }
    ensures { result ≡ made_byte size count 0 }
{
    if 8 >> size <= count {
        return every_lane(size);
    }
    let w = lanes::width_of(size);
    every_lane(size) % (1u8 << (count * w))
}

// Writes over a register the predicate that has the lanes of a size below the count active, and no other bit set.
pub fn put_made(register: &mut [u8], size: usize, count: usize)
    requires { size < sizes }
    ensures { register.new ≡ made_bytes (length register.old) size count }
{
    let mut left = count;
    for byte in register.iter_mut() {
        *byte = lanes_below(size, left);
        left = left.saturating_sub(8 >> size);
    }
}
