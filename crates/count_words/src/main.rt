// Counts the words of each answer over all 2^32: upper halves that no row has are passed over, the others are decoded word by word.
#![tactic(auto)]

ghost use Rattle.std.specs.Prelude.{◌≡◌, false, ◌↔◌, ◌≢◌, ◌*◌, ◌^◌, ◌<◌};
ghost use Rattle.machine.specs.Refusal.{UNKNOWN};
ghost use Rattle.rows.specs.Digits.{word_digits};
ghost use Rattle.count_words.specs.Tally.{block_words, tally, NoWord};

use machine::{DONE, Refusal};
use rows::ROWS;
use std::io;

// The words of a block, which have one upper half; there are as many blocks.
const BLOCK: u64 = 65536;

// The digits of a half.
const HALF: u32 = 16;

// Whether a row has this upper half.
fn block_matches(upper: u32) -> bool
    requires { upper < block_words }
    ensures { result ≡ false ↔ NoWord upper }
{
    for i in 0..ROWS {
        let row = rows::row_at(i);
        if upper & (row.1 >> HALF) == row.2 >> HALF {
            return true;
        }
    }
    false
}

// How many words of a block are answered with a number, word by word.
fn count_each(upper: u64, counted: u8) -> u64
    requires { upper < block_words }
    ensures { result ≡ tally counted (upper * block_words) block_words }
{
    let mut count = 0;
    for low in 0..BLOCK {
        let word = (upper * BLOCK + low) as u32;
        let number = machine::answered(words::decode(word));
        count += u64::from(number == counted);
    }
    count
}

// The same, and a block that has no word of a row is passed over.
fn count_block(upper: u64, counted: u8) -> u64
    requires { (upper < block_words) × (counted ≢ UNKNOWN) }
    ensures { result ≡ tally counted (upper * block_words) block_words }
{
    if block_matches(upper as u32) {
        count_each(upper, counted)
    } else {
        0
    }
}

// How many of all words are.
fn count_all(counted: u8) -> u64
    requires { counted ≢ UNKNOWN }
    ensures { result ≡ tally counted 0 (2 ^ word_digits) }
{
    let mut count = 0;
    for upper in 0..BLOCK {
        count += count_block(upper, counted);
    }
    count
}

fn main(rt: HostRuntime) -> io::Result<()> {
    let accepted = count_all(DONE);
    println!(rt; "accepted {accepted}")?;
    let undefined = count_all(Refusal::Undefined.code());
    println!(rt; "undefined {undefined}")
}
