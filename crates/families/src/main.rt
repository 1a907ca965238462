// Every family executed at three lengths on a core with all facts, with a vector destination among the sources; each line is what a walk shows of the step.
#![tactic(auto)]

use facts::Core;
use machine::{Length, Refusal};
use std::io;

// The bytes of a journal that holds one entry of the longest register.
const ONE_ENTRY: usize = entries::COUNT_AT + entries::COUNT + 1 + Length::MOST_BYTES;

// Shows the step of a program's first word over filled files.
fn show_filled(
    rt: &impl Print,
    k: Length,
    z: &mut [u8],
    p: &mut [u8],
    program: &[u8],
) -> io::Result<()> {
    let mut journal = [0u8; ONE_ENTRY];
    let mut out = [0u8; lines::MOST_LINE];
    fillings::fill_vectors(z);
    fillings::fill_predicates(p);
    let outcome = fresh_step(k, z, p, program, &mut journal);
    let number = machine::answered(outcome) as u64;
    let length = lines::write_line(&mut out, core_of(k), z, p, program, 0, number).unwrap_or(0);
    if length <= lines::MOST_LINE {
        rt.write_all(&out[..length])?;
    }
    Ok(())
}

// A core of a length that has all facts.
fn core_of(k: Length) -> Core {
    Core {
        k: k.units,
        facts: facts::all(),
    }
}

// Steps with a fresh journal of the current version.
fn fresh_step(
    k: Length,
    z: &mut [u8],
    p: &mut [u8],
    program: &[u8],
    journal: &mut [u8],
) -> Result<(), Refusal> {
    let _ = journal::fresh(k.units, entries::CURRENT_VERSION, journal);
    steps::step(core_of(k), z, p, program, journal)
}

// Shows the step of a program's first word at a length.
fn show_step(rt: &impl Print, k: Length, program: &[u8]) -> io::Result<()> {
    let vectors = k.vector_file();
    let predicates = k.predicate_file();
    let mut z = [0u8; fillings::MOST_VECTORS];
    let mut p = [0u8; fillings::MOST_PREDICATES];
    show_filled(rt, k, &mut z[..vectors], &mut p[..predicates], program)
}

// Shows every word of a program at a length, each from the same start.
fn show_length(rt: &impl Print, k: Length, program: &[u8]) -> io::Result<()> {
    for at in 0..program.len() / Length::WORD_BYTES {
        show_step(rt, k, &program[at * Length::WORD_BYTES..])?;
    }
    Ok(())
}

// Shows every word at three lengths.
fn show_lengths(rt: &impl Print, program: &mut [u8]) -> io::Result<()> {
    fillings::fill_words(program);
    show_length(rt, Length::least(), program)?;
    show_length(rt, Length { units: 4 }, program)?;
    show_length(rt, Length::most(), program)
}

fn main(rt: HostRuntime) -> io::Result<()> {
    let mut program = [0u8; Length::WORD_BYTES * fillings::COUNT];
    show_lengths(&rt, &mut program)
}
