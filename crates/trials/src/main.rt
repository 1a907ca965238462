// Long runs forward and back on a core, each compared with a plain walk from the same start: every byte of both files and of the journal.
#![tactic(auto)]

ghost use Rattle.std.specs.Prelude.{◌≤◌};
ghost use Rattle.entries.specs.Layout.{most_journal};

use facts::{Core, Facts};
use machine::Length;
use std::io;

// The directions of a run, their seed, and how many there are to choose from: one of three is back.
const DIRECTIONS: usize = 1200;

const DIRECTION_SEED: u8 = 9;

const CHOICES: u64 = 3;

// What a run is told: the length, its journal's version and the facts of its core.
#[derive(Clone, Copy)]
struct Run {
    k: Length,
    version: usize,
    facts: Facts,
}

// Shows a figure and the space after it.
fn show_figure(rt: &impl Print, figure: u64) -> io::Result<()> {
    print!(rt; "{figure} ")
}

// Whether the bytes are those of a plain walk of so many words, made in the other buffers.
fn is_walked(
    run: Run,
    z: &[u8],
    p: &[u8],
    program: &[u8],
    journal: &[u8],
    plain_z: &mut [u8],
    plain_p: &mut [u8],
    plain_journal: &mut [u8],
    steps: usize,
) -> bool {
    fillings::fill_vectors(plain_z);
    fillings::fill_predicates(plain_p);
    let version = run.version as u64;
    let walked = plain::walk(
        run.k,
        version,
        run.facts,
        plain_z,
        plain_p,
        program,
        plain_journal,
        steps,
    );
    walked
        && parts::same_bytes(plain_z, z)
        && parts::same_bytes(plain_p, p)
        && parts::same_bytes(plain_journal, journal)
}

// Whether the bytes are those of a plain walk of so many words.
fn is_plain(run: Run, z: &[u8], p: &[u8], program: &[u8], journal: &[u8], steps: usize) -> bool {
    let mut plain_z = [0u8; fillings::MOST_VECTORS];
    let mut plain_p = [0u8; fillings::MOST_PREDICATES];
    let mut plain_journal = [0u8; entries::MOST];
    let z_end = z.len();
    let p_end = p.len();
    let room = journal.len();
    z_end <= fillings::MOST_VECTORS
        && p_end <= fillings::MOST_PREDICATES
        && room <= entries::MOST
        && is_walked(
            run,
            z,
            p,
            program,
            journal,
            &mut plain_z[..z_end],
            &mut plain_p[..p_end],
            &mut plain_journal[..room],
            steps,
        )
}

// Shows whether a run's bytes are those of the plain walk.
fn show_same(rt: &impl Print, same: bool) -> io::Result<()> {
    if same {
        rt.println("same")
    } else {
        rt.println("differs")
    }
}

// Shows a run over filled buffers: how many steps of each direction are accepted, and whether all bytes are the plain walk's.
fn show_steps(
    rt: &impl Print,
    run: Run,
    z: &mut [u8],
    p: &mut [u8],
    program: &[u8],
    journal: &mut [u8],
    directions: &[u8],
) -> io::Result<()> {
    let _ = journal::fresh(run.k.units, run.version, journal);
    let core = Core {
        k: run.k.units,
        facts: run.facts,
    };
    let made = travel::travel(core, z, p, program, journal, directions);
    show_figure(rt, made.forward as u64)?;
    show_figure(rt, made.back as u64)?;
    let same = made.back <= made.forward
        && is_plain(run, z, p, program, journal, made.forward - made.back);
    show_same(rt, same)
}

// Shows a run over files, with a program and directions that it fills.
fn show_files(
    rt: &impl Print,
    run: Run,
    z: &mut [u8],
    p: &mut [u8],
    journal: &mut [u8],
) -> io::Result<()> {
    let mut program = [0u8; Length::WORD_BYTES * Length::MOST_WORDS];
    let mut directions = [0u8; DIRECTIONS];
    fillings::fill_words(&mut program);
    fillings::fill(&mut directions, DIRECTION_SEED, CHOICES);
    show_steps(rt, run, z, p, &program, journal, &directions)
}

// Shows a run over files that it fills.
fn show_filled(
    rt: &impl Print,
    run: Run,
    z: &mut [u8],
    p: &mut [u8],
    journal: &mut [u8],
) -> io::Result<()> {
    fillings::fill_vectors(z);
    fillings::fill_predicates(p);
    show_files(rt, run, z, p, journal)
}

// Shows a run over the bytes of a journal.
fn show_journal(rt: &impl Print, run: Run, journal: &mut [u8]) -> io::Result<()> {
    let vectors = run.k.vector_file();
    let predicates = run.k.predicate_file();
    let mut z = [0u8; fillings::MOST_VECTORS];
    let mut p = [0u8; fillings::MOST_PREDICATES];
    show_filled(rt, run, &mut z[..vectors], &mut p[..predicates], journal)
}

// Shows a run at a length on a core whose facts a byte tells, with a journal of a version and of so many bytes.
fn show_run(rt: &impl Print, k: Length, version: usize, byte: u8, room: usize) -> io::Result<()>
    requires { room ≤ most_journal }
{
    let mut journal = [0u8; entries::MOST];
    show_figure(rt, k.units as u64)?;
    show_figure(rt, version as u64)?;
    show_figure(rt, byte as u64)?;
    show_figure(rt, room as u64)?;
    let facts = facts::facts_of(byte);
    show_journal(rt, Run { k, version, facts }, &mut journal[..room])
}

// Shows runs at a length on a core with all facts, with a journal of no entry, of one entry less a byte, of one entry, and of the most bytes; and with
// the most bytes of the former version, where a run is held up before the first word that makes a predicate.
fn show_length(rt: &impl Print, k: Length) -> io::Result<()> {
    let entry = plain::HEADER + plain::NUMBER + k.vector_bytes();
    show_run(rt, k, entries::CURRENT_VERSION, facts::ALL, plain::HEADER)?;
    show_run(rt, k, entries::CURRENT_VERSION, facts::ALL, entry - 1)?;
    show_run(rt, k, entries::CURRENT_VERSION, facts::ALL, entry)?;
    show_run(rt, k, entries::CURRENT_VERSION, facts::ALL, entries::MOST)?;
    show_run(rt, k, entries::FORMER_VERSION, facts::ALL, entries::MOST)
}

// Shows a run on a core whose facts a byte tells, with room for every step.
fn show_core(rt: &impl Print, byte: u8) -> io::Result<()> {
    show_run(
        rt,
        Length { units: 4 },
        entries::CURRENT_VERSION,
        byte,
        entries::MOST,
    )
}

// Shows runs on five cores: each is held up before the first word that its core does not accept, and the last core accepts all of them.
fn show_cores(rt: &impl Print) -> io::Result<()> {
    show_core(rt, 0)?;
    show_core(rt, facts::bit::SVE)?;
    show_core(rt, facts::bit::SVE + facts::bit::SVE2)?;
    show_core(rt, facts::bit::SME)?;
    show_core(rt, facts::bit::SVE + facts::bit::SVE2 + facts::bit::SVE2P1)
}

fn main(rt: HostRuntime) -> io::Result<()> {
    show_length(&rt, Length::least())?;
    show_length(&rt, Length { units: 4 })?;
    show_length(&rt, Length::most())?;
    show_cores(&rt)
}
