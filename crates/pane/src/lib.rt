// A register's bytes for drawing: the part of the file that holds it, not a copy.
#![tactic(auto)]

ghost use Rattle.std.specs.Prelude.{◌≡◌, IfOk};
ghost use Rattle.machine.specs.Refusal.{answered};
ghost use Rattle.pane.specs.Drawn.{register_refused, register_part, register_place};

use machine::Refusal;
use registers::Kind;
use registers::files::Files;

mod held;

// The files of a register that is to be drawn; or LENGTH, FILE or RANGE.
pub fn check_register<'a>(
    k: usize,
    z: &'a [u8],
    p: &'a [u8],
    kind: Kind,
    number: usize,
) -> Result<Files<'a>, Refusal>
    ensures number { answered result ≡ register_refused k z.now p.now kind number }
    ensures files { IfOk result (λ files. (files.k.units ≡ k) × (files.z ≡ z.entry) × (files.p ≡ p.entry)) }
{
    let files = Files::new(k, z, p)?;
    if number < registers::register_count(kind) {
        Ok(files)
    } else {
        Err(Refusal::Range)
    }
}

// The part of the vector file or of the predicate file that holds a register; with a refusal the empty part at the start of the
// vector file.
pub fn register<'a>(k: usize, z: &'a [u8], p: &'a [u8], kind: Kind, number: usize) -> &'a [u8]
    ensures bytes { result.now ≡ register_part k z.now p.now kind number }
    ensures place { result.ref_ptr ≡ register_place k z.entry p.entry kind number }
{
    let Ok(files) = check_register(k, z, p, kind, number) else {
        return &z[..0];
    };
    let start = registers::register_at(files.k, kind, number);
    let end = start + registers::register_bytes(files.k, kind);
    &files.file(kind)[start..end]
}
