// Callers that keep the contracts of a register's part and of its refusal: they promise again from the contracts alone what the calls promise,
// so a contract that is cut down is refused here. No host calls them.
ghost use Rattle.std.specs.Prelude.{◌≡◌, IfOk};
ghost use Rattle.machine.specs.Refusal.{answered};
ghost use Rattle.pane.specs.Drawn.{register_refused, register_part, register_place};

use machine::Refusal;
use registers::Kind;
use registers::files::Files;

// The files of a register by the call, or its refusal.
pub(crate) fn held_check_register<'a>(
    k: usize,
    z: &'a [u8],
    p: &'a [u8],
    kind: Kind,
    number: usize,
) -> Result<Files<'a>, Refusal>
    ensures number { answered result ≡ register_refused k z.now p.now kind number }
    ensures files { IfOk result (λ files. (files.k.units ≡ k) × (files.z ≡ z.entry) × (files.p ≡ p.entry)) }
{
    crate::check_register(k, z, p, kind, number)
}

// A register's part by the call: its bytes, and where they lie.
pub(crate) fn held_register<'a>(
    k: usize,
    z: &'a [u8],
    p: &'a [u8],
    kind: Kind,
    number: usize,
) -> &'a [u8]
    ensures bytes { result.now ≡ register_part k z.now p.now kind number }
    ensures place { result.ref_ptr ≡ register_place k z.entry p.entry kind number }
{
    crate::register(k, z, p, kind, number)
}
