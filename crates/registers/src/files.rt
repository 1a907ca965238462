// Both files of a length, lent together: each has the size that the length says.
#![tactic(auto)]

ghost use Rattle.std.specs.Prelude.{◌≡◌, ◌<◌, length, IfOk};
ghost use Rattle.machine.specs.Refusal.{answered, refused, files_tests};
ghost use Rattle.registers.specs.Register.{file_of, register_count, register_from};
ghost use Rattle.registers.specs.State.{Sized, read, state};

use crate::Kind;
use machine::{Length, Refusal};

// The vector file and the predicate file.
#[derive(Clone, Copy)]
pub struct Files<'a> {
    pub k: Length,
    pub z: &'a [u8],
    pub p: &'a [u8],
    pub ghost sized: { Sized k.units (state z.now p.now) },
}

impl<'a> Files<'a> {
    // The files of k units; or LENGTH or FILE.
    pub fn new(k: usize, z: &'a [u8], p: &'a [u8]) -> Result<Files<'a>, Refusal>
        ensures number { answered result ≡ refused (files_tests k (length z.now) (length p.now)) }
        ensures files { IfOk result (λ files. (files.k.units ≡ k) × (files.z ≡ z.entry) × (files.p ≡ p.entry)) }
    {
        let k = machine::check_files(k, z, p)?;
        Ok(Files { k, z, p })
    }

    // The file of a kind.
    pub fn file(self, kind: Kind) -> &'a [u8]
        ensures { result ≡ file_of kind self.entry.z self.entry.p }
    {
        match kind {
            Kind::Vector => self.z,
            Kind::Predicate => self.p,
        }
    }

    // The bytes of register r of a kind.
    pub fn register(self, kind: Kind, r: usize) -> &'a [u8]
        requires { r < register_count kind }
        ensures { result.now ≡ read self.entry.k.units (register_from kind r) (state self.entry.z.now self.entry.p.now) }
    {
        crate::register(self.k, kind, self.file(kind), r)
    }
}
