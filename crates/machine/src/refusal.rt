// Why a call is refused, each refusal with the number that a host is answered.

ghost use Rattle.std.specs.Prelude.{◌≡◌};
ghost use Rattle.machine.specs.Refusal.{code};

// The refusals in the order of their numbers; done is 0.
#[derive(Clone, Copy, PartialEq, Eq)]
pub enum Refusal {
    Length = 1,
    File = 2,
    Program = 3,
    Room = 4,
    Journal = 5,
    End = 6,
    Unknown = 7,
    Undefined = 8,
    Full = 9,
    Empty = 10,
    Out = 11,
    Text = 12,
    Range = 13,
    Session = 14,
}

impl Refusal {
    // The number of a refusal.
    pub fn code(self) -> u8
        ensures { result ≡ code self }
    {
        self as u8
    }
}
