// Who may vote: 3f + 1 machines, of which f may be wrong or dishonest.
ghost use Rattle.std.specs.Prelude.{◌≡◌};
ghost use Rattle.wire.specs.Numbers.{is_faults, is_machine};

use wire::kinds::Machine;

#[derive(Clone, Copy)]
pub struct Committee {
    pub faults: u64,
}

impl Committee {
    pub const MOST_FAULTS: u64 = 5;

    pub fn of(faults: u64) -> Committee
        ensures { result.faults ≡ faults }
    {
        Committee { faults }
    }

    pub fn in_range(self) -> bool
        ensures { result ≡ is_faults self.faults }
    {
        self.faults <= Committee::MOST_FAULTS
    }

    // Whether a machine of this number is one of the committee.
    pub fn seats(self, machine: Machine) -> bool
        ensures { result ≡ is_machine self.faults machine.0 }
    {
        self.in_range() && machine.0 <= 3 * self.faults
    }
}
