// Whether the bytes of a state file are a state.
ghost use Rattle.std.specs.Prelude.{◌≡◌};
ghost use Rattle.lines.specs.Files as files;

use crate::serving::Role;
use records::record::Record;
use records::state;
use wire::kinds::Account;

fn are_records(s: &[u8; state::LENGTH]) -> bool
    ensures { result ≡ files.are_records 64 s.now }
{
    (0..64).all(|account| Record::formed(s, Account(account)))
}

#[tactic(auto, unfolding(crate::specs::Files::is_file))]
pub fn is_file(role: Role, s: &[u8]) -> bool
    ensures { result ≡ files.is_file role s.now }
{
    match role {
        Role::Machine => {
            let Some(state) = state::open(s) else {
                return false;
            };
            are_records(state)
        }
        Role::Ledger => ledger::state::formed(s),
    }
}
