// Votes: which machines signed, as bits of a u16, and whether they are a quorum.
#![tactic(auto)]

ghost use Rattle.std.specs.Prelude.{◌≡◌, ◌≤◌, ◌<◌, ◌*◌, true, length};
ghost use Rattle.std.specs.Int.Count.{ones};
ghost use Rattle.wire.specs.Votes.{good};
ghost use Rattle.votes.specs.Tally.{counted, Tallied, enough, votes_judged, votes_given, votes_said};

use octets::ONE;
use wire::answers::Refusal;
use wire::kinds::Machine;

// A vote is a machine number and 64 signature bytes; in a certificate it stands in a field.
pub const VOTE: usize = 65;

pub const VOTE_FIELD: usize = 68;

// The votes passed so far: whether all machines are known, whether they rise, what the next must reach, and who signed.
#[derive(Clone, Copy)]
struct Tally {
    known: bool,
    rising: bool,
    least: u64,
    mask: u16,
}

impl Tally {
    // The tally with one vote more. Only a known machine has a bit.
    fn with(self, machine: Machine, last: u64) -> Tally
        requires { (last < 16) × (machine.0 < 256) }
        ensures { result ≡ counted self machine.0 last }
    {
        // `&&` takes almost one more instruction for each vote.
        let passed = Tally {
            rising: self.rising & (self.least <= machine.0),
            least: machine.0 + 1,
            ..self
        };
        if last < machine.0 {
            return Tally {
                known: false,
                ..passed
            };
        }
        Tally {
            mask: passed.mask | (1u16 << machine.0),
            ..passed
        }
    }

    // Over all votes 5, then 6, then 4, then 7.
    fn judge(self, f: u64, good: bool) -> Result<u64, Refusal>
        requires { f ≤ 5 }
        ensures { votes_said result ≡ votes_judged f self good }
    {
        if !self.known {
            return Err(Refusal::UnknownMachine);
        }
        if !self.rising {
            return Err(Refusal::VotesNotRising);
        }
        if !good {
            return Err(Refusal::BadVerdict);
        }
        quorum(f, self.mask)
    }
}

// Bits are counted, not votes. That f is at most 5 is a clause here and below: a type that says it would be made at each call and taken apart for each sum.
fn quorum(f: u64, mask: u16) -> Result<u64, Refusal>
    requires { f ≤ 5 }
    ensures { votes_said result ≡ enough f (ones mask) }
{
    let machines = u64::from(u16::count_ones(mask));
    if machines < 2 * f + 1 {
        return Err(Refusal::TooFewVotes);
    }
    Ok(machines)
}

// Whether every verdict is 1. `octets::zeros` asks the same of 0: one function for both would be no shorter than either.
pub fn all_good(verdicts: &[u8]) -> bool
    ensures { result ≡ good verdicts.now }
{
    verdicts.iter().all(|verdict| *verdict == 1)
}

// Votes whose machine numbers stand at `place` and every `step` bytes after it. That the bytes reach so far is a clause, since it depends on how many
// votes are asked for.
#[derive(Clone, Copy)]
pub struct Votes<'a> {
    pub bytes: &'a [u8],
    pub place: usize,
    pub step: usize,
}

impl<'a> Votes<'a> {
    ghost use Rattle.votes.specs.Reach.{Reaches, machines_of};
    ghost use Rattle.votes.specs.Tally.{AllSigned};

    // The tally of the first n votes. That the last machine has a bit is a clause, as f is.
    fn tally(self, n: usize, last: u64) -> Tally
        requires { Reaches self n × (last < 16) }
        ensures { Tallied result last (machines_of self.entry n) }
    {
        let mut tally = Tally {
            known: true,
            rising: true,
            least: 0,
            mask: 0,
        };
        // A place by `step * i`, as in `signed`, takes between two and three more instructions for each vote here.
        let mut place = self.place;
        for _ in 0..n {
            let machine = octets::get::<ONE>(self.bytes, place);
            tally = tally.with(Machine(machine), last);
            place += self.step;
        }
        tally
    }

    // Who signed, if all is well with each vote. One pass over votes and verdicts, which ends at the first machine that is
    // unknown or not above the one before, and at the first verdict that is not 1.
    fn signed(self, verdicts: &[u8], last: u64) -> Option<u16>
        requires { Reaches self (length verdicts.now) × (last < 16) }
        ensures { AllSigned result last (machines_of self.entry (length verdicts.now)) verdicts.now }
    {
        let mut mask = 0;
        let mut least = 0;
        for (i, verdict) in verdicts.iter().enumerate() {
            let machine = octets::get::<ONE>(self.bytes, self.place + self.step * i);
            if last < machine {
                return None;
            }
            if machine < least {
                return None;
            }
            if *verdict != 1 {
                return None;
            }
            mask |= 1u16 << machine;
            least = machine + 1;
        }
        Some(mask)
    }

    // Judges the first n votes, without verdicts.
    pub fn count(self, f: u64, n: usize) -> Result<u64, Refusal>
        requires { (f ≤ 5) × Reaches self n }
        ensures { votes_said result ≡ votes_given f (machines_of self.entry n) true }
    {
        self.tally(n, 3 * f).judge(f, true)
    }

    // Judges as many votes as there are verdicts.
    pub fn judge(self, f: u64, verdicts: &[u8]) -> Result<u64, Refusal>
        requires { (f ≤ 5) × Reaches self (length verdicts.now) }
        ensures { votes_said result ≡ votes_given f (machines_of self.entry (length verdicts.now)) (good verdicts.now) }
    {
        let Some(mask) = self.signed(verdicts, 3 * f) else {
            // Some vote is not fine: which refusal comes first is for the plain judge to say.
            return self
                .tally(verdicts.len(), 3 * f)
                .judge(f, all_good(verdicts));
        };
        quorum(f, mask)
    }
}
