// The first four bytes of a state: f, one byte more, and the last funding index.
ghost use Rattle.std.specs.Prelude.{◌≡◌, ◌≤◌, ◌<◌, length};
ghost use Rattle.states.specs.Headers as headers;

use crate::committee::Committee;
use octets::{ONE, TWO};
use wire::kinds::FundingIndex;

// The committee that the header names. The two states differ in length, so that each function here asks for the bytes that it reaches.
pub fn committee(s: &[u8]) -> Committee
    requires { 4 ≤ length s.now }
    ensures { result.faults ≡ headers.faults_in s.now }
{
    Committee::of(octets::get::<ONE>(s, 0))
}

pub fn last_index(s: &[u8]) -> FundingIndex
    requires { 4 ≤ length s.now }
    ensures { (result.0 ≡ headers.last_index s.now) × (result.0 < 65536) }
{
    FundingIndex(octets::get::<TWO>(s, 2))
}

pub fn put_index(s: &mut [u8], index: FundingIndex)
    requires { (4 ≤ length s.old) × (index.0 < 65536) }
    ensures { s.new ≡ headers.with_index s.old index.0 }
{
    octets::put::<TWO>(s, 2, index.0);
}

// Makes the whole state f and zeros.
pub fn write_fresh(s: &mut [u8], committee: Committee)
    requires { (1 ≤ length s.old) × (committee.faults < 256) }
    ensures { s.new ≡ headers.fresh_bytes (length s.old) committee.faults }
{
    s.fill(0);
    octets::put::<ONE>(s, 0, committee.faults);
}
