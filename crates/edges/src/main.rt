// Works through the edges of the bit set and the published vectors of the hash: one program for both, because programs
// take more of the gate's proofs than the library.
#![tactic(auto)]

mod bits;
mod published;
mod vectors;

use std::io;

fn main(rt: HostRuntime) -> io::Result<()> {
    bits::work_through(&rt)?;
    published::work_through(&rt, &mut rt.stdin())?;
    vectors::work_through(&rt)
}
