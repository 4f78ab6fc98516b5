// Numbers put into a lent buffer as little-endian bytes: 32 and 64 bits, signed ones in two's complement.
#![tactic(auto)]

ghost use Rattle.std.specs.Prelude.{◌≡◌, ◌+◌, ◌≤◌, length};
ghost use Rattle.std.proofs.lemmas.List.Edits.{sets};
ghost use Rattle.base_integers.specs.Meaning.Bytes.{bytes_of};

use base_integers::Bits;

// The N low bytes of a number, the lowest first. Where the number fits N bytes, signed or not, they are all of it.
pub fn put<const N: usize>(out: &mut [u8], at: usize, x: Bits)
    requires width { N ≤ 8 }
    requires at_in_bounds { at + N ≤ length out.old }
    ensures { out.new ≡ sets out.old at (bytes_of N x.0) }
{
    out[at..at + N].copy_from_slice(&x.0.to_le_bytes()[..N]);
}
