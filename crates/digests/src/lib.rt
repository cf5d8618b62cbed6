// What the programs that run vectors do with bytes: the digest of some, and an output filled before a call.
#![tactic(auto)]

ghost use Rattle.std.specs.Prelude.{◌≡◌, length, replicate};
ghost use Rattle.digests.specs.Digest.{digest_of};

// The digest of some bytes.
pub fn digest(bytes: &[u8]) -> u64
    ensures { result ≡ digest_of bytes.now }
{
    let mut d: u64 = 0;
    for b in bytes {
        d = (d * 31 + u64::from(*b)) % 0x1_0000_0000;
    }
    d
}

// Fills an output with one byte: the library's method, under the contract that the programs cite.
pub fn fill(b: u8, out: &mut [u8])
    ensures { out.new ≡ replicate (length out.old) b }
{
    out.fill(b);
}
