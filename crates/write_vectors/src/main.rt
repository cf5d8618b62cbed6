// Runs write vectors. The input is a row of cases without anything between them:
//
//     1 byte     0 to write exactly, 1 to the nearest
//     1 byte     target code
//     4 bytes    room, the length of the output, big-endian, at most 210,000
//     4 bytes    length of the record, big-endian, at most 210,000
//     the record
//
// The output holds bytes A5 before each call. Each case is answered by a line, its items parted by one space:
//
//     taken T N LENGTH DIGEST AGAIN COUNT
//     taken T N LENGTH CHANGED DIGEST AGAIN COUNT
//     refused NUMBER BESIDE DIGEST
//
// the second where it was written to the nearest. DIGEST is that of the whole output after the call, all its room. AGAIN is the digest of the
// record that reading the written reel gives, and COUNT that of its words that are not normal. A digest is 0 at first, and each byte b makes
// (digest * 31 + b) mod 2^32 of it. All numbers are decimal. A case that is cut short, longer than 210,000 or neither exact nor to the
// nearest is answered by `bad case`, and is the last; a written reel that isn't read again, by `not read`.
#![tactic(auto)]

ghost use Rattle.std.specs.Prelude.{◌≡◌, IfErr};
ghost use Rattle.cases.specs.Cases.{EndsWithInput};
ghost use Rattle.cases.specs.declared.Stop.TheVariants.{BadCase};

use cases::{Cases, Stop};
use record::{Counted, Taken};
use std::io;
use std::io::Read;

// How a case is to be written.
#[derive(Clone, Copy)]
enum Way {
    Exact,
    Nearest,
}

impl TryFrom<u8> for Way {
    type Error = Stop;

    fn try_from(byte: u8) -> Result<Way, Stop>
        ensures { IfErr result (λ stop. stop ≡ BadCase) }
    {
        match byte {
            0 => Ok(Way::Exact),
            1 => Ok(Way::Nearest),
            _ => Err(Stop::BadCase),
        }
    }
}

// The digest of the record that reading a written reel gives, and the count of its words that are not normal.
fn read_again(reel: &[u8], again: &mut [u8]) -> Option<(u64, usize)> {
    let read = read_reel::read_reel(reel, again).ok()?;
    let record = again.get(..read.length)?;
    Some((digests::digest(record), read.count))
}

// Prints the end of the line of a record that is written: the digest of the output, and what reading the reel again gives.
fn print_reel(rt: &impl Print, length: usize, out: &[u8], again: &mut [u8]) -> io::Result<()> {
    let digest = digests::digest(out);
    match out.get(..length).and_then(|reel| read_again(reel, again)) {
        Some((again, count)) => println!(rt; " {digest} {again} {count}"),
        None => println!(rt; " {digest} not read"),
    }
}

// Writes a record and prints its line.
fn write(
    rt: &impl Print,
    way: Way,
    code: u32,
    record: &[u8],
    out: &mut [u8],
    again: &mut [u8],
) -> io::Result<()> {
    match way {
        Way::Exact => match write_reel::write_reel(record, code, out) {
            Ok(
                Taken {
                    traces,
                    samples,
                    length,
                },
            ) => {
                print!(rt; "taken {traces} {samples} {length}")?;
                print_reel(rt, length, out, again)
            }
            Err(refusal) => println!(rt; "{}", cases::refused_line(refusal, out)),
        },
        Way::Nearest => match write_reel::write_nearest(record, code, out) {
            Ok(
                Counted {
                    traces,
                    samples,
                    length,
                    count,
                },
            ) => {
                print!(rt; "taken {traces} {samples} {length} {count}")?;
                print_reel(rt, length, out, again)
            }
            Err(refusal) => println!(rt; "{}", cases::refused_line(refusal, out)),
        },
    }
}

// The vectors that an input holds.
#[derive(Drop)]
struct Vectors<R> {
    input: R,
}

impl<R: Read> Cases for Vectors<R> {
    // The run is at its end only where the input is.
    ghost step = { λ old answer _. EndsWithInput (R.remaining old.input) answer };

    // Reads a case and runs it.
    fn run_next(&mut self, rt: &impl Print) -> Result<(), Stop> {
        let input = &mut self.input;
        let [way, code]: [u8; 2] = cases::read_first(input)?;
        let room = cases::read_length(input)?;
        let size = cases::read_length(input)?;
        let mut record = [0; 210000];
        let mut out = [0; 210000];
        let mut again = [0; 210000];
        let record = cases::front(&mut record, size)?;
        let out = cases::front(&mut out, room)?;
        cases::read_part(input, record)?;
        digests::fill(0xa5, out);
        write(
            rt,
            Way::try_from(way)?,
            u32::from(code),
            record,
            out,
            &mut again,
        )?;
        Ok(())
    }
}

fn main(rt: HostRuntime) -> io::Result<()> {
    cases::run_all(&rt, "bad case", Vectors { input: rt.reader() })
}
