// Runs vectors of Eagle reels, and of plain reels beside them. The input is a row of cases without anything between them:
//
//     1 byte     call: 1 reads a plain reel, 2 an Eagle reel
//     4 bytes    room, the length of the output, big-endian, at most 210,000
//     4 bytes    length of the reel, big-endian, at most 210,000
//     the reel
//
// The output holds bytes A5 before each call. Each case is answered by a line, its items parted by one space:
//
//     taken T N LENGTH COUNT DIGEST
//     refused NUMBER BESIDE DIGEST
//
// COUNT is that of the reel's words that are not normal. DIGEST is that of the whole output after the call, all its room. A digest is 0 at
// first, and each byte b makes (digest * 31 + b) mod 2^32 of it. All numbers are decimal. A case that is cut short, or longer than 210,000,
// or of another call, is answered by `bad case`, and is the last.
#![tactic(auto)]

ghost use Rattle.std.specs.Prelude.{◌≡◌, IfErr};
ghost use Rattle.cases.specs.Cases.{EndsWithInput};
ghost use Rattle.cases.specs.declared.Stop.TheVariants.{BadCase};

use cases::{Cases, Stop};
use numbers::Refusal;
use record::Counted;
use std::io;
use std::io::Read;

// What a case asks for.
#[derive(Clone, Copy)]
enum Call {
    ReadPlain,
    ReadEagle,
}

impl TryFrom<u8> for Call {
    type Error = Stop;

    fn try_from(byte: u8) -> Result<Call, Stop>
        ensures { IfErr result (λ stop. stop ≡ BadCase) }
    {
        match byte {
            1 => Ok(Call::ReadPlain),
            2 => Ok(Call::ReadEagle),
            _ => Err(Stop::BadCase),
        }
    }
}

// Prints the line of a reel that was read or refused.
fn print_answer(rt: &impl Print, answer: Result<Counted, Refusal>, out: &[u8]) -> io::Result<()> {
    match answer {
        Ok(
            Counted {
                traces,
                samples,
                length,
                count,
            },
        ) => println!(rt;
            "taken {traces} {samples} {length} {count} {}",
            digests::digest(out)
        ),
        Err(refusal) => println!(rt; "{}", cases::refused_line(refusal, out)),
    }
}

// The vectors that an input holds.
#[derive(Drop)]
struct Vectors<R> {
    input: R,
}

impl<R: Read> Cases for Vectors<R> {
    // The run is at its end only where the input is.
    ghost step = { λ old answer _. EndsWithInput (R.remaining old.input) answer };

    // Reads a case and runs it.
    fn run_next(&mut self, rt: &impl Print) -> Result<(), Stop> {
        let input = &mut self.input;
        // In front of what may stop the run: behind it the compiler sets the buffers to 00 twice a case.
        let mut reel = [0; 210000];
        let mut out = [0; 210000];
        let [call]: [u8; 1] = cases::read_first(input)?;
        let room = cases::read_length(input)?;
        let size = cases::read_length(input)?;
        let reel = cases::front(&mut reel, size)?;
        let out = cases::front(&mut out, room)?;
        cases::read_part(input, reel)?;
        digests::fill(0xa5, out);
        let answer = match Call::try_from(call)? {
            Call::ReadPlain => read_reel::read_reel(reel, out),
            Call::ReadEagle => read_reel::read_eagle(reel, out),
        };
        print_answer(rt, answer, out)?;
        Ok(())
    }
}

fn main(rt: HostRuntime) -> io::Result<()> {
    cases::run_all(&rt, "bad case", Vectors { input: rt.reader() })
}
