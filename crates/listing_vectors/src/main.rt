// Runs vectors of listings and of card bytes. The input is a row of cases without anything between them:
//
//     1 byte     call: 1 lists the cards, 2 takes a listing back, 3 blanks eight card bytes
//     4 bytes    room, the length of the output, big-endian, at most 210,000; 0 for call 3
//     4 bytes    length of the record, big-endian, at most 210,000; 8 for call 3
//     4 bytes    length of the listing, big-endian, at most 210,000; 0 for calls 1 and 3
//     the record, for call 3 the eight card bytes
//     the listing
//
// The output holds bytes A5 before each call. Each case is answered by a line, its items parted by one space:
//
//     taken LENGTH DIGEST              call 1
//     taken T N LENGTH DIGEST          call 2
//     refused NUMBER BESIDE DIGEST     calls 1 and 2
//     blanked NUMBER                   call 3: the eight bytes as one number, the first highest
//
// DIGEST is that of the whole output after the call, all its room. A digest is 0 at first, and each byte b makes
// (digest * 31 + b) mod 2^32 of it. All numbers are decimal. A case that is cut short, or longer than 210,000, or of another call, or of
// call 3 with another length than 8, is answered by `bad case`, and is the last.
#![tactic(auto)]

ghost use Rattle.std.specs.Prelude.{◌≡◌, IfErr, IsErrOf};
ghost use Rattle.cases.specs.Cases.{EndsWithInput};
ghost use Rattle.cases.specs.declared.Stop.TheVariants.{BadCase};

use cases::{Cases, Stop};
use numbers::Refusal;
use record::Taken;
use std::io;
use std::io::Read;

// What a case asks for.
#[derive(Clone, Copy)]
enum Call {
    List,
    TakeBack,
    Blank,
}

impl TryFrom<u8> for Call {
    type Error = Stop;

    fn try_from(byte: u8) -> Result<Call, Stop>
        ensures { IfErr result (λ stop. stop ≡ BadCase) }
    {
        match byte {
            1 => Ok(Call::List),
            2 => Ok(Call::TakeBack),
            3 => Ok(Call::Blank),
            _ => Err(Stop::BadCase),
        }
    }
}

// Prints the line of a record whose cards are listed.
fn print_listed(rt: &impl Print, answer: Result<usize, Refusal>, out: &[u8]) -> io::Result<()> {
    match answer {
        Ok(length) => println!(rt; "taken {length} {}", digests::digest(out)),
        Err(refusal) => println!(rt; "{}", cases::refused_line(refusal, out)),
    }
}

// Prints the line of a listing that is taken back.
fn print_taken(rt: &impl Print, answer: Result<Taken, Refusal>, out: &[u8]) -> io::Result<()> {
    match answer {
        Ok(
            Taken {
                traces,
                samples,
                length,
            },
        ) => println!(rt;
            "taken {traces} {samples} {length} {}",
            digests::digest(out)
        ),
        Err(refusal) => println!(rt; "{}", cases::refused_line(refusal, out)),
    }
}

// Prints the line of eight card bytes that are blanked. Another number of bytes is no case.
fn print_blanked(rt: &impl Print, card_bytes: &[u8]) -> Result<(), Stop>
    ensures { ¬ IsErrOf result Stop.AtEnd }
{
    let eight = card_bytes.as_array().ok_or(Stop::BadCase)?;
    println!(rt;
        "blanked {}",
        cards::blank_eight(u64::from_be_bytes(*eight))
    )?;
    Ok(())
}

// The vectors that an input holds.
#[derive(Drop)]
struct Vectors<R> {
    input: R,
}

impl<R: Read> Cases for Vectors<R> {
    // The run is at its end only where the input is.
    ghost step = { λ old answer _. EndsWithInput (R.remaining old.input) answer };

    // Reads a case and runs it.
    fn run_next(&mut self, rt: &impl Print) -> Result<(), Stop> {
        let input = &mut self.input;
        let [call]: [u8; 1] = cases::read_first(input)?;
        let room = cases::read_length(input)?;
        let record_size = cases::read_length(input)?;
        let listing_size = cases::read_length(input)?;
        let mut record = [0; 210000];
        let mut listing = [0; 210000];
        let mut out = [0; 210000];
        let record = cases::front(&mut record, record_size)?;
        let listing = cases::front(&mut listing, listing_size)?;
        let out = cases::front(&mut out, room)?;
        cases::read_part(input, record)?;
        cases::read_part(input, listing)?;
        digests::fill(0xa5, out);
        match Call::try_from(call)? {
            Call::List => print_listed(rt, listing::list_cards(record, out), out)?,
            Call::TakeBack => print_taken(rt, listing::take_cards(record, listing, out), out)?,
            Call::Blank => print_blanked(rt, record)?,
        }
        Ok(())
    }
}

fn main(rt: HostRuntime) -> io::Result<()> {
    cases::run_all(&rt, "bad case", Vectors { input: rt.reader() })
}
