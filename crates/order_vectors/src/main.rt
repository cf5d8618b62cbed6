// Runs vectors of the order of records. The input is a row of cases without anything between them:
//
//     4 bytes    length of the first record, big-endian, at most 100,000
//     4 bytes    length of the second record, big-endian, at most 100,000
//     the first record
//     the second record
//
// Each case is answered by a line, its items parted by one space:
//
//     lesser                         the first record is the lesser
//     equal                          the two count as equal
//     greater                        the second is the lesser
//     refused WHICH NUMBER PLACE     WHICH is 1 or 2, the record that is refused
//
// All numbers are decimal. A case that is cut short, or longer than 100,000, is answered by `bad case`, and is the last.
#![tactic(auto)]

ghost use Rattle.cases.specs.Cases.{EndsWithInput};

use cases::{Cases, Stop};
use compare::RefusedRecord;
use std::cmp::Ordering;
use std::io;
use std::io::Read;

// Prints the line of two records that are compared.
fn print_answer(rt: &impl Print, answer: Result<Ordering, RefusedRecord>) -> io::Result<()> {
    match answer {
        Ok(Ordering::Less) => println!(rt; "lesser"),
        Ok(Ordering::Equal) => println!(rt; "equal"),
        Ok(Ordering::Greater) => println!(rt; "greater"),
        Err(r) => {
            let (which, number) = (r.which.number(), r.refusal.cause.number());
            println!(rt; "refused {which} {number} {}", r.refusal.place.0)
        }
    }
}

// The vectors that an input holds.
#[derive(Drop)]
struct Vectors<R> {
    input: R,
}

impl<R: Read> Cases for Vectors<R> {
    // The run is at its end only where the input is.
    ghost step = { λ old answer _. EndsWithInput (R.remaining old.input) answer };

    // Reads a case and runs it.
    fn run_next(&mut self, rt: &impl Print) -> Result<(), Stop> {
        let input = &mut self.input;
        let first_size = u32::from_be_bytes(cases::read_first(input)?) as usize;
        let second_size = cases::read_length(input)?;
        let mut first = [0; 100000];
        let mut second = [0; 100000];
        let first = cases::front(&mut first, first_size)?;
        let second = cases::front(&mut second, second_size)?;
        cases::read_part(input, first)?;
        cases::read_part(input, second)?;
        print_answer(rt, compare::compare_records(first, second))?;
        Ok(())
    }
}

fn main(rt: HostRuntime) -> io::Result<()> {
    cases::run_all(&rt, "bad case", Vectors { input: rt.reader() })
}
