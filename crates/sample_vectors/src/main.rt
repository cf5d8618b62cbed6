// Runs sample vectors. Each line of the input, 24 bytes with its line feed, asks for one call:
//
//     r CCCCCCCC WWWWWWWW----    read the word W under the format code C
//     w CCCCCCCC PPPPPPPPPPPP    write the pair P under the format code C
//
// Each line of the output, 36 bytes with its line feed, has the answer: its number in three decimal
// digits, 000 where the sample was taken; its place; the bytes handed out, a word's with dashes after
// them; and, of a word that was read, 1 where it isn't normal, else 0, a dash of a pair.
//
//     NNN LLLLLLLLLLLLLLLL HHHHHHHHHHHH C
//
// All but the number is in lowercase hexadecimal digits. A line of another form is answered by
// `bad line`.
#![tactic(auto)]

ghost use Rattle.std.specs.Prelude.{◌≡◌, ◌*◌, ◌≤◌, length, IfSome};
ghost use Rattle.cases.specs.Cases.{EndsWithInput};

use cases::{Cases, Stop};
use numbers::Refusal;
use std::io;
use std::io::Read;

// What a line asks for.
#[derive(Clone, Copy)]
enum Request {
    Read { code: u32, word: [u8; 4] },
    Write { code: u32, pair: [u8; 6] },
}

// The value of a hexadecimal digit. Capitals are none, which `char::to_digit` takes too.
fn digit(byte: u8) -> Option<u8>
    ensures { IfSome result (λ value. value ≤ 15) }
{
    match byte {
        b'0'..=b'9' => Some(byte - b'0'),
        b'a'..=b'f' => Some(byte - b'a' + 10),
        _ => None,
    }
}

// The bytes that hexadecimal digits spell, two digits a byte.
fn bytes_of<const N: usize>(digits: &[u8]) -> Option<[u8; N]> {
    let mut bytes = [0; N];
    let (pairs, _) = digits.as_chunks::<2>();
    for (byte, [high, low]) in bytes.iter_mut().zip(pairs) {
        *byte = digit(*high)? * 16 + digit(*low)?;
    }
    Some(bytes)
}

// What a line asks for, where it is of one of the two forms.
fn request_of(line: [u8; 24]) -> Option<Request> {
    if line[1] != b' ' || line[10] != b' ' || line[23] != b'\n' {
        return None;
    }
    let code = u32::from_be_bytes(bytes_of(&line[2..10])?);
    match line[0] {
        b'r' if line.ends_with(b"----\n") => Some(Request::Read {
            code,
            word: bytes_of(&line[11..19])?,
        }),
        b'w' => Some(Request::Write {
            code,
            pair: bytes_of(&line[11..23])?,
        }),
        _ => None,
    }
}

// The hexadecimal digits, by their values.
const DIGITS: [u8; 16] = *b"0123456789abcdef";

// Spells bytes in a reply, two digits a byte.
fn put_digits(bytes: &[u8], out: &mut [u8])
    requires { length out.old ≡ 2 * length bytes.now }
{
    for (i, byte) in bytes.iter().enumerate() {
        out[2 * i] = DIGITS[usize::from(byte / 16)];
        out[2 * i + 1] = DIGITS[usize::from(byte % 16)];
    }
}

// A reply with its number and its place, both 0 where the sample is taken, and dashes for what is handed out.
fn reply_of<T: Copy>(answer: Result<T, Refusal>) -> [u8; 36] {
    let (number, place) = match answer {
        Ok(_) => (0, 0),
        Err(refusal) => (refusal.cause.number(), refusal.place.0),
    };
    let mut reply = *b"000 0000000000000000 ------------ -\n";
    reply[0] = b'0' + number / 100;
    reply[1] = b'0' + number / 10 % 10;
    reply[2] = b'0' + number % 10;
    put_digits(&place.to_be_bytes(), &mut reply[4..20]);
    reply
}

// Prints a reply.
fn send(rt: &impl Print, reply: &[u8; 36]) -> io::Result<()> {
    rt.write_all(reply)
}

// Prints the reply to reading a word, with its count: 1 where the word is not normal, and 0 of a refused one.
fn print_read(rt: &impl Print, code: u32, word: [u8; 4]) -> io::Result<()> {
    let read = sample::read_word(code, word);
    let mut reply = reply_of(read.answer);
    put_digits(&read.pair, &mut reply[21..33]);
    reply[34] = if read.answer.unwrap_or(false) {
        b'1'
    } else {
        b'0'
    };
    send(rt, &reply)
}

// Prints the reply to writing a pair, which has no count.
fn print_written(rt: &impl Print, code: u32, pair: [u8; 6]) -> io::Result<()> {
    let written = sample::write_pair(code, pair);
    let mut reply = reply_of(written.answer);
    put_digits(&written.word, &mut reply[21..29]);
    send(rt, &reply)
}

// The vectors that an input holds.
#[derive(Drop)]
struct Vectors<R> {
    input: R,
}

impl<R: Read> Cases for Vectors<R> {
    // The run is at its end only where the input is.
    ghost step = { λ old answer _. EndsWithInput (R.remaining old.input) answer };

    // Reads a line and answers it.
    fn run_next(&mut self, rt: &impl Print) -> Result<(), Stop> {
        match request_of(cases::read_first(&mut self.input)?) {
            Some(Request::Read { code, word }) => print_read(rt, code, word)?,
            Some(Request::Write { code, pair }) => print_written(rt, code, pair)?,
            None => println!(rt; "bad line")?,
        }
        Ok(())
    }
}

// A line that is cut short is the last.
fn main(rt: HostRuntime) -> io::Result<()> {
    cases::run_all(&rt, "bad line", Vectors { input: rt.reader() })
}
