// The line that the program prints of an answer.
#![tactic(auto)]

ghost use Rattle.std.specs.Prelude.{◌≡◌, ◌+◌, ◌*◌, ◌≤◌, ◌++◌, length};
ghost use Rattle.line.specs.Line.{items_of, line_of, counted_as, too_long, text_of, printed, padded, program_line, program_out};

mod text;

use numbers::Refuses;
use record::Counted;
pub use text::Line;

// A word, each number behind one space, and a line feed.
fn line_with(word: &[u8], numbers: &[usize]) -> Line
    requires { length word.now + 21 * length numbers.now + 1 ≤ 96 }
    ensures { text_of result ≡ word.now ++ items_of numbers.now }
{
    let mut line = Line::new();
    line.put(word);
    for n in numbers {
        line.put_item(*n);
    }
    line.put(b"\n");
    line
}

// The line of an answer: `taken`, T, N, the record's length and the count, or `refused`, the number and
// what stands beside it in the table. The number may be any: that of a cause, or one that no cause has.
pub fn line_of<R: Refuses>(answer: Result<Counted, R>) -> Line
    ensures { printed result ≡ padded (line_of (counted_as R.numbered answer)) }
{
    match answer {
        Ok(a) => line_with(b"taken", &[a.traces, a.samples, a.length, a.count]),
        Err(r) => {
            let by = r.numbered();
            line_with(b"refused", &[by.number as usize, by.place.0])
        }
    }
}

// The line of input that is longer than the program takes.
pub fn too_long() -> Line
    ensures { printed result ≡ padded too_long }
{
    let mut line = Line::new();
    line.put(b"too long\n");
    line
}

// The line of an input, whose record goes to the front of out where it is taken.
pub fn program_line(input: &[u8], out: &mut [u8]) -> Line
    ensures line { printed result ≡ padded (program_line input.now out.old) }
    ensures left { out.new ≡ program_out input.now out.old }
{
    if 65536 < input.len() {
        return too_long();
    }
    line_of(read_reel::read_reel(input, out))
}
