// Running the cases of an input one after another, as the programs do that run vectors.
#![tactic(auto)]

ghost use Rattle.std.specs.Prelude.{◌≡◌, ℕ, ◌<◌, ◌≤◌, ◌↔◌, length, take, replicate, IsOk, IfOk, IfErr, OnOk, IsErrOf, Err, Result, Some};
ghost use Rattle.std.specs.Io.KnownBytes.{Consumes, IsAtEnd};
ghost use Rattle.std.specs.List.{FoldsTo};
ghost use Rattle.cases.specs.Cases.{HasFewer, IsCutShort, ConsumesLength, Follows};
ghost use Rattle.cases.specs.Refused.{refused_text};
ghost use Rattle.cases.specs.declared.Stop.{Stop};
ghost use Rattle.cases.specs.declared.Stop.TheVariants.{BadCase, Failed};
ghost use Rattle.digests.specs.Digest.{digest_of};

mod closure;

pub use closure::run_cases;
use numbers::Refusal;
use std::io::Read;
use std::{fmt, io};

// Why a run over cases stops.
#[derive(Drop)]
pub enum Stop {
    // The input has no further case.
    AtEnd,
    // What comes next is no case: it is cut short, or too long, or of a kind that the program doesn't know.
    BadCase,
    // The system could not read or print.
    Failed(io::Error),
}

impl From<io::Error> for Stop {
    ghost from_gives = { λ e s. s ≡ Failed e };

    fn from(e: io::Error) -> Stop {
        Stop::Failed(e)
    }
}

// Reads the first bytes of a case. Where the input has ended, so has the run.
pub fn read_first<const N: usize, R: Read>(input: &mut R) -> Result<[u8; N], Stop>
    ensures read { IfOk result (Consumes (R.remaining input.old) (R.remaining input.new)) }
    ensures ended { IsErrOf result Stop.AtEnd → IsAtEnd (R.remaining input.old) }
    ensures cut_short { IsErrOf result Stop.BadCase → IsCutShort (R.remaining input.old) N }
{
    let mut bytes = [0; N];
    let n = inputs::read_full(input, &mut bytes)?;
    if n == N {
        return Ok(bytes);
    }
    Err(if n == 0 { Stop::AtEnd } else { Stop::BadCase })
}

// Reads a part of a case: as many bytes as it is long.
pub fn read_part<R: Read>(input: &mut R, part: &mut [u8]) -> Result<(), Stop>
    ensures read { OnOk result (Consumes (R.remaining input.old) (R.remaining input.new) part.new) }
    ensures cut_short { IsErrOf result Stop.BadCase → HasFewer (R.remaining input.old) (length part.old) }
    ensures goes_on { ¬ IsErrOf result Stop.AtEnd }
{
    if inputs::read_full(input, part)? < part.len() {
        return Err(Stop::BadCase);
    }
    Ok(())
}

// As much of the front of a buffer as a case asks for. What asks for more than the buffer has is no case.
// No clause says what a write through it leaves in the buffer: the library's clause on what a Result lends takes no slice, and no caller asks.
pub fn front(buffer: &mut [u8], size: usize) -> Result<&mut [u8], Stop>
    ensures front { IfOk result (λ part. part.now ≡ take size buffer.entry.now) }
    ensures fits { IsOk result ↔ (size ≤ length buffer.entry.now) }
    ensures bad { IfErr result (λ stop. stop ≡ BadCase) }
{
    buffer.get_mut(..size).ok_or(Stop::BadCase)
}

// Reads a length: four bytes of a case, the first of which stands highest.
pub fn read_length<R: Read>(input: &mut R) -> Result<usize, Stop>
    ensures read { IfOk result (ConsumesLength (R.remaining input.old) (R.remaining input.new)) }
    ensures cut_short { IsErrOf result Stop.BadCase → HasFewer (R.remaining input.old) 4 }
    ensures goes_on { ¬ IsErrOf result Stop.AtEnd }
{
    let mut bytes = [0; 4];
    read_part(input, &mut bytes)?;
    Ok(u32::from_be_bytes(bytes) as usize)
}

// What has cases to run, one after another.
pub trait Cases {
    // What running the next case answers, and what is left behind it.
    ghost step: { Self → Result (Unit {0}) Stop → Self → Type 0 };

    // Runs the next case, or says why the run stops.
    fn run_next(&mut self, rt: &impl Print) -> Result<(), Stop>
        ensures { step self.old result self.new };
}

// Runs cases until one of them stops the run, and answers what is no case with that line.
// A proved loop has to end, and nothing says that the input does. So the loop counts its turns, up to a number that no run reaches.
pub fn run_all<C: Cases + Drop>(rt: &impl Print, bad: &str, mut cases: C) -> io::Result<()>
    ensures { (n : ℕ) × (last : C) × FoldsTo C.step cases (replicate n (Ok tt)) last × Follows C.step n last result }
{
    for _ in 0..u64::MAX {
        match cases.run_next(rt) {
            Ok(()) => {}
            Err(Stop::AtEnd) => return Ok(()),
            Err(Stop::BadCase) => return println!(rt; "{bad}"),
            Err(Stop::Failed(e)) => return Err(e),
        }
    }
    Ok(())
}

// The line of a call that is refused: its refusal, and the digest of the whole output.
#[derive(Clone, Copy)]
pub struct RefusedLine {
    pub refusal: Refusal,
    pub digest: u64,
}

impl fmt::Display for RefusedLine {
    ghost output = { λ line. Some (refused_text line) };

    fn fmt<W: fmt::Write>(&self, f: &mut fmt::Formatter<W>) -> fmt::Result {
        let number = self.refusal.cause.number();
        let place = self.refusal.place.0;
        let digest = self.digest;
        write!(f, "refused {number} {place} {digest}")
    }
}

// The line of a call that is refused and left these bytes in its output.
pub fn refused_line(refusal: Refusal, out: &[u8]) -> RefusedLine
    ensures { result ≡ record { refusal = refusal; digest = digest_of out.now } }
{
    RefusedLine {
        refusal,
        digest: digests::digest(out),
    }
}
