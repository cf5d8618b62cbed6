// Running cases by a closure that is lent.

ghost use Rattle.std.specs.Prelude.{ℕ, replicate};
ghost use Rattle.std.specs.List.{FoldsTo};
ghost use Rattle.cases.specs.Cases.{Follows};

use crate::Stop;
use std::io;

// Runs cases, each by a call of the closure, until one of them stops the run, and answers what is no case with that line.
// `run_all` is the same of a value that has cases to run, and says why the loop counts its turns. This one asks that the closure may be
// called: nothing in a closure's type says so, and without a heap no type that holds one can keep it as its invariant.
pub fn run_cases<F: FnMut() -> Result<(), Stop>>(
    rt: &impl Print,
    bad: &str,
    mut case: F,
) -> io::Result<()>
    requires { F.IsAlwaysCallable case }
    ensures { (n : ℕ) × (last : F) × FoldsTo F.step case (replicate n (Ok tt)) last × Follows F.step n last result }
{
    for _ in 0..u64::MAX {
        match case() {
            Ok(()) => {}
            Err(Stop::AtEnd) => return Ok(()),
            Err(Stop::BadCase) => return println!(rt; "{bad}"),
            Err(Stop::Failed(e)) => return Err(e),
        }
    }
    Ok(())
}

#[cfg(test)]
mod tests {
    use super::*;
    use std::cell::Cell;
    use std::fmt;
    use std::fmt::{Display, Write};
    use std::io::{ErrorKind, Print};

    // What is left of a text, of which each part that is written has to be the next.
    #[derive(Drop)]
    struct Rest<'a> {
        text: &'a str,
    }

    impl<'a> Write for Rest<'a> {
        fn write_str(&mut self, part: &str) -> fmt::Result {
            self.text = self.text.strip_prefix(part).ok_or(fmt::Error)?;
            Ok(())
        }
    }

    // How many lines were printed, all of them `bad case`; anything else that is printed fails.
    #[derive(Drop)]
    struct Page {
        lines: Cell<u8>,
    }

    impl Print for Page {
        fn print<D: Display + Drop>(&self, _: D) -> io::Result<()> {
            Err(io::Error::other("no line"))
        }

        fn println<D: Display + Drop>(&self, value: D) -> io::Result<()> {
            let mut rest = Rest { text: "bad case" };
            if write!(rest, "{value}").is_err() || !rest.text.is_empty() {
                return Err(io::Error::other("another line"));
            }
            self.lines.set(self.lines.get().wrapping_add(1));
            Ok(())
        }

        fn write_all(&self, _: &[u8]) -> io::Result<()> {
            Err(io::Error::other("no line"))
        }
    }

    // Three cases that go well, and then each way in which a run stops: the lines that it prints, and what it answers.
    #[test]
    fn runs_until_a_case_stops(rt: HostRuntime) {
        let failed = Err(ErrorKind::TimedOut);
        for (way, lines, want) in [(0, 0, Ok(())), (1, 1, Ok(())), (2, 0, failed)] {
            let page = Page {
                lines: Cell::new(0),
            };
            let mut calls = 0u8;
            let answer = run_cases(&page, "bad case", || {
                calls = calls.wrapping_add(1);
                if calls <= 3 {
                    return Ok(());
                }
                Err(match way {
                    0 => Stop::AtEnd,
                    1 => Stop::BadCase,
                    _ => Stop::Failed(io::Error::from(ErrorKind::TimedOut)),
                })
            });
            assert_eq!(rt; answer.map_err(|e| e.kind()), want, "way {way}");
            assert_eq!(rt; calls, 4, "way {way}");
            assert_eq!(rt; page.lines.get(), lines, "way {way}");
        }
    }
}
