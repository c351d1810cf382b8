// The program: reads a script from standard input, one command a line, and prints an answer for each.
//
// A line that cannot be read is told by its number and passed over, and the run then ends with status 1.

#![tactic(auto)]

mod desk;
mod listing;
mod pages;
mod requests;
mod sheets;
mod stops;
mod texts;

use anyhow::anyhow;
use desk::Desk;
use sheets::SheetMemory;
use std::io::{BufRead, BufReader};
use stops::Stop;
use words::Trouble;

// How far a script is: the number of its next line, and whether a line could not be read.
#[derive(Clone, Copy)]
struct Progress {
    line: u64,
    troubled: bool,
}

impl Progress {
    // Tells why a line was not carried out.
    fn tell(&mut self, rt: &HostRuntime, stop: Stop) -> anyhow::Result<()> {
        match stop {
            Stop::Line(fault) => {
                self.troubled = true;
                let line = self.line;
                rt.println(Trouble { line, fault })?;
            }
            Stop::Refused(command, refusal) => println!(rt; "{command} refused {refusal}")?,
            Stop::NotLoaded(refusal) => println!(rt; "load refused {refusal}")?,
            Stop::NoTable(refusal) => println!(rt; "table refused {refusal}")?,
            Stop::NotPainted(refusal) => println!(rt; "paint refused {refusal}")?,
            Stop::NoPage(command) => println!(rt; "{command} no page")?,
            Stop::Output(e) => return Err(e.into()),
        }
        Ok(())
    }
}

// Carries lines out on one sheet. Gives the memory of the next sheet where a line asks for one, and nothing at
// the end of the script.
fn serve<R: BufRead>(
    rt: &HostRuntime,
    input: &mut R,
    desk: &mut Desk,
    progress: &mut Progress,
    mut memory: SheetMemory,
) -> anyhow::Result<Option<SheetMemory>> {
    let mut sheet = memory.sheet();
    let mut raw = Vec::new(rt.alloc());
    for line in progress.line..u64::MAX {
        progress.line = line;
        raw.clear();
        if input.read_until(b'\n', &mut raw)? == 0 {
            break;
        }
        match desk.take(rt, &mut sheet, raw.as_slice()) {
            Ok(None) => {}
            Ok(next) => {
                progress.line = line.saturating_add(1);
                return Ok(next);
            }
            Err(stop) => progress.tell(rt, stop)?,
        }
    }
    Ok(None)
}

fn main(rt: HostRuntime) -> anyhow::Result<()> {
    let mut input = BufReader::new(rt.alloc(), rt.stdin())?;
    let mut desk = Desk::new(rt.alloc());
    let mut progress = Progress {
        line: 1,
        troubled: false,
    };
    let memory = SheetMemory::full(rt.alloc()).map_err(|fault| anyhow!("{fault}"))?;
    let mut next = Some(memory);
    for _ in 0..u64::MAX {
        match next {
            Some(memory) => next = serve(&rt, &mut input, &mut desk, &mut progress, memory)?,
            None => break,
        }
    }
    if progress.troubled {
        Err(anyhow!("a line could not be read"))
    } else {
        Ok(())
    }
}
