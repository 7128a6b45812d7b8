// Replays the oracle's answers through the library: a line of standard input is a call with what it must leave, in the form
// that oracle/README.md describes. Prints what was met and what differs.
#![tactic(auto)]

mod call; // call.rt: the call that a line's numbers describe, and what it must leave
mod line; // line.rt: a line, as its bytes come
mod replay; // replay.rt: the call made, and all that it leaves compared
mod tally; // tally.rt: what was met, counted and printed

use call::Call;
use line::{Ended, Line};
use std::io;
use tally::Tally;

const CHUNK: usize = 65_536;

fn replay_line(rt: &impl Print, tally: &mut Tally, number: u64, line: &mut Line) -> io::Result<()> {
    let call = match line.end()? {
        Ended::Title => return Ok(()),
        Ended::Malformed => None,
        Ended::Numbers(numbers) => Call::read(numbers),
    };
    match call {
        Some(call) => {
            let differences = replay::replay(&call);
            tally.note_compared(rt, number, call.lists.is_some(), differences)
        }
        None => tally.note_malformed(rt, number),
    }
}

fn main(rt: HostRuntime) -> io::Result<()> {
    let mut tally = Tally::default();
    let mut number: u64 = 1;
    let mut line = Line::new(rt.alloc());
    let mut reader = rt.stdin();
    let mut chunk = vec![in rt.alloc(); 0u8; CHUNK]?;
    // Nothing says that the input ends, so the turns are counted, to a number that no run uses up.
    for _ in 0..u64::MAX {
        let filled = input::fill(&mut reader, &mut chunk)?;
        if filled == 0 {
            break;
        }
        for byte in &chunk[..filled] {
            if *byte == b'\n' {
                replay_line(&rt, &mut tally, number, &mut line)?;
                line.clear();
                number = number.saturating_add(1);
            } else {
                line.push(*byte)?;
            }
        }
    }
    if !line.is_empty() {
        replay_line(&rt, &mut tally, number, &mut line)?;
    }
    println!(rt; "{tally}")
}
