// Runs a script from standard input, a call to a line, and prints a line for each call; then ends the holds still in hand.
// It ends with status 1 if a line was not understood, if memory is wanting, or if input or output fails.
#![tactic(auto)]

use anyhow::anyhow;
use script::Session;
use std::io::{BufRead, BufReader};

fn run(rt: &HostRuntime, session: &mut Session) -> anyhow::Result<()> {
    let mut input = BufReader::new(rt.alloc(), rt.stdin())?;
    let mut text = Vec::new(rt.alloc());
    // A loop over lines would drop their endings, which the session reads; and a loop has to end.
    for _ in 0..u64::MAX {
        text.clear();
        if input.read_until(b'\n', &mut text)? == 0 {
            break;
        }
        if let Some(reply) = session.line(text.as_slice())? {
            println!(rt; "{reply}")?;
        }
    }
    Ok(())
}

fn close(rt: &HostRuntime, session: &mut Session) -> anyhow::Result<()> {
    for h in 0..session.holds() {
        if let Some(reply) = session.close_hold(h) {
            println!(rt; "{reply}")?;
        }
    }
    Ok(())
}

// However the script ends, its holds are ended.
fn main(rt: HostRuntime) -> anyhow::Result<()> {
    let mut session = Session::new(rt.alloc());
    let ran = run(&rt, &mut session);
    let closed = close(&rt, &mut session);
    let understood = session.understood();
    session.end();
    ran?;
    closed?;
    if !understood {
        return Err(anyhow!("a line was not understood"));
    }
    Ok(())
}
