// The program: replays a journal, from a file or from standard input.
#![tactic(auto)]

mod bench;

use crate::bench::bench;
use anyhow::anyhow;
use playing::Outcome;
use std::io::Read;
use std::process::ExitCode;
use std::{env, fs};

const HELP: &str = "tolibwas FILE             replays the journal in the file
tolibwas                  replays the journal on standard input
tolibwas --treasurer ..   adds the ledger's balance at the end
tolibwas --bench N ..     replays the journal N times, and tells how long a replay takes
tolibwas --help           prints this
";

// What the words after the program's name ask for.
#[derive(Drop)]
struct Request {
    help: bool,
    treasurer: bool,
    replays: Option<u32>,
    path: Option<String>,
}

fn number_of(word: Option<String>) -> anyhow::Result<u32> {
    let number = word.and_then(|word| word.as_str().parse::<u32>().ok());
    match number {
        Some(number) if number > 0 => Ok(number),
        _ => Err(anyhow!("--bench wants a number of replays")),
    }
}

fn asked_for(rt: &HostRuntime) -> anyhow::Result<Request> {
    let mut request = Request {
        help: false,
        treasurer: false,
        replays: None,
        path: None,
    };
    let mut words = env::args(rt)?.skip(1);
    while let Some(word) = words.next() {
        match word.as_str() {
            // The words behind it are not looked at.
            "--help" => {
                request.help = true;
                return Ok(request);
            }
            "--treasurer" => request.treasurer = true,
            "--bench" => request.replays = Some(number_of(words.next())?),
            option if option.starts_with('-') => return Err(anyhow!("this option is unknown")),
            _ if request.path.is_some() => return Err(anyhow!("there is more than one file")),
            _ => request.path = Some(word),
        }
    }
    Ok(request)
}

fn journal_of_input(rt: &HostRuntime) -> anyhow::Result<Vec<u8>> {
    let mut text = Vec::new(rt.alloc());
    rt.stdin().read_to_end(&mut text)?;
    Ok(text)
}

// Prints and reports what came of a journal; the status is 0 if it was replayed.
fn replay(rt: &HostRuntime, text: &[u8], treasurer: bool) -> anyhow::Result<ExitCode> {
    let Outcome {
        printed,
        reported,
        accepted,
    } = playing::run(rt.alloc(), text, treasurer)?;
    print!(rt; "{printed}")?;
    eprint!(rt; "{reported}")?;
    Ok(if accepted {
        ExitCode::SUCCESS
    } else {
        ExitCode::FAILURE
    })
}

fn perform(rt: &HostRuntime) -> anyhow::Result<ExitCode> {
    let request = asked_for(rt)?;
    if request.help {
        print!(rt; "{HELP}")?;
        return Ok(ExitCode::SUCCESS);
    }
    let text = match &request.path {
        Some(path) => fs::read(rt, path.as_str())?,
        None => journal_of_input(rt)?,
    };
    match request.replays {
        Some(replays) => bench(rt, text.as_slice(), request.treasurer, replays),
        None => replay(rt, text.as_slice(), request.treasurer),
    }
}

// Where the status is 1, what went wrong has been told.
fn main(rt: HostRuntime) -> ExitCode {
    match perform(&rt) {
        Ok(status) => status,
        Err(error) => {
            let _ = eprintln!(rt; "tolibwas: {error}");
            ExitCode::FAILURE
        }
    }
}
