//! What the words of a command line name. Rows of the program show more words, the words that are refused, and the help texts, but no row
//! shows how many workers there are.

use pg_cli::{Command, Invocation, parse_words};
use pg_cli_words::{Request, parse_request};
use std::alloc::Global;

/// Whether the words name this command, and no program for the workers.
fn names(alloc: Global, words: &[&str], command: Command) -> bool {
    let line = parse_words(alloc, words);
    matches!(&line, Ok(Invocation::Run(named, None)) if *named == command)
}

/// Whether the words name this command, and this program for the workers.
fn names_apart(alloc: Global, words: &[&str], command: Command, program: &str) -> bool {
    let line = parse_words(alloc, words);
    matches!(&line, Ok(Invocation::Run(named, Some(path))) if *named == command && path.as_str() == program)
}

/// Whether the words name this port for a worker.
fn names_port(alloc: Global, words: &[&str], port: u16) -> bool {
    let line = parse_words(alloc, words);
    matches!(&line, Ok(Invocation::Work(named)) if *named == port)
}

#[test]
fn words_name_a_command_and_its_workers(rt: HostRuntime) {
    for (name, command) in [
        ("measure", Command::Measure { workers: 3 }),
        ("solve", Command::Solve { workers: 3 }),
        ("synth", Command::Synth { workers: 3 }),
    ] {
        let words = ["parsolve", name, "--workers", "3"];
        assert!(rt; names(rt.alloc(), &words, command), "{name}");
    }
    let words = ["parsolve", "solve", "--apart", "/proc/self/exe"];
    let two = Command::Solve { workers: 2 };
    assert!(rt; names_apart(rt.alloc(), &words, two, "/proc/self/exe"));
    assert!(rt; names_port(rt.alloc(), &["parsolve", "worker", "--port", "4000"], 4000));
}

/// Whether the words name these outputs and ask for figures.
fn names_outputs(alloc: Global, words: &[&str], names: &str) -> bool {
    let request = parse_request(alloc, words);
    matches!(&request, Ok(Request { outs: Some(outs), stats: true, .. }) if outs.as_str() == names)
}

/// Whether the words ask for a status that says what the answer is, and for figures as JSON.
fn asks_for_status_and_json(alloc: Global, words: &[&str]) -> bool {
    let request = parse_request(alloc, words);
    matches!(
        &request,
        Ok(Request {
            status: true,
            json: true,
            stats: false,
            ..
        })
    )
}

#[test]
fn words_ask_for_more_than_a_command(rt: HostRuntime) {
    let words = ["parsolve", "game", "--outs", "g,h", "--stats"];
    assert!(rt; names_outputs(rt.alloc(), &words, "g,h"));
    let words = ["parsolve", "check", "--status", "--json"];
    assert!(rt; asks_for_status_and_json(rt.alloc(), &words));
}
