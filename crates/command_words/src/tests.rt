//! Command lines and what they ask for, worked out by hand from the usage of each command. A line is written
//! with `|` between its words, and so is what it asks for: the values of the request in the order of
//! its fields, the names of scripts and bundles last.

use crate::{Request, WordsFault, read_words};
use soc_base::{NoMemory, Text, Words};
use std::alloc::{AllocError, Global};
use std::process::Abort;
use std::test::Fail;

// A text, with names after it.
fn with_names(alloc: Global, front: &str, names: &[Text]) -> Result<String, AllocError> {
    let mut text = String::from_str(alloc, front)?;
    for name in names {
        text.push_str("|")?;
        text.push_str(name.as_str())?;
    }
    Ok(text)
}

// A request as a text.
fn written(alloc: Global, request: &Request) -> Result<String, AllocError> {
    match request {
        Request::Run(run) => {
            let platform = run.platform.as_str();
            let front = format!(in alloc;
                "run|{platform}|{}|{}|{}",
                run.budget, run.workers, run.state
            )?;
            with_names(alloc, front.as_str(), run.scripts.as_slice())
        }
        Request::Alone(alone) => {
            let platform = alone.platform.as_str();
            let bundle = alone.bundle.as_str();
            format!(in alloc;
                "alone|{platform}|{bundle}|{}|{}",
                alone.start, alone.budget
            )
        }
        Request::Check(check) => {
            let front = format!(in alloc; "check|{}", check.platform.as_str())?;
            with_names(alloc, front.as_str(), check.bundles.as_slice())
        }
        Request::Generate(number) => format!(in alloc; "generate|{number}"),
    }
}

// What words ask for, as a text.
fn asked(alloc: Global, words: &Words) -> Result<String, NoMemory> {
    match read_words(alloc, words) {
        Ok(request) => Ok(written(alloc, &request)?),
        Err(WordsFault::Usage) => Ok(String::from_str(alloc, "usage")?),
        Err(WordsFault::NoMemory) => Err(NoMemory),
    }
}

// Compares what a line asks for.
fn expect(rt: &impl Abort, alloc: Global, line: &str, want: &str) -> Result<(), Fail> {
    let mut words = Words::new(alloc);
    for word in line.split('|') {
        words.add(word)?;
    }
    let text = asked(alloc, &words)?;
    assert_eq!(rt; text.as_str(), want, "of {line}");
    Ok(())
}

// Lines of `run`, and what they ask for.
const RUNS: [(&str, &str); 56] = [
    ("run|p|5|a", "run|p|5|2|false|a"),
    ("run|p|5|a|b|a", "run|p|5|2|false|a|b|a"),
    ("run||5|", "run||5|2|false|"),
    ("run|help|5|-", "run|help|5|2|false|-"),
    // Options at every place.
    ("run|--state|p|5|a", "run|p|5|2|true|a"),
    ("run|p|--state|5|a", "run|p|5|2|true|a"),
    ("run|p|5|--state|a", "run|p|5|2|true|a"),
    ("run|p|5|a|--state", "run|p|5|2|true|a"),
    ("run|p|5|a|--state|b|c", "run|p|5|2|true|a|b|c"),
    ("run|--workers|0|p|5|a", "run|p|5|0|false|a"),
    ("run|p|--workers=0|5|a", "run|p|5|0|false|a"),
    ("run|p|5|--workers|00|a", "run|p|5|0|false|a"),
    ("run|p|5|a|--workers=000", "run|p|5|0|false|a"),
    ("run|p|5|a|--state|b|--workers|0|c", "run|p|5|0|true|a|b|c"),
    // After `--` there is no option.
    ("run|--|p|5|a", "run|p|5|2|false|a"),
    (
        "run|p|5|--|a|--state|--|-b",
        "run|p|5|2|false|a|--state|--|-b",
    ),
    ("run|--state|p|5|a|--|--state", "run|p|5|2|true|a|--state"),
    ("run|p|5|a|--", "run|p|5|2|false|a"),
    // Once at most.
    ("run|p|5|a|--state|--state", "usage"),
    ("run|--state|p|5|a|--state", "usage"),
    ("run|p|5|a|--workers=0|--workers=0", "usage"),
    ("run|--workers|0|p|5|a|--workers=0", "usage"),
    // The number of workers.
    ("run|p|5|a|--workers=1", "run|p|5|1|false|a"),
    ("run|p|5|a|--workers|01|--state", "run|p|5|1|true|a"),
    ("run|p|5|a|--workers=2", "run|p|5|2|false|a"),
    ("run|p|5|a|--workers|32", "run|p|5|32|false|a"),
    ("run|p|5|a|--workers=33", "usage"),
    ("run|p|5|a|--workers|4294967297", "usage"),
    ("run|p|5|a|--workers", "usage"),
    ("run|p|5|--workers|a", "usage"),
    ("run|p|5|a|--workers=", "usage"),
    ("run|p|5|a|--workers|", "usage"),
    ("run|p|5|a|--workers=+0", "usage"),
    ("run|p|5|a|--workers|-0", "usage"),
    ("run|p|5|a|--workers|--state", "usage"),
    ("run|p|5|a|--workers|--|0", "usage"),
    // Other options.
    ("run|p|5|a|--state=true", "usage"),
    ("run|p|5|a|--stat", "usage"),
    ("run|p|5|a|-s", "usage"),
    ("run|p|5|-a", "usage"),
    ("run|p|5|a|--help", "usage"),
    ("run|-h", "usage"),
    ("run|p|5|a|--version", "usage"),
    // The budget.
    ("run|p|0|a", "run|p|0|2|false|a"),
    ("run|p|1000000000000|a", "run|p|1000000000000|2|false|a"),
    ("run|p|00000000000000000000000000001|a", "run|p|1|2|false|a"),
    ("run|p|1000000000001|a", "usage"),
    ("run|p|18446744073709551617|a", "usage"),
    ("run|p||a", "usage"),
    ("run|p|+5|a", "usage"),
    ("run|p|-1|a", "usage"),
    ("run|p|--|-1|a", "usage"),
    ("run|p| 5|a", "usage"),
    ("run|p|5 |a", "usage"),
    ("run|p|5c|a", "usage"),
    ("run|p|a|5", "usage"),
];

#[test]
fn reads_runs(rt: HostRuntime) -> Result<(), Fail> {
    let alloc = rt.alloc();
    for (line, want) in RUNS {
        expect(&rt, alloc, line, want)?;
    }
    Ok(())
}

// Lines of the other commands and of none, and what they ask for.
const OTHERS: [(&str, &str); 45] = [
    ("alone|p|b|1|2", "alone|p|b|1|2"),
    ("alone|||2|1", "alone|||2|1"),
    ("alone|--|p|-b|1|2", "alone|p|-b|1|2"),
    ("alone|p|b|0|1000000000000", "alone|p|b|0|1000000000000"),
    ("alone|p|b|001000000000000|00", "alone|p|b|1000000000000|0"),
    ("alone|p|b|1000000000001|0", "usage"),
    ("alone|p|b|0|1000000000001", "usage"),
    ("alone|p|b|x|2", "usage"),
    ("alone|p|b|1|", "usage"),
    ("alone|p|b|1|-2", "usage"),
    ("alone|p|b|1", "usage"),
    ("alone|p|b|1|2|3", "usage"),
    ("alone|p|b|1|2|--state", "usage"),
    ("alone|p|b|1|2|--workers=0", "usage"),
    ("alone|p|b|1|2|--help", "usage"),
    ("check|p|a", "check|p|a"),
    ("check|p|a||a", "check|p|a||a"),
    ("check|p|a|--|-b", "check|p|a|-b"),
    ("check|p", "usage"),
    ("check|p|--", "usage"),
    ("check", "usage"),
    ("check|p|a|--state", "usage"),
    ("check|p|-h", "usage"),
    ("generate|0", "generate|0"),
    ("generate|4294967295", "generate|4294967295"),
    ("generate|--|0007", "generate|7"),
    ("generate|4294967296", "usage"),
    ("generate|", "usage"),
    ("generate|+1", "usage"),
    ("generate|-1", "usage"),
    ("generate| 1", "usage"),
    ("generate|1b", "usage"),
    ("generate", "usage"),
    ("generate|1|2", "usage"),
    ("generate|--number=1", "usage"),
    ("generate|--version", "usage"),
    ("", "usage"),
    ("runs|p|5|a", "usage"),
    ("Run|p|5|a", "usage"),
    ("--|run|p|5|a", "usage"),
    ("--state|run|p|5|a", "usage"),
    ("help", "usage"),
    ("--help", "usage"),
    ("-h", "usage"),
    ("--version", "usage"),
];

#[test]
fn reads_the_other_commands(rt: HostRuntime) -> Result<(), Fail> {
    let alloc = rt.alloc();
    for (line, want) in OTHERS {
        expect(&rt, alloc, line, want)?;
    }
    let none = asked(alloc, &Words::new(alloc))?;
    assert_eq!(rt; none.as_str(), "usage");
    Ok(())
}

// How many scripts and bundles a command takes: what stands before them and so many, an option and so many
// more after it, and what that asks for, with so many names.
const COUNTS: [(&str, u8, &str, u8, &str, u8); 12] = [
    ("run|p|5", 0, "", 0, "usage", 0),
    ("run|p|5", 1, "", 0, "run|p|5|2|false", 1),
    ("run|p|5", 16, "", 0, "run|p|5|2|false", 16),
    ("run|p|5", 17, "", 0, "usage", 0),
    ("run|p|5", 8, "|--state", 8, "run|p|5|2|true", 16),
    ("run|p|5", 1, "|--state", 15, "run|p|5|2|true", 16),
    ("run|p|5", 15, "|--workers=0", 2, "usage", 0),
    ("run|p|5", 9, "|--state", 9, "usage", 0),
    ("check|p", 0, "", 0, "usage", 0),
    ("check|p", 1, "", 0, "check|p", 1),
    ("check|p", 64, "", 0, "check|p", 64),
    ("check|p", 65, "", 0, "usage", 0),
];

// A text and so many names after it.
fn line_of(alloc: Global, front: &str, count: u8) -> Result<String, AllocError> {
    let mut line = String::from_str(alloc, front)?;
    for _ in 0..count {
        line.push_str("|a")?;
    }
    Ok(line)
}

#[test]
fn counts_scripts_and_bundles(rt: HostRuntime) -> Result<(), Fail> {
    let alloc = rt.alloc();
    for (front, before, option, after, answer, names) in COUNTS {
        let mut line = line_of(alloc, front, before)?;
        line.push_str(option)?;
        let line = line_of(alloc, line.as_str(), after)?;
        let want = line_of(alloc, answer, names)?;
        expect(&rt, alloc, line.as_str(), want.as_str())?;
    }
    Ok(())
}
