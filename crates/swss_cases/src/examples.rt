// Examples, which are the cases of the kind `examples`: runs with what they print. Each file NAME.out of a folder is what the
// program writes, and NAME.err beside it, where there is one, the line of its status. NAME.swss is the script that it reads, which
// is empty where there is none, and NAME.words holds its words, each on a line of its own: `run` where there is none. NAME.view, where
// there is one, is what `view` writes for the same script. What differs is printed by the name of the example.
use anyhow::{Context, Result};
use part_cases::tally::Tally;
use std::alloc::Global;
use std::fs::{self, Files};
use std::sync::Wait;
use std::thread::Threads;
use swss_run::{Status, swss_main};
use swss_types::{MemSink, MemSource, Open};

/// What an example is not.
const OTHER_OUTPUT: &str = "standard output is not NAME.out";

const OTHER_LINE: &str = "the line of the status is not NAME.err";

const OTHER_VIEW: &str = "the view is not NAME.view";

/// Runs the examples of a folder.
pub fn run<R: Files + AllocGlobal + Clone + Drop + Threads + Wait + Sync + Print>(
    rt: &R,
    alloc: Global,
    folder: &str,
) -> Result<Tally> {
    let mut tally = Tally::default();
    for name in names_in(rt, alloc, folder)?.iter() {
        let difference = run_example(rt, alloc, folder, name)?;
        if let Some(difference) = difference {
            println!(rt; "{name}: {difference}")?;
        }
        tally.count(difference.is_none());
    }
    Ok(tally)
}

/// The names of the examples in the folder, rising: those of its files NAME.out.
fn names_in<R: Files + AllocGlobal + Clone + Drop>(
    rt: &R,
    alloc: Global,
    folder: &str,
) -> Result<Vec<String>> {
    let mut names = Vec::new(alloc);
    for entry in fs::read_dir(rt, folder)? {
        let entry = entry?;
        if let Some(name) = entry.file_name().strip_suffix(".out") {
            names.push(String::from_str(alloc, name)?)?;
        }
    }
    names.sort()?;
    Ok(names)
}

/// What an example is to print, or what it prints.
#[derive(Drop)]
struct Written {
    output: Vec<u8>,
    line: Vec<u8>,
}

/// Runs an example, and tells what differs from what stands beside it, if anything does.
fn run_example<R: Files + AllocGlobal + Threads + Wait + Sync>(
    rt: &R,
    alloc: Global,
    folder: &str,
    name: &str,
) -> Result<Option<&'static str>> {
    let words = words_of(rt, alloc, folder, name)?;
    let script = file_if_there(rt, alloc, folder, name, "swss")?;
    let found = run_script(rt, alloc, &words, script)?;
    let wanted = wanted(rt, alloc, folder, name)?;
    Ok(if found.output != wanted.output {
        Some(OTHER_OUTPUT)
    } else if found.line != wanted.line {
        Some(OTHER_LINE)
    } else if !is_viewed(rt, alloc, folder, name)? {
        Some(OTHER_VIEW)
    } else {
        None
    })
}

/// Whether `view` writes NAME.view for the script of an example, where there is such a file.
fn is_viewed<R: Files + AllocGlobal + Threads + Wait + Sync>(
    rt: &R,
    alloc: Global,
    folder: &str,
    name: &str,
) -> Result<bool> {
    if !fs::exists(rt, path(alloc, folder, name, "view")?)? {
        return Ok(true);
    }
    let mut words = Vec::new(alloc);
    words.push(String::from_str(alloc, "view")?)?;
    let script = file(rt, alloc, folder, name, "swss")?;
    let found = run_script(rt, alloc, &words, script)?;
    Ok(found.output == file(rt, alloc, folder, name, "view")?)
}

/// The words of an example.
fn words_of<R: Files + AllocGlobal>(
    rt: &R,
    alloc: Global,
    folder: &str,
    name: &str,
) -> Result<Vec<String>> {
    let mut words = Vec::new(alloc);
    let lines = file_if_there(rt, alloc, folder, name, "words")?;
    for line in str::from_utf8(&lines)?.lines() {
        words.push(String::from_str(alloc, line)?)?;
    }
    if words.is_empty() {
        words.push(String::from_str(alloc, "run")?)?;
    }
    Ok(words)
}

/// What stands beside an example.
fn wanted<R: Files + AllocGlobal>(
    rt: &R,
    alloc: Global,
    folder: &str,
    name: &str,
) -> Result<Written> {
    let line = file_if_there(rt, alloc, folder, name, "err")?;
    let output = file(rt, alloc, folder, name, "out")?;
    Ok(Written { output, line })
}

/// What the program prints for these words and this script.
fn run_script<R: Threads + Wait + Sync>(
    rt: &R,
    alloc: Global,
    words: &[String],
    script: Vec<u8>,
) -> Result<Written> {
    let mut source = MemSource::new(script, Vec::new(alloc));
    let mut sink = MemSink::new(alloc, Vec::new(alloc));
    let outcome = swss_main(rt, alloc, words, &mut source, &mut sink, &Open);
    let line = printed(alloc, &outcome.into_status())?;
    let output = sink.held().to_vec(alloc)?;
    Ok(Written { output, line })
}

/// The line of a status as the program prints it, with its end; nothing where all went well.
fn printed(alloc: Global, status: &Status) -> Result<Vec<u8>> {
    let mut line = status.line(alloc)?;
    if !line.is_empty() {
        line.push(b'\n')?;
    }
    Ok(line)
}

/// The bytes of a file of an example.
fn file<R: Files + AllocGlobal>(
    rt: &R,
    alloc: Global,
    folder: &str,
    name: &str,
    ending: &str,
) -> Result<Vec<u8>> {
    let path = path(alloc, folder, name, ending)?;
    fs::read(rt, &path).context("a file beside an example")
}

/// The bytes of a file of an example, and none where there is no such file.
fn file_if_there<R: Files + AllocGlobal>(
    rt: &R,
    alloc: Global,
    folder: &str,
    name: &str,
    ending: &str,
) -> Result<Vec<u8>> {
    match fs::exists(rt, path(alloc, folder, name, ending)?)? {
        true => file(rt, alloc, folder, name, ending),
        false => Ok(Vec::new(alloc)),
    }
}

/// Where a file of an example stands.
fn path(alloc: Global, folder: &str, name: &str, ending: &str) -> Result<String> {
    Ok(format!(in alloc; "{folder}/{name}.{ending}")?)
}
