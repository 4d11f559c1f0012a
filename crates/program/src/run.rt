//! The program, over a reader and two writers.

ghost use Rattle.std.specs.Prelude.{◌≡◌, ◌≤◌, IfOk, OnErr};

use crate::objects;
use crate::play::run;
use console::audit::{Audited, audit};
use console::export::export;
use console::exports::show;
use console::fault::RunFault;
use console::files::print;
use console::options::{
    AuditOptions, CommandOptions, Form, NAME, STANDARD, no_text, text_asked_for,
};
use console::pictures::draw_saved;
use journal::Finding;
use node::{Gate, Open, Reply};
use server::serve;
use std::alloc::{AllocError, Global};
use std::convert::AsStr;
use std::env;
use std::fs::File;
use std::io::{ErrorKind, IsTerminal, Read, Write};
use std::rt::{Env, Files};
use std::sync::Wait;
use std::thread::Threads;
use std::time::Clock;

/// The status of a run with its whole output.
const DONE: u8 = 0;

/// The status of a fault.
const FAILED: u8 = 1;

/// The words of the process's command line, without the program's name. Where they can't be read there is
/// a line on the standard error.
pub fn words<R, E>(rt: &R, err: &mut E) -> Option<Vec<String>>
where
    R: Env + AllocGlobal,
    E: Write,
{
    match read_words(rt) {
        Ok(words) => Some(words),
        Err(fault) => {
            tell(rt.alloc(), &fault, Form::Text, err);
            None
        }
    }
}

/// Runs the command line of these words, without the program's name: 0; or 1 with a fault on the standard error, or
/// with a line on the standard output that the journal differs. Where `err` is a terminal it is told how far the
/// work is; where `out` is one a block tree has colours.
pub fn program<R, S, I, O, E>(rt: &R, words: &[S], input: &mut I, out: &mut O, err: &mut E) -> u8
where
    R: Files<File = File> + AllocGlobal + Clock + Threads + Wait + Sync,
    S: AsStr,
    I: Read + Send,
    O: Write + IsTerminal,
    E: Write + IsTerminal,
    ensures { result ≤ 1 }
{
    program_with_gate(rt, words, &Open, input, out, err)
}

/// Says on the standard error that a scenario is waited for, where these words, without the program's name, have it read
/// from a terminal.
pub fn tell_waiting<S: AsStr, E: Write>(words: &[S], is_terminal: bool, err: &mut E) {
    let is_read = words.is_empty() || words.iter().any(|word| word.as_str() == STANDARD);
    if is_terminal && is_read {
        let _ = writeln!(
            err,
            "regchain: waits for a scenario, which ends with Ctrl-D"
        );
    }
}

/// `program`, with this gate round each script that the node's workers run.
pub fn program_with_gate<R, S, I, O, E>(
    rt: &R,
    words: &[S],
    gate: &(dyn Gate + Sync),
    input: &mut I,
    out: &mut O,
    err: &mut E,
) -> u8
where
    R: Files<File = File> + AllocGlobal + Clock + Threads + Wait + Sync,
    S: AsStr,
    I: Read + Send,
    O: Write + IsTerminal,
    E: Write + IsTerminal,
    ensures { result ≤ 1 }
{
    let alloc = rt.alloc();
    match named(alloc, words) {
        Ok(words) => {
            let form = form_of(words.as_slice());
            let outcome = attempt(rt, words.as_slice(), gate, input, out, err);
            status(alloc, outcome, form, err)
        }
        Err(AllocError) => status(alloc, Err(RunFault::Memory), Form::Text, err),
    }
}

/// In which form the faults of a command line are told.
fn form_of(words: &[&str]) -> Form {
    if words.iter().any(|word| *word == "--json") {
        return Form::Json;
    }
    Form::Text
}

/// The status of a run. A fault is told.
fn status<E: Write>(alloc: Global, outcome: Result<u8, RunFault<'_>>, form: Form, err: &mut E) -> u8
    ensures ok { IfOk outcome.entry (λ status. result ≡ status) }
    ensures fault { OnErr outcome.entry (result ≡ 1) }
{
    match outcome {
        Ok(status) => status,
        Err(fault) => {
            tell(alloc, &fault, form, err);
            FAILED
        }
    }
}

/// Writes a fault's line. Where that fails too, the status alone says so.
fn tell<E: Write>(alloc: Global, fault: &RunFault<'_>, form: Form, err: &mut E) {
    let is_text = form != Form::Json || matches!(fault, RunFault::CommandLine(_));
    let _ = match objects::fault(alloc, fault) {
        Ok(object) if !is_text => write!(err, "{object}"),
        _ => write!(err, "{fault}"),
    };
}

/// The program's name, and these words.
fn named<'w, S: AsStr>(alloc: Global, words: &'w [S]) -> Result<Vec<&'w str>, AllocError> {
    let mut all = vec![in alloc; NAME]?;
    for word in words {
        all.push(word.as_str())?;
    }
    Ok(all)
}

fn read_words<R>(rt: &R) -> Result<Vec<String>, RunFault<'static>>
where
    R: Env + AllocGlobal,
{
    match env::args(rt) {
        Ok(words) => Ok(words.skip(1).collect(rt.alloc())?),
        Err(error) => match error.kind() {
            ErrorKind::OutOfMemory => Err(RunFault::Memory),
            _ => Err(RunFault::from(no_text(rt.alloc())?)),
        },
    }
}

/// Does what the words ask for; a text that they ask for is printed.
fn attempt<'w, R, I, O, E>(
    rt: &R,
    words: &'w [&'w str],
    gate: &(dyn Gate + Sync),
    input: &mut I,
    out: &mut O,
    err: &mut E,
) -> Result<u8, RunFault<'w>>
where
    R: Files<File = File> + AllocGlobal + Clock + Threads + Wait + Sync,
    I: Read + Send,
    O: Write + IsTerminal,
    E: Write + IsTerminal,
    ensures { IfOk result (λ status. status ≤ 1) }
{
    match text_asked_for(rt.alloc(), words)? {
        Some(text) => done(print(out, text.as_str())),
        None => act(rt, words, gate, input, out, err),
    }
}

fn act<'w, R, I, O, E>(
    rt: &R,
    words: &'w [&'w str],
    gate: &(dyn Gate + Sync),
    input: &mut I,
    out: &mut O,
    err: &mut E,
) -> Result<u8, RunFault<'w>>
where
    R: Files<File = File> + AllocGlobal + Clock + Threads + Wait + Sync,
    I: Read + Send,
    O: Write + IsTerminal,
    E: Write + IsTerminal,
    ensures { IfOk result (λ status. status ≤ 1) }
{
    match CommandOptions::read(rt.alloc(), words, out.is_terminal())? {
        CommandOptions::Run(options) => done(run(rt, &options, gate, input, out, err)),
        CommandOptions::Audit(options) => tell_audit(rt, &options, out, err),
        CommandOptions::Tree(options) => done(draw_saved(rt, &options, input, out)),
        CommandOptions::Show(options) => done(show(rt, &options, input, out)),
        CommandOptions::Serve(options) => done(serve(rt, &options, gate, input, out, err)),
        CommandOptions::Export(options) => done(export(rt, &options)),
    }
}

/// The status of what has no other than that of a whole output.
fn done(outcome: Result<(), RunFault<'_>>) -> Result<u8, RunFault<'_>>
    ensures { IfOk result (λ status. status ≤ 1) }
{
    match outcome {
        Ok(()) => Ok(DONE),
        Err(fault) => Err(fault),
    }
}

/// Audits, and tells what was found.
fn tell_audit<'w, R, O, E>(
    rt: &R,
    options: &AuditOptions<'w>,
    out: &mut O,
    err: &mut E,
) -> Result<u8, RunFault<'w>>
where
    R: Files<File = File> + AllocGlobal + Clock,
    O: Write,
    E: Write + IsTerminal,
    ensures { IfOk result (λ status. status ≤ 1) }
{
    let Audited { finding, reply } = audit(rt, options, err)?;
    print(out, found(rt.alloc(), finding, options.form)?.as_str())?;
    if let (Finding::Differs(line), Some(reply), true) = (finding, reply, options.is_explained) {
        let text = explained(rt.alloc(), line, reply, options.form)?;
        let _ = err.write_all(text.as_bytes());
    }
    Ok(finding.status())
}

/// The reply of a line that differs, as it is told.
fn explained(alloc: Global, line: usize, reply: Reply, form: Form) -> Result<String, AllocError> {
    match form {
        Form::Text | Form::Tree => format!(in alloc;
            "regchain: line {line}: the definition gives {reply}\n"
        ),
        Form::Json => objects::explanation(alloc, line as u64, reply),
    }
}

/// A finding as it is printed.
fn found(alloc: Global, finding: Finding, form: Form) -> Result<String, AllocError> {
    match (form, finding) {
        (Form::Text | Form::Tree, _) => finding.to_string(alloc),
        (Form::Json, Finding::Agrees) => objects::agreement(alloc),
        (Form::Json, Finding::Differs(line)) => objects::difference(alloc, line as u64),
    }
}
