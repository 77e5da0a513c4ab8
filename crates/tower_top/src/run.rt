//! The command `run`.
ghost use Rattle.std.specs.Prelude.{◌≡◌, ◌≤◌, IfSome, option_map};
ghost use Rattle.tower_reader.specs.Words.{number_in};
ghost use Rattle.tower_report.specs.RunText.{IsRule};
ghost use Rattle.tower_top.specs.Calls.{shelf_change, sink_change};
ghost use Rattle.tower_top.specs.Commands.{asked_of};
ghost use Rattle.tower_top.specs.Endings.{Ends};
ghost use Rattle.tower_top.specs.Run as command;
ghost use Rattle.tower_words.specs.Words.{given_of};

use crate::choices::read_given_choices;
use crate::events::read_events;
use crate::file::read_file;
use crate::status::Status;
use crate::usage::usage;
use std::alloc::Global;
use task_build::build;
use tower_io::{Shelf, Sink};
use tower_report::Rule;
use tower_run::{Ran, run_program};
use tower_syntax::spelling::natural_within;
use tower_words::{Given, Options};

/// The options that it may have.
const OPTIONS: Options = Options {
    record_name: true,
    choices_name: true,
    steps: true,
    policy: true,
    cores: true,
    ..Options::NONE
};

/// The number of which a word is the text, up to 1,000,000,000.
fn number_of(text: &str) -> Option<u64>
    ensures value { result ≡ number_in 0 1000000000 text.now }
    ensures few { IfSome result (λ n. n ≤ 1000000000) }
{
    natural_within(0, 1_000_000_000, text.as_bytes())
}

/// The limit of instructions: the value of `--steps`, or 10,000,000.
fn limit_of(steps: Option<&str>) -> Option<u64>
    ensures value { result ≡ command.limit_of (option_map (λ s. s.now) steps.entry) }
    ensures few { IfSome result (λ n. n ≤ 1000000000) }
{
    match steps {
        None => Some(10_000_000),
        Some(text) => number_of(text),
    }
}

/// The rule that `--policy` names.
fn policy_of(text: &str) -> Option<Rule>
    ensures rule { result ≡ command.policy_of text.now }
    ensures fine { IfSome result IsRule }
{
    match text {
        "fixed" => Some(Rule::Fixed),
        "ceiling" => Some(Rule::Ceiling),
        _ => None,
    }
}

/// The rule of so many cores, as `--cores` says.
fn cores_of(text: &str) -> Option<Rule>
    ensures rule { result ≡ command.cores_of text.now }
    ensures fine { IfSome result IsRule }
{
    match natural_within(1, 64, text.as_bytes()) {
        Some(cores) => Some(Rule::Cores(cores as u32)),
        None => None,
    }
}

/// The rule, if there is one: not both options may be given.
fn rule_of(policy: Option<&str>, cores: Option<&str>) -> Option<Option<Rule>>
    ensures rule { result ≡ command.rule_of (option_map (λ s. s.now) policy.entry) (option_map (λ s. s.now) cores.entry) }
    ensures fine { IfSome result (λ r. IfSome r IsRule) }
{
    match (policy, cores) {
        (None, None) => Some(None),
        (Some(policy), None) => Some(Some(policy_of(policy)?)),
        (None, Some(cores)) => Some(Some(cores_of(cores)?)),
        (Some(_), Some(_)) => None,
    }
}

/// The status of a call whose run ended so.
fn status_of(ran: Ran) -> Status
    ensures { result ≡ command.status_of_ran ran }
{
    match ran {
        Ran::Done => Status::Done,
        Ran::Stopped => Status::Stopped,
        Ran::WriteFault => Status::WriteFault,
        Ran::NoMemory => Status::NoMemory,
    }
}

/// Runs the program of FILE over the record, with the choices if there are any, by the rule for turns that is given, and
/// writes the text of the run.
pub fn run<F: Shelf, O: Sink, E: Sink>(
    alloc: Global,
    given: &Given,
    shelf: &mut F,
    out: &mut O,
    err: &mut E,
) -> Status
    ensures { Ends (asked_of command.run (given_of given.now)) (record {
      shelf = shelf_change F.held F.blamed F.faults shelf.old shelf.new;
      out = sink_change O.written O.faults out.old out.new;
      err = sink_change E.written E.faults err.old err.new;
    }) result }
{
    if !given.has_only(OPTIONS) {
        return usage(err);
    }
    let record_name = match given.record_name {
        Some(name) => name,
        None => return usage(err),
    };
    let limit = match limit_of(given.steps) {
        Some(limit) => limit,
        None => return usage(err),
    };
    let rule = match rule_of(given.policy, given.cores) {
        Some(rule) => rule,
        None => return usage(err),
    };
    let file = match read_file(alloc, given.file, shelf, err) {
        Ok(file) => file,
        Err(status) => return status,
    };
    let events = match read_events(alloc, &file, record_name, shelf, err) {
        Ok(events) => events,
        Err(status) => return status,
    };
    let choices = match read_given_choices(alloc, given.choices_name, shelf, err) {
        Ok(choices) => choices,
        Err(status) => return status,
    };
    let program = match build(alloc, &file) {
        Ok(program) => program,
        Err(_) => return Status::NoMemory,
    };
    status_of(run_program(
        alloc,
        &file,
        program,
        events,
        choices.as_slice(),
        limit,
        out,
        rule,
    ))
}
