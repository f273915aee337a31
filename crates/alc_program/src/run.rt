//! The run of a script over the host, its threads in turn.
ghost use Rattle.std.specs.Prelude.{◌≡◌, ◌≤◌, [], true, IfOk, All};
ghost use Rattle.std.specs.Prelude.{if◌then◌else◌, length, map, sum_by};
ghost use Rattle.std.specs.Arc.{arc_value};
ghost use Rattle.std.specs.List.{AllByRecursion};
ghost use Rattle.host_core.specs.Allowed.{makes_context_by, makes_handle_by, sets_rule_by};
ghost use Rattle.host_core.specs.Bounds.{bounds_of};
ghost use Rattle.host_script.specs.declared.command.CommandLine.{CommandLine};
ghost use Rattle.host_script.specs.Laws.{IsSmall};
ghost use Rattle.host_script.specs.Worded.{AreWorded};
ghost use Rattle.host_threads.specs.Turns.{IsSchedule};
ghost use Rattle.command_flow.specs.Events.{is_built};
ghost use Rattle.command_flow.specs.Flow.{HasImage, fresh, most_events};
ghost use Rattle.alc_program.specs.Good.{RunsScript, commands_of, plan_of};
ghost use Rattle.alc_program.specs.Shares.{asks_for, share_for};
ghost use Rattle.alc_program.specs.Unbuilt.{unbuilt_lines};

use crate::files::files_of;
use crate::unbuilt::is_collecting;
use bind_flow::{ImageCode, Images};
use cli_words::Listed;
use command_flow::ThreadFlow;
use host_core::{Bounds, HostCore, Share};
use host_events::{End, Journal};
use host_script::{Command, CommandLine, Script};
use host_threads::run_by_seed;
use std::alloc::{AllocError, Global};
use std::sync::Arc;

/// The most entries of an operation: its first, its last and 1,000 within.
const MOST_OF_OPERATION: u32 = 1_002;

/// What a run of a script leaves.
#[derive(Drop)]
pub struct Run {
    /// How each thread's commands ended.
    pub ends: Vec<End>,
    pub journal: Journal,
}

/// Runs a script to its end over its images, in the turns of the schedule.
pub fn run_script(
    alloc: Global,
    script: Script,
    images: &Arc<Images>,
    schedule: &[u8],
) -> Result<Run, AllocError>
    requires small { IsSmall script }
    requires built { unbuilt_lines script ≡ [] }
    requires worded { AllByRecursion (AreWorded (length script.images)) script.threads }
    requires images { length (arc_value images.now) ≡ length script.images }
    requires schedule { IsSchedule schedule.now }
    ensures { IfOk result (λ run.
        RunsScript script (arc_value images.now) schedule.now run.journal run.ends.items) }
{
    let app = files_of(alloc, &script, images)?;
    let collects = is_collecting(&script);
    let threads = script.threads.into_vec();
    let bounds = bounds_for(alloc, threads.as_slice())?;
    let host: HostCore<ImageCode> = HostCore::open(alloc, bounds, app, collects)?;
    let flows = flows_for(alloc, threads, images)?;
    let (host, ends) = run_by_seed(alloc, host, flows, schedule)?;
    Ok(Run {
        ends,
        journal: host.into_journal(),
    })
}

/// The bounds of a run: those of the shares of its threads.
fn bounds_for(alloc: Global, threads: &[Listed<CommandLine>]) -> Result<Bounds, AllocError>
    requires some { 1 ≤ length threads.now }
    requires few { length threads.now ≤ 8 }
    requires commands { sum_by length threads.now ≤ 1024 }
    ensures { IfOk result (λ bounds. bounds ≡ bounds_of (map share_for threads.now)) }
{
    let mut shares = Vec::with_capacity(alloc, threads.len())?;
    for commands in threads {
        shares.push(share_of(commands.items()))?;
    }
    Bounds::of(alloc, shares)
}

/// What a thread of these commands may make.
fn share_of(commands: &[CommandLine]) -> Share
    requires { length commands.now ≤ 1024 }
    ensures { result ≡ share_for commands.now }
{
    let mut events = 0;
    let mut contexts = 0;
    let mut handles = 0;
    let mut rules = 0;
    for line in commands {
        events += most_events(&line.command);
        contexts += one_if(makes_context(&line.command));
        handles += one_if(makes_handle(&line.command));
        rules += one_if(sets_rule(&line.command));
    }
    Share {
        events,
        contexts,
        handles,
        rules,
    }
}

/// The most entries that a command makes.
#[tactic(auto, unfolding(command_flow::specs::Run::most_within))]
fn most_events(command: &Command) -> u32
    ensures { result ≡ most_events command.now }
{
    match command {
        Command::Load { .. } | Command::Bind { .. } | Command::Call { .. } => MOST_OF_OPERATION,
        Command::Hold { .. } | Command::Invoke { .. } => MOST_OF_OPERATION,
        _ => 1,
    }
}

fn one_if(counts: bool) -> u32
    ensures { result ≡ if counts then 1 else 0 }
{
    if counts { 1 } else { 0 }
}

fn makes_context(command: &Command) -> bool
    ensures { result ≡ asks_for makes_context_by command.now }
{
    matches!(command, Command::New { .. })
}

fn makes_handle(command: &Command) -> bool
    ensures { result ≡ asks_for makes_handle_by command.now }
{
    matches!(command, Command::Weak { .. })
}

fn sets_rule(command: &Command) -> bool
    ensures { result ≡ asks_for sets_rule_by command.now }
{
    matches!(
        command,
        Command::On { .. } | Command::Resolving { .. } | Command::Resolve { .. }
    )
}

/// The flows of the threads.
fn flows_for(
    alloc: Global,
    threads: Vec<Listed<CommandLine>>,
    images: &Arc<Images>,
) -> Result<Vec<ThreadFlow>, AllocError>
    requires few { sum_by length threads.items ≤ 1024 }
    requires built { All (λ lines. All (λ command. is_built command ≡ true) (commands_of lines))
        threads.items }
    requires images { All (λ lines. All (HasImage (arc_value images.now)) (commands_of lines))
        threads.items }
    ensures { IfOk result (λ flows. flows.items
        ≡ map (λ lines. fresh (plan_of (arc_value images.now) lines)) threads.items) }
{
    let mut flows = Vec::with_capacity(alloc, threads.len())?;
    for lines in threads {
        let commands = commands_of(alloc, lines)?;
        flows.push(ThreadFlow::new(alloc, commands, Arc::try_clone(images)?)?)?;
    }
    Ok(flows)
}

/// The commands, without the lines on which they stand.
fn commands_of(alloc: Global, lines: Listed<CommandLine>) -> Result<Vec<Command>, AllocError>
    ensures { IfOk result (λ commands. commands.items ≡ commands_of lines) }
{
    let mut commands = Vec::with_capacity(alloc, lines.items().len())?;
    for line in lines.into_vec() {
        commands.push(line.command)?;
    }
    Ok(commands)
}
