//! The first line of a script that is not run yet.
ghost use Rattle.std.specs.Prelude.{ℕ, ◌≡◌, ◌++◌, List, [], ◌∷◌, if◌then◌else◌};
ghost use Rattle.std.specs.List.{flat_map, list_any};
ghost use Rattle.command_flow.specs.Events.{is_built};
ghost use Rattle.alc_program.specs.Unbuilt.{IsFirstOf, bars, bars_line, begins, collects};
ghost use Rattle.alc_program.specs.Unbuilt.{is_collecting, is_run, lines_not_run, unbuilt_lines};

use cli_words::Listed;
use host_script::{Command, CommandLine, Script};

/// The first line that is not run; `None` exactly where all are.
pub(crate) fn first_unbuilt(script: &Script) -> Option<u32>
    ensures { IsFirstOf result (unbuilt_lines script.now) }
{
    let threads = script.threads.items();
    let mut least = None;
    for lines in threads {
        least = least_of_thread(threads, lines.items(), least);
    }
    least
}

/// The least of the lines of a thread that are not run, and of lines before them.
fn least_of_thread(
    threads: &[Listed<CommandLine>],
    lines: &[CommandLine],
    before: Option<u32>,
) -> Option<u32>
    ensures { (numbers : List ℕ) → IsFirstOf before numbers →
        IsFirstOf result (numbers ++ lines_not_run (flat_map (λ own. own) threads.now) lines.now) }
{
    let mut least = before;
    for line in lines {
        least = lesser_unless(is_run(threads, line), least, line.line);
    }
    least
}

/// The lesser of two lines, or the first where a line is run.
fn lesser_unless(runs: bool, least: Option<u32>, line: u32) -> Option<u32>
    ensures { (numbers : List ℕ) → IsFirstOf least numbers →
        IsFirstOf result (numbers ++ (if runs then [] else line ∷ [])) }
{
    match least {
        _ if runs => least,
        Some(least) if least <= line => Some(least),
        _ => Some(line),
    }
}

/// Whether the line is run, among the lines of all threads.
fn is_run(threads: &[Listed<CommandLine>], line: &CommandLine) -> bool
    ensures { result ≡ is_run (flat_map (λ own. own) threads.now) line.now }
{
    is_built(&line.command) && !is_barred(threads, line)
}

/// Whether a line of some thread bars the line.
fn is_barred(threads: &[Listed<CommandLine>], line: &CommandLine) -> bool
    ensures { result ≡ list_any (list_any (λ other. bars_line other line.now)) threads.now }
{
    threads.iter().any(|lines| bars_in(lines.items(), line))
}

/// Whether one of these lines bars the line.
fn bars_in(lines: &[CommandLine], line: &CommandLine) -> bool
    ensures { result ≡ list_any (λ other. bars_line other line.now) lines.now }
{
    lines.iter().any(|other| bars_line(other, line))
}

/// Whether a line bars another: it stands no lower, and its command bars the other's.
fn bars_line(other: &CommandLine, line: &CommandLine) -> bool
    ensures { result ≡ bars_line other.now line.now }
{
    other.line <= line.line && bars(&other.command, &line.command)
}

/// Whether one command bars another that stands below it: a script that collects contexts begins no
/// operation yet, and the other way round.
fn bars(command: &Command, other: &Command) -> bool
    ensures { result ≡ bars command.now other.now }
{
    begins(command) && collects(other) || collects(command) && begins(other)
}

/// Whether the command begins an operation that is run.
fn begins(command: &Command) -> bool
    ensures { result ≡ begins command.now }
{
    matches!(command, Command::Load { .. } | Command::Bind { .. })
}

fn collects(command: &Command) -> bool
    ensures { result ≡ collects command.now }
{
    matches!(command, Command::Collect)
}

fn is_built(command: &Command) -> bool
    ensures { result ≡ is_built command.now }
{
    match command {
        Command::New { .. } | Command::On { .. } | Command::Resolving { .. } => true,
        Command::Resolve { .. } | Command::Load { .. } | Command::Bind { .. } => true,
        Command::Weak { .. } | Command::Alive { .. } => true,
        Command::Unload { .. } | Command::Collect => true,
        Command::Call { .. } | Command::Hold { .. } => false,
        Command::Invoke { .. } | Command::DropHandle { .. } => false,
    }
}

/// Whether the script collects contexts.
pub(crate) fn is_collecting(script: &Script) -> bool
    ensures { result ≡ is_collecting script.now }
{
    some_collects(script.threads.items())
}

/// Whether a line of some thread collects contexts.
fn some_collects(threads: &[Listed<CommandLine>]) -> bool
    ensures { result ≡ list_any (list_any (λ line. collects line.command)) threads.now }
{
    threads.iter().any(|lines| collects_in(lines.items()))
}

fn collects_in(lines: &[CommandLine]) -> bool
    ensures { result ≡ list_any (λ line. collects line.command) lines.now }
{
    lines.iter().any(|line| collects(&line.command))
}
