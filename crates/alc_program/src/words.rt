ghost use Rattle.std.specs.Prelude.{◌≡◌, List, ℕ, IfSome, IfNone, map, string_bytes};
ghost use Rattle.std.specs.List.{list_all};
ghost use Rattle.std.specs.Char.{is_ascii_digit};
ghost use Rattle.alc_program.specs.Verb.{request_of};
ghost use Rattle.host_threads.specs.Turns.{is_schedule};
ghost use Rattle.alc_program.specs.Words.{Request, Asks};
ghost use Rattle.alc_program.specs.Words.Request.{steps, inspect};

/// The most digits of a schedule.
const MAX_SCHEDULE: usize = 64;

/// What the words ask for: a verb, with the words that follow it.
#[derive(Clone, Copy)]
pub enum Verb<'a> {
    /// `steps F N`: a run of the script of the file F, in the turns of the schedule N.
    Steps { file: &'a str, schedule: &'a [u8] },
    /// `inspect F`: the inspection of the file F.
    Inspect { file: &'a str },
}

/// What the words ask for, if they ask for anything that the program does.
pub fn verb_of(words: &[String]) -> Option<Verb<'_>>
    ensures asked { IfSome result (λ verb. Asks (map string_bytes words.now) (request_of verb)) }
    ensures none { IfNone result ((request : Request) →
        ¬ Asks (map string_bytes words.now) request) }
{
    if let Some(verb) = steps_of(words) {
        return Some(verb);
    }
    inspect_of(words)
}

/// What the words ask for, if they are `steps F N`.
fn steps_of(words: &[String]) -> Option<Verb<'_>>
    ensures asked { IfSome result (λ verb. Asks (map string_bytes words.now) (request_of verb)) }
    ensures none { IfNone result ((file schedule : List ℕ) →
        ¬ Asks (map string_bytes words.now) (steps file schedule)) }
{
    let [verb, file, schedule] = words else {
        return None;
    };
    if verb.as_str() == "steps" && is_schedule(schedule.as_bytes()) {
        return Some(Verb::Steps {
            file: file.as_str(),
            schedule: schedule.as_bytes(),
        });
    }
    None
}

/// What the words ask for, if they are `inspect F`.
fn inspect_of(words: &[String]) -> Option<Verb<'_>>
    ensures asked { IfSome result (λ verb. Asks (map string_bytes words.now) (request_of verb)) }
    ensures none { IfNone result ((file : List ℕ) →
        ¬ Asks (map string_bytes words.now) (inspect file)) }
{
    let [verb, file] = words else {
        return None;
    };
    if verb.as_str() == "inspect" {
        return Some(Verb::Inspect {
            file: file.as_str(),
        });
    }
    None
}

/// Whether the bytes are 1 to 64 ASCII digits.
fn is_schedule(bytes: &[u8]) -> bool
    ensures { result ≡ is_schedule bytes.now }
{
    1 <= bytes.len() && bytes.len() <= MAX_SCHEDULE && are_digits(bytes)
}

fn are_digits(bytes: &[u8]) -> bool
    ensures { result ≡ list_all is_ascii_digit bytes.now }
{
    bytes.iter().all(|byte| byte.is_ascii_digit())
}
