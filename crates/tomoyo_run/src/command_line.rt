//! What the words of the command line ask for.
ghost use Rattle.std.specs.Prelude.{◌≡◌, false, map, string_bytes};
ghost use Rattle.tm_call.specs.Words.{read_words, run_words};
ghost use Rattle.tomoyo_run.specs.Words.{asked_by, asked_by_two, help_of, is_one_of, wants_threads, what_is_asked};

use std::alloc::{AllocError, Global};
use std::env::{Env, FillError};

/// What `--version` prints.
pub const VERSION: &str = "tomoyo_run 0.2.0\n";

/// What `--help` prints.
pub const HELP: &str = "\
usage: tomoyo_run [-C DIR] print
       tomoyo_run [-C DIR] step
       tomoyo_run [-C DIR] learn
       tomoyo_run [-C DIR] replay WORKERS [steal | rerun]
       tomoyo_run [-C DIR] gen SEED SIZE
       tomoyo_run [-C DIR] verify
       tomoyo_run [-C DIR] sort
       tomoyo_run help [COMMAND] | COMMAND --help | -h | --help
       tomoyo_run -V | --version

Works on the files of the folder DIR, or of the current folder.

  print  loads the policy and stores it in its normal form
  step   plays the trace under the policy, learns where a profile says so, and
         stores the run and the policy as it stands afterwards
  learn  does what step does, and plays the trace again with what was learned,
         enforcing
  replay does what step or, with rerun, learn does, on so many threads
  gen    generates the policy files and a trace of SIZE trees, and plays it
  verify tells whether a stored run is one that the other files allow
  sort   sorts the records of an audit file into parts, by rules

`tomoyo_run COMMAND --help` tells what a command reads, stores and prints.

Exit statuses:
   0  done
   1  bad words; `bad words at P` counts the words of the command from 0
   2  a file can't be read
   3  a file is missing
   4  a file is too long: it has more than 16,777,216 bytes
   5  a line of the policy is refused
   6  a domain has no profile
   7  a line of the trace is refused
   8  a line of a script is refused
   9  there is too much of something
  10  a file or standard output can't be written
  11  out of memory
  13  a line of a run can't stand there
  14  a line of a sorter file is refused
  15  a line of an audit file can't stand there
";

/// What `print --help` prints.
pub const PRINT_HELP: &str = "\
usage: tomoyo_run [-C DIR] print

Loads the policy and stores it in its normal form.

Reads    profile and domain_policy, which have to be there; exception_policy
         and manager, which count as empty where they are missing
Stores   profile.new, exception_policy.new, domain_policy.new, manager.new
Prints   domains N entries K: the domains of the policy and their entries

Exit statuses: 0 done; 2 a file can't be read, 3 is missing, 4 is too long;
5 a line is refused, `FILE line N: REPLY` says why; 6 a domain has no profile;
10 a file or standard output can't be written; 11 out of memory.
";

/// What `step --help` prints.
pub const STEP_HELP: &str = "\
usage: tomoyo_run [-C DIR] step

Plays the trace under the policy by the schedule, and learns where a profile
says so.

Reads    profile, domain_policy and trace, which have to be there;
         exception_policy, manager, edits, answers and schedule, which count
         as empty where they are missing
Stores   run, audit, profile.new, exception_policy.new, domain_policy.new,
         manager.new: every decision, the audit texts, and the policy as it
         stands afterwards
Prints   requests R granted G denied D learned L steps S domains N clean YESNO
         plain YESNO

Exit statuses: 0 done, also where requests are denied; 2 a file can't be read,
3 is missing, 4 is too long; 5 a line of the policy is refused; 6 a domain has
no profile; 7 a line of the trace is refused; 8 a line of edits, answers or
schedule is refused; 9 too many records, trees, edits, editors or turns;
10 a file or standard output can't be written; 11 out of memory.
";

/// What `learn --help` prints.
pub const LEARN_HELP: &str = "\
usage: tomoyo_run [-C DIR] learn

Does what step does, and plays the trace again, without edits and without a
supervisor, under the policy as it stands then, with each mode learning of its
profiles made enforcing.

Reads    the files that step reads
Stores   the files that step stores, and then run2 and audit2 of the second
         play
Prints   the line of step for the first play, and
         rerun requests R granted G denied D steps S same YESNO
         for the second, or `rerun none` where a process has no domain to start
         in: then run2 and audit2 are left as they were

Where the first line ends with `clean yes plain yes`, the second play grants
every request, learns nothing, and has every process in the same domain.

Exit statuses: those of step.
";

/// What `replay --help` prints.
pub const REPLAY_HELP: &str = "\
usage: tomoyo_run [-C DIR] replay WORKERS [steal | rerun]

Plays the trace under the policy on WORKERS threads, beside one for each editor
and one for the supervisor, and learns where a profile says so. WORKERS is 1 to
16, decimal without leading zeros. The threads come in any order, so two calls
may store different runs; each is one that the policy, the trace, the edits and
the answers allow.

Reads    the files that step reads, but for schedule
Stores   the files that step stores; with rerun, the files that learn stores
Prints   the line of step; with rerun, the lines of learn

With steal the threads share the processes of the trees, each from its first
request on, and not only the trees. With rerun it plays the trace again as
learn does, on threads too.

Exit statuses: those of step; 1 bad words.
";

/// What `gen --help` prints.
pub const GEN_HELP: &str = "\
usage: tomoyo_run [-C DIR] gen SEED SIZE

Generates the policy files and a trace of SIZE trees of processes, stores them,
and does what step does on them, without edits, answers and schedule. The same
words always make the same files. SEED is a number below 2^64, SIZE is 1 to
4096, both decimal without leading zeros. From a SIZE of about 3,900 on the run
has more than 16,777,216 bytes, and is too long for verify.

Reads    nothing
Stores   profile, exception_policy, domain_policy, manager and trace, over
         those that are there, and then what step stores
Prints   the line of step

Exit statuses: 0 done; 1 bad words; 10 a file or standard output can't be
written; 11 out of memory.
";

/// What `verify --help` prints.
pub const VERIFY_HELP: &str = "\
usage: tomoyo_run [-C DIR] verify

Tells whether the run that is stored in DIR is one that the policy, the trace,
the edits and the answers allow, in whatever order its steps came. The run may
come from step, learn, gen or replay, or from anywhere else.

Reads    the files that step reads, but for schedule, and run, which has to be
         there; a file of more than 16,777,216 bytes is too long, as the run of
         a long trace may be
Stores   nothing
Prints   legal yes, or legal no CLAUSE PLACE: the first clause that doesn't
         hold, i to viii, and the number of the first take or step that breaks
         it, or 0 where only steps are missing
           i     each do line has its take, in order
           ii    a take's versions rise from what its process has seen
           iii   each look shows what the policy's lines of its version give
           iv    a take asks for just the steps that its looks ask for
           v     each step has its place and its reply
           vi    the supervisor answers as answers says
           vii   a take hears what the supervisor has answered
           viii  a take ends as its last look and its steps say

Exit statuses: 0 done, whatever is said of the run; 2 a file can't be read, 3 is
missing, 4 is too long; 5 to 9 as step has them; 10 standard output can't be
written; 11 out of memory; 13 a line of run can't stand there.
";

/// What `sort --help` prints.
pub const SORT_HELP: &str = "\
usage: tomoyo_run [-C DIR] sort

Sorts the records of an audit file, such as step stores: each goes to the part
that the first rule that accepts it names, and to part 0 where none does.

Reads    audit and sorter, which have to be there; a file of more than
         16,777,216 bytes is too long, as the audit of a long trace may be
Stores   audit.0, and audit.N for each N from 1 to 15 that a rule names, by
         rising number; a part that takes no record is stored empty
Prints   records R, and for each part that is stored a line `sent N K` with the
         number of its records

A line of sorter is `rule N : HEADER : DOMAIN : LINE`: each list is `any` or
patterns, and those of HEADER each match some word of a record's first line.

Exit statuses: 0 done; 2 a file can't be read, 3 is missing, 4 is too long;
9 more than 256 rules; 10 a file or standard output can't be written; 11 out of
memory; 14 a line of sorter is refused; 15 a line of audit can't stand there.
";

// The longest word that is looked at; no form of a command has a longer one.
const LONGEST: usize = 256;

// The longest name of a folder.
const LONGEST_FOLDER: usize = 4096;

/// What a help text is about.
#[derive(Clone, Copy)]
pub enum Topic {
    /// All of the program.
    All,
    /// One command.
    Print,
    Step,
    Learn,
    Replay,
    Gen,
    Verify,
    Sort,
}

/// The help text about a topic.
pub fn help_text(topic: Topic) -> &'static str {
    match topic {
        Topic::All => HELP,
        Topic::Print => PRINT_HELP,
        Topic::Step => STEP_HELP,
        Topic::Learn => LEARN_HELP,
        Topic::Replay => REPLAY_HELP,
        Topic::Gen => GEN_HELP,
        Topic::Verify => VERIFY_HELP,
        Topic::Sort => SORT_HELP,
    }
}

/// What the words of a command line ask for.
#[derive(Clone, Copy)]
pub enum Asked {
    /// A help text: by `help`, `-h` or `--help` all of it, by `help COMMAND`, `COMMAND -h` or
    /// `COMMAND --help` one command's.
    Help(Topic),
    /// The version, by `-V` or `--version`.
    Version,
    /// A command, or words of no form, as no words are.
    Command,
}

/// The folder that a command works on, and its words.
#[derive(Drop)]
pub struct CommandLine {
    pub folder: String,
    pub words: Vec<String>,
}

// A word of the command line, None past the last. One that isn't UTF-8 or too long stands as a word
// of no form.
fn word_at<E: Env>(env: &E, alloc: Global, place: usize) -> Result<Option<String>, AllocError> {
    let mut buffer = [0u8; LONGEST];
    match env.arg(place, &mut buffer) {
        Ok(length) => Ok(Some(String::from_utf8_lossy(alloc, &buffer[..length])?)),
        Err(FillError::TooLong) => Ok(Some(String::from_str(alloc, "\u{fffd}")?)),
        Err(FillError::NotPresent) => Ok(None),
    }
}

// The words from this place on.
fn words_from<E: Env>(env: &E, alloc: Global, first: usize) -> Result<Vec<String>, AllocError> {
    let mut words = Vec::new(alloc);
    for place in first..usize::MAX {
        match word_at(env, alloc, place)? {
            Some(word) => words.push(word)?,
            None => break,
        }
    }
    Ok(words)
}

// The folder that the word at this place names. One whose name is too long or isn't UTF-8 has the
// name of no folder.
fn folder_at<E: Env>(env: &E, alloc: Global, place: usize) -> Result<Option<String>, AllocError> {
    let mut buffer = [0u8; LONGEST_FOLDER];
    match env.arg(place, &mut buffer) {
        Ok(length) => Ok(Some(String::from_utf8_lossy(alloc, &buffer[..length])?)),
        Err(FillError::TooLong) => Ok(Some(String::from_str(alloc, "\u{fffd}")?)),
        Err(FillError::NotPresent) => Ok(None),
    }
}

// Whether the word at this place is `-C`.
fn is_folder_option<E: Env>(env: &E, alloc: Global, place: usize) -> Result<bool, AllocError> {
    match word_at(env, alloc, place)? {
        Some(word) => Ok(word.as_str() == "-C"),
        None => Ok(false),
    }
}

/// Reads the command line after the program's name: `-C DIR` in front names the folder, which is
/// the current one without it.
/// Errors: want of memory.
pub fn read_line<E: Env>(env: &E, alloc: Global) -> Result<CommandLine, AllocError> {
    if is_folder_option(env, alloc, 1)? {
        if let Some(folder) = folder_at(env, alloc, 2)? {
            let words = words_from(env, alloc, 3)?;
            return Ok(CommandLine { folder, words });
        }
    }
    let folder = String::from_str(alloc, ".")?;
    let words = words_from(env, alloc, 1)?;
    Ok(CommandLine { folder, words })
}

// Whether a word is one of these.
fn is_one_of(word: &String, others: &[&str]) -> bool
    ensures { result ≡ is_one_of (string_bytes word.now) (map (λ other. other.now) others.now) }
{
    for other in others {
        if word.as_str() == *other {
            return true;
        }
    }
    false
}

// What one word alone asks for.
fn asked_by(word: &String) -> Asked
    ensures { result ≡ asked_by (string_bytes word.now) }
{
    if is_one_of(word, &["help", "-h", "--help"]) {
        Asked::Help(Topic::All)
    } else if is_one_of(word, &["-V", "--version"]) {
        Asked::Version
    } else {
        Asked::Command
    }
}

// The help of the command that a word names.
fn help_of(word: &String) -> Asked
    ensures { result ≡ help_of (string_bytes word.now) }
{
    if is_one_of(word, &["print"]) {
        Asked::Help(Topic::Print)
    } else if is_one_of(word, &["step"]) {
        Asked::Help(Topic::Step)
    } else if is_one_of(word, &["learn"]) {
        Asked::Help(Topic::Learn)
    } else if is_one_of(word, &["replay"]) {
        Asked::Help(Topic::Replay)
    } else if is_one_of(word, &["gen"]) {
        Asked::Help(Topic::Gen)
    } else if is_one_of(word, &["verify"]) {
        Asked::Help(Topic::Verify)
    } else if is_one_of(word, &["sort"]) {
        Asked::Help(Topic::Sort)
    } else {
        Asked::Command
    }
}

// What two words ask for.
fn asked_by_two(word: &String, next: &String) -> Asked
    ensures { result ≡ asked_by_two (string_bytes word.now) (string_bytes next.now) }
{
    if is_one_of(next, &["-h", "--help"]) {
        help_of(word)
    } else if is_one_of(word, &["help"]) {
        help_of(next)
    } else {
        Asked::Command
    }
}

/// What the words of a command line ask for.
pub fn what_is_asked(words: &[String]) -> Asked
    ensures { result ≡ what_is_asked (map string_bytes words.now) }
{
    match words {
        [word] => asked_by(word),
        [word, next] => asked_by_two(word, next),
        [] | [_, _, _, ..] => Asked::Command,
    }
}

/// Whether the words name a command that plays on threads. The words of every other one ask
/// `run_alone` for what they ask `run` for.
pub fn wants_threads(words: &[String]) -> bool
    ensures named { result ≡ wants_threads (map string_bytes words.now) }
    ensures alone { result ≡ false
        → run_words (map string_bytes words.now) ≡ read_words (map string_bytes words.now) }
{
    match words {
        [word, ..] => word.as_str() == "replay",
        [] => false,
    }
}

// A command line of these words after the program's name.
#[cfg(test)]
#[derive(Drop)]
struct Line {
    words: Vec<Vec<u8>>,
}

#[cfg(test)]
impl Env for Line {
    fn arg(&self, i: usize, buf: &mut [u8]) -> Result<usize, FillError> {
        let word: &[u8] = match i {
            0 => b"tomoyo_run",
            _ => match self.words.as_slice().get(i - 1) {
                Some(word) => word.as_slice(),
                None => return Err(FillError::NotPresent),
            },
        };
        if word.len() > buf.len() {
            return Err(FillError::TooLong);
        }
        buf[..word.len()].copy_from_slice(word);
        Ok(word.len())
    }

    fn var(&self, _name: &str, _buf: &mut [u8]) -> Result<usize, FillError> {
        Err(FillError::NotPresent)
    }

    fn var_at(&self, _i: usize, _buf: &mut [u8]) -> Result<usize, FillError> {
        Err(FillError::NotPresent)
    }
}

// The command line of these words.
#[cfg(test)]
fn line_of(alloc: Global, words: &[&[u8]]) -> Result<CommandLine, std::test::Fail> {
    let mut copied = Vec::new(alloc);
    for word in words {
        copied.push(Vec::from_slice(alloc, *word)?)?;
    }
    Ok(read_line(&Line { words: copied }, alloc)?)
}

#[test]
fn a_command_line_has_its_words_and_its_folder(rt: HostRuntime) -> Result<(), std::test::Fail> {
    let alloc = rt.alloc();
    for (length, wanted) in [(256, 256), (257, 3), (60_000, 3)] {
        let long = vec![in alloc; b'x'; length]?;
        let read = line_of(alloc, &[b"step", &long])?;
        assert_eq!(rt; read.words.len(), 2);
        assert!(rt; read.words[0].as_str() == "step");
        assert_eq!(rt; read.words[1].len(), wanted);
        assert!(rt; read.folder.as_str() == ".");
    }
    let read = line_of(alloc, &[b"-C", b"/srv/policy", b"step"])?;
    assert!(rt; read.folder.as_str() == "/srv/policy");
    assert_eq!(rt; read.words.len(), 1);
    let long = vec![in alloc; b'x'; 5_000]?;
    let read = line_of(alloc, &[b"-C", &long, b"step"])?;
    assert!(rt; read.folder.as_str() == "\u{fffd}");
    assert_eq!(rt; read.words.len(), 1);
    let read = line_of(alloc, &[b"-C"])?;
    assert!(rt; read.folder.as_str() == ".");
    assert_eq!(rt; read.words.len(), 1);
    assert!(rt; matches!(what_is_asked(&read.words), Asked::Command));
    Ok(())
}

// The letter of what is asked.
#[cfg(test)]
fn letter_of(asked: Asked) -> char {
    match asked {
        Asked::Help(Topic::All) => 'a',
        Asked::Help(Topic::Print) => 'p',
        Asked::Help(Topic::Step) => 's',
        Asked::Help(Topic::Learn) => 'l',
        Asked::Help(Topic::Replay) => 'r',
        Asked::Help(Topic::Gen) => 'g',
        Asked::Help(Topic::Verify) => 'y',
        Asked::Help(Topic::Sort) => 'o',
        Asked::Version => 'v',
        Asked::Command => 'c',
    }
}

#[test]
fn one_or_two_words_ask_for_help(rt: HostRuntime) -> Result<(), std::test::Fail> {
    let alloc = rt.alloc();
    for (words, wanted) in [
        (&["-h"][..], 'a'),
        (&["help"], 'a'),
        (&["--help"], 'a'),
        (&["-V"], 'v'),
        (&["--version"], 'v'),
        (&["-v"], 'c'),
        (&["print", "--help"], 'p'),
        (&["step", "--help"], 's'),
        (&["learn", "-h"], 'l'),
        (&["replay", "--help"], 'r'),
        (&["help", "replay"], 'r'),
        (&["replay", "2", "--help"], 'c'),
        (&["gen", "--help"], 'g'),
        (&["help", "gen"], 'g'),
        (&["verify", "--help"], 'y'),
        (&["help", "verify"], 'y'),
        (&["sort", "--help"], 'o'),
        (&["help", "sort"], 'o'),
        (&["help", "step"], 's'),
        (&["step", "help"], 'c'),
        (&["help", "run"], 'c'),
        (&["-h", "step"], 'c'),
        (&["gen", "7", "--help"], 'c'),
    ] {
        let mut bytes: Vec<&[u8]> = Vec::new(alloc);
        for word in words {
            bytes.push(word.as_bytes())?;
        }
        let read = line_of(alloc, &bytes)?;
        assert_eq!(rt; letter_of(what_is_asked(&read.words)), wanted);
    }
    Ok(())
}
