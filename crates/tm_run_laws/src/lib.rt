//! Runs of this language and their texts: whatever is played can be written and is read back.
//! Stands on tm_legal, tm_grammar, tm_trace, tm_script and tm_run; no code but for functions
//! without a body, on which the laws stand.
//! Of its own, so that tm_run stands on no meaning of a run, and tm_legal on no text.
//! Promises that every legal run of a scene that was read is one that a text can write, so that its
//! text is read back as that run and determines it.
#![tactic(auto)]

ghost use Rattle.std.specs.Prelude.{◌≡◌, true, List, Ok};
ghost use Rattle.tm_word.specs.Prelude.{Text};
ghost use Rattle.tm_rules.specs.Types.{Run, Turn};
ghost use Rattle.tm_legal.specs.Prelude.{CanPlay, Legal, Plays, Scene};
ghost use Rattle.tm_grammar.specs.Tomoyo.{tomoyo_grammar};
ghost use Rattle.tm_trace.specs.Reading.{trace_of};
ghost use Rattle.tm_script.specs.Edits.{edits_of};
ghost use Rattle.tm_run.specs.RunText.{run_text};
ghost use Rattle.tm_run.specs.Reading.{run_of};
ghost use Rattle.tm_run.specs.Typed.{is_typed};
ghost use Rattle.tm_run.specs.Written.{is_written};
ghost use Rattle.tm_run_laws.specs.Scenes.{IsReadScene};

/// A scene whose trace and whose editors were read, of this language and such that it can be
/// played, is a scene that was read.
pub fn scenes_are_read()
    ensures { (scene : Scene) (trace edits : Text) → scene.grammar ≡ tomoyo_grammar → CanPlay scene
        → trace_of trace ≡ Ok scene.trace → edits_of edits ≡ Ok scene.editors → IsReadScene scene }
{}

/// Every legal run of a scene that was read, with numbers in their types' ranges, is one that a
/// text can write: its text is read back as that run, and no other such run, of whatever scene, has
/// this text. The ranges are what `print_run` tells of each run that it printed.
pub fn legal_runs_are_read_back()
    ensures written { (scene : Scene) (run : Run) → IsReadScene scene → Legal scene run → is_typed run ≡ true
        → is_written run ≡ true }
    ensures read { (scene : Scene) (run : Run) → IsReadScene scene → Legal scene run → is_typed run ≡ true
        → run_of (run_text run) ≡ Ok run }
    ensures alone { (scene other_scene : Scene) (run other : Run) → IsReadScene scene → IsReadScene other_scene
        → Legal scene run → Legal other_scene other → is_typed run ≡ true → is_typed other ≡ true
        → run_text run ≡ run_text other → run ≡ other }
{}

/// The same of every play of such a scene, by whatever schedule: every play is legal.
pub fn plays_are_read_back()
    ensures written { (scene : Scene) (schedule : List Turn) (run : Run) → IsReadScene scene → Plays scene schedule run
        → is_typed run ≡ true → is_written run ≡ true }
    ensures read { (scene : Scene) (schedule : List Turn) (run : Run) → IsReadScene scene → Plays scene schedule run
        → is_typed run ≡ true → run_of (run_text run) ≡ Ok run }
{}
