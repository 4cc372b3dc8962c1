//! Laws of takes, trees and processes that workers play beside each other, on functions whose only
//! clauses they are.
ghost use Rattle.std.specs.Prelude.{◌≡◌, ◌==◌, ℕ, List};
ghost use Rattle.tm_rules.specs.Types.{Made, Take, Tree};
ghost use Rattle.tm_rules.specs.Prelude.{Grammar};
ghost use Rattle.tm_legal.specs.Prelude.{History, InProgress, IsLegalTake, Scene, Situation, Situations, TreePlayed, at_start};
ghost use Rattle.tm_joint.specs.AtLists.{TakesGrow, DomainsStay, LooksAreJudged, LooksBegin, OwedStepsFit};
ghost use Rattle.tm_joint.specs.AtLists.{StepsAreMade, AnswersAreHeard, RetriesAreJudged, LooksGoOn};
ghost use Rattle.tm_joint.specs.AtLists.{EndedTakesAreLegal, OwnStepsAreNoted, TreesBegin, TreesGrow};
ghost use Rattle.tm_joint.specs.AtLists.{LinesArePassed, ProcessesStand, TakesFollow, WalkedTreesArePlayed};
ghost use Rattle.tm_joint.specs.AtLists.{PlayedTreesGrow, EndsStandAbove};
ghost use Rattle.tm_joint.specs.Processes.{lines_of, ProcessPlayed, Queues, merged, LinesAreOfTree};

/// The events of a take, each at a list of steps that others' steps have made longer: its first
/// look, its own steps, the answer that it hears, another look, and its end, at which it is legal.
pub fn takes_beside_others()
    ensures grow { TakesGrow }
    ensures domains { DomainsStay }
    ensures judged { LooksAreJudged }
    ensures begin { LooksBegin }
    ensures fit { OwedStepsFit }
    ensures made { StepsAreMade }
    ensures heard { AnswersAreHeard }
    ensures again { RetriesAreJudged }
    ensures looked { LooksGoOn }
    ensures ended { EndedTakesAreLegal }
    ensures own { (g : Grammar) (b : InProgress) → OwnStepsAreNoted g b }
{}

/// The walk through a tree's lines, at lists of steps that others' steps make longer: at its end
/// all its takes are legal.
pub fn trees_beside_others()
    ensures begin { TreesBegin }
    ensures grow { TreesGrow }
    ensures passed { (scene : Scene) (xs : List Made) (t : ℕ) (tree : Tree) (at : Situations)
        (takes : List Take) → LinesArePassed scene xs t tree at takes }
    ensures stand { ProcessesStand }
    ensures follow { TakesFollow }
    ensures played { WalkedTreesArePlayed }
    ensures stays { PlayedTreesGrow }
    ensures above { EndsStandAbove }
{}

/// A tree is played where each of its processes is, the first one from the live domain of the
/// tree's name and every other one from where its parent left it: its takes are those of its
/// processes in the order of its requests.
pub fn merged_processes()
    ensures { (scene : Scene) (history : History) (t : ℕ) (tree : Tree) (start : ℕ → Situation)
        (queue : Queues) →
        LinesAreOfTree (λ pid. pid == tree.pid) tree.records →
        start tree.pid ≡ at_start scene.policy tree tree.pid →
        ((pid : ℕ) → ProcessPlayed (IsLegalTake scene history) t start
        (start pid) (lines_of pid tree.records) (queue pid)) →
        TreePlayed scene history t tree (merged tree.records queue) }
{}
