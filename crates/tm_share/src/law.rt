//! What follows for jobs that are put and taken as often.
ghost use Rattle.std.specs.Prelude.{◌≡◌, ◌<◌, ◌+◌, ◌∷◌, ◌++◌, [], ℕ, Bool, true, List, map};
ghost use Rattle.tm_share.specs.Weights.{weigh, times, IsAmong, WeighSame};
ghost use Rattle.tm_share.specs.Hands.{Hand, Move, place, HasPut, HasTaken, HasMoved, AreMoved, all_put, all_taken, moved_put, moved_taken};
ghost use Rattle.tm_share.specs.Forests.{IsForest, weigh_children};

/// A law, nothing to run: where the jobs that were taken are those that were put, and what was put
/// are the roots of a forest and the children of what was taken, each number of the forest was
/// taken once.
pub fn each_once<J>()
    ensures { (number : J → ℕ) (count : ℕ) (roots : List ℕ) (children : ℕ → List ℕ) (put taken : List J) →
        IsForest count roots children →
        WeighSame put taken →
        ((h : ℕ → ℕ) → weigh h (map number put)
        ≡ weigh h roots + weigh_children h children (map number taken)) →
        (p : ℕ) → p < count → times p (map number taken) ≡ 1 }
{}

/// A law, nothing to run: a job that was taken is one that was put, where jobs can be compared.
pub fn taken_jobs_were_put<J>()
    ensures { (same : J → J → Bool) → ((x : J) → same x x ≡ true) → ((x y : J) → same x y ≡ true → x ≡ y) →
        (put taken : List J) → WeighSame put taken →
        (x : J) → IsAmong x taken → IsAmong x put }
{}

/// A law, nothing to run: what a hand has put and taken adds up, step after step.
pub fn hands_move_on<J>()
    ensures none { (x : Hand J) → HasMoved [] [] x x }
    ensures put { (job : J) (x y : Hand J) → HasPut job x y → HasMoved (job ∷ []) [] x y }
    ensures taken { (job : J) (x y : Hand J) → HasTaken job x y → HasMoved [] (job ∷ []) x y }
    ensures both { (p t q u : List J) (x y z : Hand J) → HasMoved p t x y → HasMoved q u y z →
        HasMoved (p ++ q) (t ++ u) x z }
{}

/// A law, nothing to run: what the hands of a pool have put and taken adds up, and they are the
/// hands of a pool as before.
pub fn pools_move_on<J>()
    ensures places { (moves : List (Move J)) → AreMoved moves →
        map place (map (λ m. m.after) moves) ≡ map place (map (λ m. m.before) moves) }
    ensures put { (moves : List (Move J)) → AreMoved moves → (h : J → ℕ) →
        weigh h (all_put (map (λ m. m.after) moves))
        ≡ weigh h (all_put (map (λ m. m.before) moves)) + weigh h (moved_put moves) }
    ensures taken { (moves : List (Move J)) → AreMoved moves → (h : J → ℕ) →
        weigh h (all_taken (map (λ m. m.after) moves))
        ≡ weigh h (all_taken (map (λ m. m.before) moves)) + weigh h (moved_taken moves) }
{}
