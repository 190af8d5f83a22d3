//! A pair enters the map once. The function has an empty body; its contract is the law.
ghost use Rattle.std.specs.Prelude.{◌≡◌, List, Some, ◌∷◌, ◌++◌};
ghost use Rattle.papaya_core_store.specs.Store.{Stored};
ghost use Rattle.papaya_core_timeline.specs.declared.trace.Turn.{Turn};
ghost use Rattle.papaya_core_timeline.specs.Maps.{Map};
ghost use Rattle.papaya_core_timeline.specs.Runs.{History};
ghost use Rattle.papaya_core_timeline.specs.Timeline.{Answered, IsUnused, Timeline};
ghost use Rattle.papaya_core_timeline.specs.Once.{HaveNot, IsSteady};

/// States that along a timeline, each map has for a key the pair that the map before has, or one
/// that no map before had. So a pair that has left the map does not come back.
pub fn pairs_enter_once<K: Eq, V, A>()
    ensures steady { (schedule : List (Turn K V A)) (start : Map K V) (h : History)
        (maps : List (Map K V)) (said : Answered V)
        → Timeline K.eq schedule start h maps said → IsSteady maps }
    ensures lost { (j : K) (p : Stored K V) (newer : List (Map K V)) (lost : Map K V)
        (older : List (Map K V)) → IsSteady (newer ++ lost ∷ older)
        → (lost j ≡ Some p → ⊥) → (IsUnused p.number older → ⊥) → HaveNot j p newer }
{}
