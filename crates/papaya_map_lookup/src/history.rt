//! Histories: the changes that a map's exchanges make, as laws. The functions have empty bodies;
//! their contracts are the laws.
ghost use Rattle.std.specs.Prelude.{◌≡◌, ◌++◌, List};
ghost use mathlib.Core.List.{IsPrefix};
ghost use Rattle.papaya_words_law.specs.Allows.{AllAllowed};
ghost use Rattle.papaya_words_law.specs.Exchange.{Exchange, Setting, start};
ghost use Rattle.papaya_words_law.specs.Meaning.{IsLawful, map_left};
ghost use Rattle.papaya_map_lookup.specs.History.{IsLegalHistory, changes_of, replay};

/// States that the changes of allowed exchanges are a legal history, whose replay is the map that
/// the exchanges leave. More exchanges only extend it.
pub fn exchanges_have_a_history<K, P>()
    ensures replay { (g : Setting K P) (es : List (Exchange P)) (k : K)
        → replay g.same (changes_of g.key es) k ≡ map_left g es k }
    ensures legal { (g : Setting K P) → IsLawful g → (es : List (Exchange P))
        → AllAllowed g start es → IsLegalHistory g.same g.key (changes_of g.key es) }
    ensures grows { (g : Setting K P) (es fs : List (Exchange P))
        → IsPrefix (changes_of g.key es) (changes_of g.key (es ++ fs)) }
{}
