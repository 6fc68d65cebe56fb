//! Laws of the words on which outputs depend.

ghost use Rattle.std.specs.Prelude.{◌≡◌, ℕ, ◌+◌, ◌*◌, ◌<◌, ◌≤◌, ℤ, List, false, true};
ghost use Rattle.std.specs.List.{list_all};
ghost use Rattle.guards_model.specs.Contexts.{ContextValue, with_word};
ghost use Rattle.guards_model.specs.Missions.{MissionValue, IsMission, is_context, output_words};
ghost use Rattle.guards_model.specs.Words.{is_word};
ghost use Rattle.table_flow.specs.Flow.{assignments, feeds, word_number};
ghost use Rattle.flow_laws.specs.Alike.{AreAlike, worked_context, depended};

/// What an expression names that is stored in a word on which the outputs depend is such a word too, and so are the
/// outputs.
pub fn dependence_is_closed()
    ensures { (M : MissionValue) (w : ℕ) → IsMission M → w < M.rules.blocks * 8 →
        feeds (assignments M.table) (depended M) w ≡ true →
        depended M w ≡ true }
{}

/// Two contexts that are alike on the words on which the outputs depend stay so, and have the same votes in every
/// later cycle, where the same inputs are agreed on.
pub fn silent_words_reach_no_vote()
    ensures stay { (M : MissionValue) (inputs : ℕ → List ℤ) (c n : ℕ) (a b : ContextValue) → IsMission M →
        c + n ≤ M.cycles →
        ((d : ℕ) → list_all is_word (inputs d) ≡ true) → AreAlike M a b →
        AreAlike M (worked_context M inputs c a n) (worked_context M inputs c b n) }
    ensures votes { (M : MissionValue) (inputs : ℕ → List ℤ) (c n : ℕ) (a b : ContextValue) → IsMission M →
        c + n ≤ M.cycles →
        ((d : ℕ) → list_all is_word (inputs d) ≡ true) → AreAlike M a b →
        output_words M (worked_context M inputs c a n) ≡ output_words M (worked_context M inputs c b n) }
{}
