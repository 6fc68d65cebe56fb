//! Worked verdicts: the definitions compute of traces of worked runs that they are consistent, and of texts made of
//! them which line is the first that is not good.
ghost use Rattle.std.specs.Prelude.{◌≡◌, [], ◌∷◌, ◌++◌, Some, None, true, codes, take};
ghost use Rattle.guards_audit.specs.Verdicts.{first_bad};
ghost use Rattle.guards_runs.specs.Report.{traced};
ghost use Rattle.model_rows.specs.TwoCycles as two_cycles_row;
ghost use Rattle.model_rows.specs.Restored as restored_row;
ghost use Rattle.model_rows.specs.Changed.{lines, text, bad_line, changed, with_line, driven, with_words};

/// Two cycles without faults: their trace is consistent, and there is no empty one.
pub fn two_cycles()
    ensures is_text { traced two_cycles_row.mission two_cycles_row.log two_cycles_row.histories ≡ text lines }
    ensures good { first_bad two_cycles_row.mission (text lines) ≡ None }
    ensures nothing { first_bad two_cycles_row.mission [] ≡ Some 1 }
{}

/// One line of each kind that says something else, or says it otherwise, is found.
pub fn changed_lines()
    ensures head { bad_line (with_line 1 (codes "guards channels 4 cycles 3\n")) ≡ Some 1 }
    ensures number { bad_line (with_line 12 (codes "cycle 2 active 0,1,2,3 transfer -\n")) ≡ Some 12 }
    ensures active { bad_line (with_line 12 (codes "cycle 1 active 0,1,3 transfer -\n")) ≡ Some 12 }
    ensures transfer { bad_line (with_line 12 (codes "cycle 1 active 0,1,2,3 transfer 3@1\n")) ≡ Some 12 }
    ensures inputs { bad_line (with_line 14 (codes "ch 1 in 6 vote 10 judged - alpha 0,0,0,0\n")) ≡ Some 14 }
    ensures vote { bad_line (with_line 13 (codes "ch 0 in 5 vote 11 judged - alpha 0,0,0,0\n")) ≡ Some 13 }
    ensures judged { bad_line (with_line 3 (codes "ch 0 in 5 vote 5 judged 3 alpha 0,0,0,0\n")) ≡ Some 3 }
    ensures counts { bad_line (with_line 3 (codes "ch 0 in 5 vote 5 judged - alpha 0,0,0,65536\n")) ≡ Some 3 }
    ensures letters { bad_line (with_line 7 (codes "trace 0 TT\n")) ≡ Some 7 }
    ensures copies { bad_line (with_line 8 (codes "trace 1 TS\n")) ≡ Some 8 }
    ensures removed { bad_line (with_line 21 (codes "end removed 2,3 joined - remaining -\n")) ≡ Some 21 }
    ensures joined { bad_line (with_line 11 (codes "end removed - joined 3 remaining -\n")) ≡ Some 11 }
    ensures remaining { bad_line (with_line 11 (codes "end removed - joined - remaining 0\n")) ≡ Some 11 }
    ensures done { bad_line (with_line 22 (codes "done 3\n")) ≡ Some 22 }
    ensures spelling { bad_line (with_line 22 (codes "done 02\n")) ≡ Some 22 }
{}

/// Lines that are missing, that stand twice or in another order, and what follows the last one, are found.
pub fn misplaced_lines()
    ensures missing { bad_line (changed 9 1 []) ≡ Some 10 }
    ensures twice { bad_line (changed 7 0 (codes "trace 0 T\n" ∷ [])) ≡ Some 8 }
    ensures order { bad_line (changed 7 2 (codes "trace 1 T\n" ∷ codes "trace 0 T\n" ∷ [])) ≡ Some 8 }
    ensures early { bad_line (text (take 21 lines)) ≡ Some 22 }
    ensures after { bad_line (text lines ++ codes "\n") ≡ Some 23 }
    ensures stop { bad_line
        (with_line 22 (codes "stop cycle 1 slot vote disturbed 2,3 active 0,1,2,3\n")) ≡ Some 22 }
    ensures no_end { bad_line (with_line 22 (codes "done 2")) ≡ Some 22 }
{}

/// With an actuator each cycle has its words after its end line; without one no line of words is good.
pub fn driven_words()
    ensures good { first_bad driven (with_words (codes "out 3\n") (codes "out 6\n")) ≡ None }
    ensures other { first_bad driven (with_words (codes "out 3\n") (codes "out 7\n")) ≡ Some 23 }
    ensures missing { first_bad driven (text lines) ≡ Some 12 }
    ensures spelling { first_bad driven (with_words (codes "out 03\n") (codes "out 6\n")) ≡ Some 12 }
    ensures no_actuator { bad_line (with_words (codes "out 3\n") (codes "out 6\n")) ≡ Some 12 }
{}

/// A channel is restored.
pub fn restored()
    ensures { first_bad restored_row.mission restored_row.traced_text ≡ None }
{}
