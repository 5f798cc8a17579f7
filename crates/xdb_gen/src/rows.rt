//! Worked scripts, each a function that does nothing.
ghost use Rattle.std.specs.Prelude.{◌≡◌, [], ◌∷◌, map, codes};
ghost use Rattle.xdb_gen.specs.Draws.{next_state, drawn};
ghost use Rattle.xdb_gen.specs.Generated.{generated};
ghost use Rattle.xdb_gen.specs.Rows.{texts, operation_texts};
ghost use Rattle.xdb_gen.specs.Rules.{rule_of};
ghost use Rattle.xdb_gen.specs.declared.rule.Rule.TheVariants as rule;

/// The first four states from the seed 7 on, and what is drawn as the generator comes to them.
pub fn draws_of_seven()
    ensures first { next_state 7 ≡ 1025555898 }
    ensures second { next_state 1025555898 ≡ 3923423697 }
    ensures third { next_state 3923423697 ≡ 2630631676 }
    ensures fourth { next_state 2630631676 ≡ 3981355051 }
    ensures first_kind { drawn 10 1025555898 ≡ 8 }
    ensures first_key { drawn 1000 3923423697 ≡ 866 }
    ensures second_kind { drawn 10 2630631676 ≡ 0 }
    ensures second_key { drawn 1000 3981355051 ≡ 750 }
{}

/// The first two lines.
pub fn first_lines()
    ensures seven { texts (generated 2 7) ≡ codes "c1 get k0866" ∷ codes "c1 put k0750 v2" ∷ [] }
    ensures zero { texts (generated 2 0) ≡ codes "c1 put k0256 v1" ∷ codes "c1 get k0769" ∷ [] }
    ensures greatest { texts (generated 2 4294967295) ≡ codes "c1 del k0311" ∷ codes "c1 del k0343" ∷ [] }
{}

/// The first rule that fits counts: 4,500 is a multiple of 500 and of 900, and 6,300 of 700 and of 900.
pub fn first_rule_counts()
    ensures { map rule_of (1 ∷ 500 ∷ 700 ∷ 900 ∷ 1400 ∷ 1800 ∷ 3500 ∷ 4500 ∷ 6300 ∷ [])
        ≡ rule.Command ∷ rule.Upkeep ∷ rule.Load ∷ rule.Snapshot ∷ rule.Load ∷ rule.Snapshot
        ∷ rule.Upkeep ∷ rule.Upkeep ∷ rule.Load ∷ [] }
{}

/// What each rule says.
pub fn each_rule_says()
    ensures upkeep { operation_texts 500 7
        ≡ codes "db seal" ∷ codes "db flush" ∷ codes "db compact auto" ∷ [] }
    ensures load { operation_texts 700 2967764635
        ≡ codes "c1 load l700 excise k0862 k0872" ∷ codes "db seal" ∷ codes "db flush"
        ∷ codes "c1 install l700" ∷ [] }
    ensures first_snapshot { operation_texts 900 7 ≡ codes "c1 snap s900 k0000 k9999" ∷ [] }
    ensures snapshot { operation_texts 1800 7
        ≡ codes "c1 drop s900" ∷ codes "c1 snap s1800 k0000 k9999" ∷ [] }
    ensures del { operation_texts 9 3338981911 ≡ codes "c1 del k0399" ∷ [] }
    ensures delspan { operation_texts 19 363102795 ≡ codes "c1 delspan k0709 k0714" ∷ [] }
    ensures scan { operation_texts 15 4216642115 ≡ codes "c1 scan k0804 k0854 10" ∷ [] }
{}
