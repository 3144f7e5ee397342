//! Worked examples of factors and weights, as contracts of functions that do nothing.
ghost use Rattle.std.specs.Prelude.{◌≡◌};
ghost use Rattle.size_class.specs.declared.TheConstants.{CLASSES};
ghost use Rattle.move_cost.specs.{Costs.{factor, weigh, linear, flat, seek}, Worked.{worked_moved, worked_asked}};

/// The constant of the amortised cost for the least k, for 9, and for the greatest.
pub fn worked_factors()
    ensures two { factor 2 ≡ 79 }
    ensures nine { factor 9 ≡ 561 }
    ensures most { factor 64 ≡ 4995 }
{}

/// A worked session moved 5, 20 and 300 bytes of the classes 2, 3 and 6, and asked 5, 10 and 100: what
/// they weigh by each cost among all classes.
pub fn worked_weights()
    ensures moved_linear { weigh CLASSES linear worked_moved ≡ 21810380800 }
    ensures asked_linear { weigh CLASSES linear worked_asked ≡ 7717519360 }
    ensures moved_flat { weigh CLASSES flat worked_moved ≡ 566231040 }
    ensures asked_flat { weigh CLASSES flat worked_asked ≡ 272629760 }
    ensures moved_seek { weigh CLASSES seek worked_moved ≡ 58049167360 }
    ensures asked_seek { weigh CLASSES seek worked_asked ≡ 25165824000 }
{}
