//! What the judges' answers mean, as theorems: each contract states some, and its function does nothing.

ghost use Rattle.judges.specs.Laws.{
  StandardLawfulMeans,
  StandardCoversMeans,
  MaskMeans,
  OwnLawfulMeans,
  OwnCoversMeans,
};

/// The standard judge's answers mean its table.
pub fn standard_rules_stand()
    ensures lawful { StandardLawfulMeans }
    ensures covers { StandardCoversMeans }
{}

/// The own-kind judge's answers mean its rule.
pub fn own_kind_rules_stand()
    ensures lawful { OwnLawfulMeans }
    ensures covers { OwnCoversMeans }
    ensures mask { MaskMeans }
{}
