//! Laws on what a verdict proves.

ghost use Rattle.std.specs.Prelude.{◌≡◌, ℕ, List};
ghost use Rattle.dip_core.specs.declared.item.Item.{Item};
ghost use Rattle.dip_core.specs.Item.{IdsRise};
ghost use Rattle.dip_core.specs.Division.{IsLeast};
ghost use Rattle.cert_core.specs.declared.verdict.Certificate.{Certificate};
ghost use Rattle.cert_core.specs.declared.verdict.Verdict.{Verdict};
ghost use Rattle.cert_core.specs.Verdict.{IsVerdict, IsCertified};

/// A certified division is least: it has the least number of parts.
pub fn certified_division_is_least()
    ensures { (items : List Item) (claim : List (List ℕ)) (certificate : Certificate)
        → IsCertified items claim certificate → IsLeast items certificate.parts }
{}

/// If the items' ids are ascending, a claim and its certificate have exactly one verdict.
pub fn claim_has_one_verdict()
    ensures exists { (items : List Item) (claim : List (List ℕ)) (certificate : Certificate)
        → IdsRise items → (verdict : Verdict) × IsVerdict items claim certificate verdict }
    ensures one { (items : List Item) (claim : List (List ℕ)) (certificate : Certificate)
        (one other : Verdict)
        → IdsRise items → IsVerdict items claim certificate one
        → IsVerdict items claim certificate other
        → one ≡ other }
{}
