// What the checker says.
ghost use Rattle.std.specs.Prelude.{◌≡◌};
ghost use Rattle.xc_verify.specs.Objections.{objection_of};

use xc_frac::Wide;

/// What a judgement speaks of.
#[derive(Clone, Copy, Debug, PartialEq, Eq)]
pub enum What {
    /// A data point, by its number.
    Point(u32),
    /// A binding, by its number.
    Binding(u32),
    /// A fact, by its number.
    Fact(u32),
    /// The constant of a refutation.
    Constant,
}

/// What the checker says of a certificate. Only `Accepted` is a yes.
#[derive(Clone, Copy, Debug, PartialEq, Eq)]
pub enum Judgement {
    /// The certificate proves what it claims.
    Accepted,
    /// This is not there, or not as the certificate claims.
    Misses(What),
    /// The certificate needs the interval of this fact, which is wide.
    WideFact(u32),
    /// At this, a sum or a product passes 128 bits.
    TooWide(What, Wide),
}

/// Why a certificate is not accepted.
#[derive(Clone, Copy)]
pub enum Objection {
    /// This is not there, or not as the certificate claims.
    Misses(What),
    /// The certificate needs the interval of this fact, which is wide.
    WideFact(u32),
    /// At this, a sum or a product passes 128 bits.
    TooWide(What, Wide),
}

/// The judgement by the first objection that was met, if one was.
pub fn judgement_of(met: Option<Objection>) -> Judgement
    ensures { objection_of result ≡ met }
{
    match met {
        None => Judgement::Accepted,
        Some(Objection::Misses(what)) => Judgement::Misses(what),
        Some(Objection::WideFact(fact)) => Judgement::WideFact(fact),
        Some(Objection::TooWide(what, wide)) => Judgement::TooWide(what, wide),
    }
}
