// Closed spans of values. Contracts speak of ends as whole numbers over one denominator.
ghost use Rattle.std.specs.Prelude.{◌≡◌, ℕ, Bool, if◌then◌else◌};
ghost use Rattle.xc_forest.specs.Steps.Scaled.{AreBoundsOver};
ghost use Rattle.xc_forest.specs.Steps.Spans.{CanLessen, TellsLess};
ghost use Rattle.xc_forest.specs.Steps.Vertices.{Span, IsMeet, row_without_point, span_with_sign};
ghost use Rattle.xc_frac.specs.declared.wide.Op.{Op};
ghost use Rattle.xc_frac.specs.declared.wide.Wide.{Wide};
ghost use Rattle.xc_model.specs.Parts.{WholeParts, ArePartsOver, whole_sum, whole_difference, whole_neg};

use std::cmp::Ordering;
use xc_frac::Exact;

/// All values from one to another.
#[derive(Clone, Copy)]
pub(crate) struct Bounds<E: Exact> {
    pub(crate) low: E,
    pub(crate) high: E,
}

/// What two spans have in common, and which of its ends are those of the second.
#[derive(Clone, Copy)]
pub(crate) struct Common<E: Exact> {
    pub(crate) bounds: Bounds<E>,
    pub(crate) low_of_second: bool,
    pub(crate) high_of_second: bool,
}

/// A sum that does not pass.
pub(crate) fn sum<E: Exact>(x: E, y: E) -> E
    requires { (w : Wide) → ¬ E.passes Op.Add x y w }
    ensures { (a b : WholeParts) (d : ℕ) → ArePartsOver (E.parts x) a d → ArePartsOver (E.parts y) b d
        → ArePartsOver (E.parts result) (whole_sum a b) d }
{
    match x.add(y) {
        Ok(sum) => sum,
        Err(_) => unreachable!(),
    }
}

/// A difference that does not pass.
pub(crate) fn difference<E: Exact>(x: E, y: E) -> E
    requires { (w : Wide) → ¬ E.passes Op.Sub x y w }
    ensures { (a b : WholeParts) (d : ℕ) → ArePartsOver (E.parts x) a d → ArePartsOver (E.parts y) b d
        → ArePartsOver (E.parts result) (whole_difference a b) d }
{
    match x.sub(y) {
        Ok(difference) => difference,
        Err(_) => unreachable!(),
    }
}

/// The span of a row less that of a point, or, for a minus sign, together with it.
pub(crate) fn row_without_point<E: Exact>(
    minus: bool,
    row: Bounds<E>,
    point: Bounds<E>,
) -> Bounds<E>
    requires { CanLessen E.passes minus row point }
    ensures { (x y : Span) (d : ℕ) → AreBoundsOver E.parts d row x → AreBoundsOver E.parts d point y
        → AreBoundsOver E.parts d result (row_without_point minus x y) }
{
    if minus {
        Bounds {
            low: sum(row.low, point.low),
            high: sum(row.high, point.high),
        }
    } else {
        Bounds {
            low: difference(row.low, point.high),
            high: difference(row.high, point.low),
        }
    }
}

/// The negatives of what is in a span, for a minus sign.
pub(crate) fn span_with_sign<E: Exact>(minus: bool, bounds: Bounds<E>) -> Bounds<E>
    ensures { (x : Span) (d : ℕ) → AreBoundsOver E.parts d bounds x → AreBoundsOver E.parts d result (span_with_sign minus x) }
{
    if minus {
        Bounds {
            low: bounds.high.neg(),
            high: bounds.low.neg(),
        }
    } else {
        bounds
    }
}

/// What two spans have in common.
pub(crate) fn meet<E: Exact>(first: Bounds<E>, second: Bounds<E>) -> Common<E>
    ensures { (x y : Span) (d : ℕ) → AreBoundsOver E.parts d first x → AreBoundsOver E.parts d second y
        → (m : Span) × AreBoundsOver E.parts d result.bounds m × IsMeet result.low_of_second result.high_of_second x y m }
{
    let low_of_second = is_less(first.low, second.low);
    let high_of_second = is_less(second.high, first.high);
    Common {
        bounds: Bounds {
            low: second_if(low_of_second, first.low, second.low),
            high: second_if(high_of_second, first.high, second.high),
        },
        low_of_second,
        high_of_second,
    }
}

// One of two values.
fn second_if<E: Exact>(is_second: bool, first: E, second: E) -> E
    ensures { result ≡ (if is_second then second else first) }
{
    if is_second { second } else { first }
}

/// Whether the high end is less than the low one.
pub(crate) fn is_empty<E: Exact>(bounds: Bounds<E>) -> bool
    ensures { (x : Span) (d : ℕ) → AreBoundsOver E.parts d bounds x → TellsLess result x.high x.low }
{
    is_less(bounds.high, bounds.low)
}

/// Whether a value is less than another.
pub(crate) fn is_less<E: Exact>(x: E, y: E) -> bool
    ensures { (a b : WholeParts) (d : ℕ) → ArePartsOver (E.parts x) a d → ArePartsOver (E.parts y) b d → TellsLess result a b }
{
    match x.compare(y) {
        Ordering::Less => true,
        Ordering::Equal => false,
        Ordering::Greater => false,
    }
}
