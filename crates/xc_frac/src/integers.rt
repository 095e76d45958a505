// Whole numbers of at most 2^127 - 1 in magnitude.
ghost use Rattle.std.specs.Int.{IsGcd};
ghost use Rattle.std.specs.Option.{SomeIff};
ghost use Rattle.std.specs.Prelude.{◌≡◌, ◌≢◌, ◌<◌, ◌^◌, ◌<ℤ◌, ◌*ℤ◌, ◌+ℤ◌, pos, unsigned_abs};
ghost use Prim.Native.Nat.{◌∣◌};
ghost use Rattle.xc_frac.specs.Cleared.{IsCleared};
ghost use Rattle.xc_model.specs.Width.{IsNarrow};

// The greatest common divisor, by Euclid's algorithm: in 64 bits as soon as the lesser number fits
// them.
pub fn gcd(a: u128, b: u128) -> u128
    ensures { IsGcd a b result }
{
    let mut x = a;
    let mut y = b;
    while y > LONGEST {
        let rest = x % y;
        x = y;
        y = rest;
    }
    if y == 0 {
        return x;
    }
    u128::from(short_gcd(y as u64, (x % y) as u64))
}

// The greatest number of 64 bits.
const LONGEST: u128 = (1 << 64) - 1;

// The greatest common divisor of numbers of 64 bits.
fn short_gcd(a: u64, b: u64) -> u64
    ensures { IsGcd a b result }
{
    let mut x = a;
    let mut y = b;
    while y != 0 {
        let rest = x % y;
        x = y;
        y = rest;
    }
    x
}

// n, with the sign of like.
fn with_sign(n: u128, like: i128) -> i128
    requires some { 0 < n }
    requires narrow { n < 2 ^ 127 }
    ensures size { unsigned_abs result ≡ n }
    ensures above { pos 0 <ℤ like → pos 0 <ℤ result }
    ensures below { like <ℤ pos 0 → result <ℤ pos 0 }
{
    let n = n as i128;
    if like < 0 { -n } else { n }
}

// The greatest common divisor of num and den, with the sign of den.
fn divisor(num: i128, den: i128) -> i128
    requires num_narrow { IsNarrow num }
    requires den_narrow { IsNarrow den }
    requires some { den ≢ pos 0 }
    ensures gcd { IsGcd (unsigned_abs num) (unsigned_abs den) (unsigned_abs result) }
    ensures above { pos 0 <ℤ den → pos 0 <ℤ result }
    ensures below { den <ℤ pos 0 → result <ℤ pos 0 }
{
    let g = gcd(num.unsigned_abs(), den.unsigned_abs());
    with_sign(g, den)
}

// n / s, which leaves nothing over.
fn exact_quotient(n: i128, s: i128) -> i128
    requires narrow { IsNarrow n }
    requires some { s ≢ pos 0 }
    requires divides { unsigned_abs s ∣ unsigned_abs n }
    ensures exact { result *ℤ s ≡ n }
    ensures narrow { IsNarrow result }
{
    n / s
}

// num and den without their common factor, which takes the sign of den. Where one of them is 0, 1
// or -1, no divisor is sought.
pub fn cleared(num: i128, den: i128) -> (i128, i128)
    requires num_narrow { IsNarrow num }
    requires den_narrow { IsNarrow den }
    requires some { den ≢ pos 0 }
    ensures cleared { IsCleared num den result.0 result.1 }
    ensures num { IsNarrow result.0 }
    ensures den { IsNarrow result.1 }
{
    if num == 0 {
        return (0, 1);
    }
    if den == 1 {
        return (num, 1);
    }
    if den > 0 {
        if num == 1 {
            return (1, den);
        }
        if num == -1 {
            return (-1, den);
        }
    }
    divided(num, den)
}

// num and den over their greatest common divisor.
fn divided(num: i128, den: i128) -> (i128, i128)
    requires num_narrow { IsNarrow num }
    requires den_narrow { IsNarrow den }
    requires some { den ≢ pos 0 }
    ensures cleared { IsCleared num den result.0 result.1 }
    ensures num { IsNarrow result.0 }
    ensures den { IsNarrow result.1 }
{
    let s = divisor(num, den);
    if s == 1 {
        return (num, den);
    }
    (exact_quotient(num, s), exact_quotient(den, s))
}

// What two denominators have beside their common factor. Where they are equal, or one is 1, no
// divisor is sought.
pub fn cofactors(left: i128, right: i128) -> (i128, i128)
    requires left { pos 0 <ℤ left }
    requires right { pos 0 <ℤ right }
    requires left_narrow { IsNarrow left }
    requires right_narrow { IsNarrow right }
    ensures cleared { IsCleared left right result.0 result.1 }
    ensures left { IsNarrow result.0 }
    ensures right { IsNarrow result.1 }
{
    if left == right {
        (1, 1)
    } else if left == 1 || right == 1 {
        (left, right)
    } else {
        cleared(left, right)
    }
}

// a * b, where it is narrow.
pub fn product(a: i128, b: i128) -> Option<i128>
    ensures { SomeIff result (IsNarrow (a *ℤ b)) (a *ℤ b) }
{
    let c = a.checked_mul(b)?;
    if c == i128::MIN { None } else { Some(c) }
}

// a + b, where it is narrow.
pub fn sum(a: i128, b: i128) -> Option<i128>
    ensures { SomeIff result (IsNarrow (a +ℤ b)) (a +ℤ b) }
{
    let c = a.checked_add(b)?;
    if c == i128::MIN { None } else { Some(c) }
}
