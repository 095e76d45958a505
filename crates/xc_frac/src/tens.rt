// Powers of ten.
ghost use Rattle.std.specs.Prelude.{◌≡◌, ◌^◌, ◌≤◌, ◌<◌};

/// 10^places, for at most 37 places: as many as a decimal number here has.
pub fn power(places: u32) -> u128
    requires { places ≤ 37 }
    ensures is { result ≡ 10 ^ places }
    ensures narrow { result < 2 ^ 126 }
    ensures positive { 0 < result }
{
    10u128.pow(places)
}
