// Division of a signed number by a positive one, rounded toward minus infinity.
ghost use Rattle.std.specs.Prelude.{◌≡◌, ◌<◌};
ghost use Rattle.average.specs.Averages.{floor_div};

// The quotient of -(a + 1), whose complement is a, is -(a / count + 1). `div_euclid` divides by a signed number, and a count has 64 bits.
pub fn floor_div(sum: i64, count: u64) -> i64
    requires { 0 < count }
    ensures { result ≡ floor_div sum count }
{
    if sum < 0 {
        !((!sum as u64 / count) as i64)
    } else {
        (sum as u64 / count) as i64
    }
}
