// The over-temperature flags as two bytes of the status page.
ghost use Rattle.std.specs.Prelude.{◌≡◌, ◌^◌, ◌<◌, ◌≤◌};
ghost use Rattle.pages.specs.Heat.{flag_bits, heat_bytes};

// The number whose bits 0 to `count - 1` are the flags from `at` on; flags that are not fitted are 0.
fn flag_bits(flags: &[bool], at: usize, count: usize) -> u8
    requires { count ≤ 8 }
    ensures bits { result ≡ flag_bits flags.now at count }
    ensures below { result < 2 ^ count }
{
    let mut bits = 0;
    for (k, flag) in flags.iter().skip(at).take(count).enumerate() {
        if *flag {
            bits += 1 << k;
        }
    }
    bits
}

// The first heat byte has flags 8 to 14 and, as bit 7, whether one of the first fifteen is set; the second has flags 0 to 7.
pub fn heat_bytes(over_temperature: &[bool]) -> [u8; 2]
    ensures { result ≡ heat_bytes over_temperature.now }
{
    let first = flag_bits(over_temperature, 8, 7);
    let second = flag_bits(over_temperature, 0, 8);
    if first != 0 || second != 0 {
        [first + 0x80, second]
    } else {
        [first, second]
    }
}
