ghost use Rattle.std.specs.Prelude.{◌≡◌, ◌<◌, nat_eq, length};
ghost use Rattle.std.specs.List.{position_or_len};

use module_rules::Numbers;

/// Where a number stands among these, or how many there are.
#[tactic(auto, using(crate::proofs::Positions::not_among, crate::proofs::Positions::among))]
pub fn number_in(numbers: &Numbers, x: u32) -> u32
    requires { length numbers.now < 4294967296 }
    ensures { result ≡ position_or_len (nat_eq x) numbers.now }
{
    match numbers.position(x) {
        Some(at) => at as u32,
        None => numbers.as_slice().len() as u32,
    }
}
