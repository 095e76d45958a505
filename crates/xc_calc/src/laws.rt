//! What the definitions of this crate say, in the words of numbers and networks.
//!
//! The functions do nothing: the contract of each is the law, and one may call a law below it.
ghost use Rattle.xc_calc.specs.Laws.{HasOneAnswer, NumbersAgree};

use xc_decimal::laws::one_shortest;

/// Weights and orders compare as the same exactly where they are the same number.
pub fn numbers_agree()
    ensures { NumbersAgree }
{
    one_shortest();
}

/// Arcs have one list of networks.
pub fn networks_are_one()
    ensures { HasOneAnswer }
{}
