//! Squares that a cache remembers: each resident number has its own square.
ghost use Rattle.clock2q_uses.specs.Squares.{HasSquares, square};
ghost use Rattle.std.specs.Prelude.{◌≡◌};

use clock2q::Cache;

/// Returns the square of a number, modulo 2^64. It is computed if the cache doesn't have it.
#[tactic(auto, unfolding(crate::specs::Squares::square))]
pub fn square_of(squares: &mut Cache<u64, u64>, number: u64) -> u64
    ensures square { HasSquares squares.old.machine → result ≡ square number }
    ensures keeps { HasSquares squares.old.machine → HasSquares squares.new.machine }
{
    squares.facts();
    if let Some(square) = squares.get(&number) {
        return *square;
    }
    let square = number.wrapping_mul(number);
    squares.put(number, square);
    square
}
