//! The test that holds when a conditional jump falls through.
ghost use Rattle.std.specs.Prelude.{◌≡◌, ℕ, not, IsSome, IfSome, IfNone};
ghost use Rattle.isa.specs.declared.instruction.Width.{Width};
ghost use Rattle.isa.specs.Arithmetic.{test_holds};

use isa::Test;

/// The test that holds if and only if this one does not. `AnyBitSet` has no opposite.
pub fn opposite(test: Test) -> Option<Test>
    ensures opposite { IfSome result (λ other. (width : Width) (a b : ℕ)
        → test_holds width other a b ≡ not (test_holds width test a b)) }
    ensures none { IfNone result (test ≡ Test.AnyBitSet) }
{
    match test {
        Test::Equal => Some(Test::NotEqual),
        Test::NotEqual => Some(Test::Equal),
        Test::Greater => Some(Test::LessOrEqual),
        Test::LessOrEqual => Some(Test::Greater),
        Test::GreaterOrEqual => Some(Test::Less),
        Test::Less => Some(Test::GreaterOrEqual),
        Test::SignedGreater => Some(Test::SignedLessOrEqual),
        Test::SignedLessOrEqual => Some(Test::SignedGreater),
        Test::SignedGreaterOrEqual => Some(Test::SignedLess),
        Test::SignedLess => Some(Test::SignedGreaterOrEqual),
        Test::AnyBitSet => None,
    }
}
