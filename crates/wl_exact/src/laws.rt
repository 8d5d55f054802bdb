//! Laws of the definitions that the contracts of the number type speak of.
ghost use Rattle.wl_exact.specs.Laws.{GcdIsGreatest, ReducedIsLowest, LowestTermsAreUnique, SumCommutes, ProductCommutes, ProductIsFormed, PowerStep, OrderReverses, OrderChains, OrderConnects, OrderTellsApart, QuotientAndRemainder, RemainderIsBelow, FloorIsGreatest};

/// The greatest common divisor divides both numbers, and each number that divides both divides it.
pub fn gcd_is_greatest()
    ensures { GcdIsGreatest }
{}

/// A fraction that is brought to lowest terms is in lowest terms, and keeps its value.
pub fn reduced_is_lowest()
    ensures { ReducedIsLowest }
{}

/// Two fractions in lowest terms of one value are the same.
pub fn lowest_terms_are_unique()
    ensures { LowestTermsAreUnique }
{}

/// The order of two terms makes no difference, to an overflow neither.
pub fn sum_commutes()
    ensures { SumCommutes }
{}

/// The order of two factors makes no difference, to an overflow neither.
pub fn product_commutes()
    ensures { ProductCommutes }
{}

/// A product is formed of what is left once numerators and denominators share nothing.
pub fn product_is_formed()
    ensures { ProductIsFormed }
{}

/// A power is the product of the one before and the base.
pub fn power_step()
    ensures { PowerStep }
{}

/// The order of two numbers turned round is the other order.
pub fn order_reverses()
    ensures { OrderReverses }
{}

/// What is less than a lesser number is less.
pub fn order_chains()
    ensures { OrderChains }
{}

/// Of two numbers that differ one is less.
pub fn order_connects()
    ensures { OrderConnects }
{}

/// Two numbers are equal in the order exactly where they are the same.
pub fn order_tells_apart()
    ensures { OrderTellsApart }
{}

/// The divisor times the quotient, and the remainder, make up the dividend.
pub fn quotient_and_remainder()
    ensures { QuotientAndRemainder }
{}

/// The remainder lies between 0 and the divisor, and has its sign.
pub fn remainder_is_below()
    ensures { RemainderIsBelow }
{}

/// A fraction is at least its floor, and less than the next whole number.
pub fn floor_is_greatest()
    ensures { FloorIsGreatest }
{}
