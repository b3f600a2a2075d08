//! Calculations: operations on fractions in a stated order. Over fractions of any size a calculation has its exact answer; over
//! narrow ones it has that answer too, or it meets a number that is too wide. This crate has the definitions and their laws.
#![tactic(auto)]

ghost use Rattle.std.specs.Prelude.{◌≡◌, Some};
ghost use Rattle.std.specs.Option.{option_and_then};
ghost use Rattle.calculations.specs.Calculation.{Calculation, exact, followed_by, narrow};

/// What a calculation answers on narrow numbers is its exact answer.
pub fn narrow_is_exact<A>()
    ensures { (c : Calculation A) (answer : A) → narrow c ≡ Some answer → exact c ≡ answer }
{}

/// One calculation behind another is narrow where the first is and the second is at its answer, which it then has.
pub fn narrow_in_order<A, B>()
    ensures { (c : Calculation A) (f : A → Calculation B) → narrow (followed_by c f)
        ≡ option_and_then (λ a. narrow (f a)) (narrow c) }
{}
