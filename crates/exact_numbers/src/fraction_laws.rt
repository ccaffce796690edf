// Each law is proved by a function with an empty body.
ghost use Rattle.std.specs.Prelude.{◌≡◌, ◌≢◌, ◌↔◌, ◌⊎◌, ℕ, ℤ, List, ◌<◌, ◌++◌, ◌∷◌, ◌*◌, pos, ◌+ℤ◌, ◌*ℤ◌, ◌≤ℤ◌, neg_ℤ, Some, None, All, Contains, IsTrue, suc};
ghost use Rattle.exact_numbers.specs.Functions.{power_of, is_smaller, least_of, greatest_of, floor_of, ceiling_of, absolute_of};
ghost use Rattle.exact_numbers.specs.Rational.{ℚ, over, whole, zero_ℚ, one_ℚ, ◌+ℚ◌, ◌*ℚ◌, ◌-ℚ◌, neg_ℚ, ◌≤ℚ◌, ◌<ℚ◌, inverse_of, quotient_of, IsWhole};
ghost use Rattle.exact_numbers.specs.Sums.{sum_over, sum_below};

// Two pairs are one number exactly where they are equal crosswise, and each number is its own pair.
pub fn numbers_are_pairs()
    ensures same { (p r : ℤ) (q s : ℕ) → 0 < q → 0 < s
        → (over p q ≡ over r s) ↔ (p *ℤ pos s ≡ r *ℤ pos q) }
    ensures own { (x : ℚ) → over x.top x.bottom ≡ x }
    ensures sum { (p r : ℤ) (q s : ℕ) → 0 < q → 0 < s
        → over p q +ℚ over r s ≡ over (p *ℤ pos s +ℤ r *ℤ pos q) (q * s) }
    ensures product { (p r : ℤ) (q s : ℕ) → 0 < q → 0 < s
        → over p q *ℚ over r s ≡ over (p *ℤ r) (q * s) }
    ensures negation { (p : ℤ) (q : ℕ) → 0 < q → neg_ℚ (over p q) ≡ over (neg_ℤ p) q }
    ensures order { (p r : ℤ) (q s : ℕ) → 0 < q → 0 < s
        → (over p q ≤ℚ over r s) ↔ ((p *ℤ pos s) ≤ℤ (r *ℤ pos q)) }
{}

// A commutative ring.
pub fn sums_and_products()
    ensures sum_comm { (x y : ℚ) → x +ℚ y ≡ y +ℚ x }
    ensures sum_assoc { (x y z : ℚ) → x +ℚ y +ℚ z ≡ x +ℚ (y +ℚ z) }
    ensures sum_zero { (x : ℚ) → x +ℚ zero_ℚ ≡ x }
    ensures sum_neg { (x : ℚ) → x +ℚ neg_ℚ x ≡ zero_ℚ }
    ensures product_comm { (x y : ℚ) → x *ℚ y ≡ y *ℚ x }
    ensures product_assoc { (x y z : ℚ) → x *ℚ y *ℚ z ≡ x *ℚ (y *ℚ z) }
    ensures product_one { (x : ℚ) → x *ℚ one_ℚ ≡ x }
    ensures distributes { (x y z : ℚ) → x *ℚ (y +ℚ z) ≡ x *ℚ y +ℚ x *ℚ z }
{}

// A quotient is missing exactly at 0, and times the divisor it is the dividend.
pub fn quotients()
    ensures missing { (x : ℚ) → quotient_of x zero_ℚ ≡ None }
    ensures there { (x y : ℚ) → y ≢ zero_ℚ → (z : ℚ) × (quotient_of x y ≡ Some z) × (z *ℚ y ≡ x) }
{}

pub fn order()
    ensures reflexive { (x : ℚ) → x ≤ℚ x }
    ensures transitive { (x y z : ℚ) → x ≤ℚ y → y ≤ℚ z → x ≤ℚ z }
    ensures antisymmetric { (x y : ℚ) → x ≤ℚ y → y ≤ℚ x → x ≡ y }
    ensures either_way { (x y : ℚ) → (x ≤ℚ y) ⊎ (y <ℚ x) }
    ensures test { (x y : ℚ) → IsTrue (is_smaller x y) ↔ (x <ℚ y) }
    ensures not_both { (x y : ℚ) → x ≤ℚ y → ¬ (y <ℚ x) }
    ensures sums { (x y z : ℚ) → x ≤ℚ y → (x +ℚ z) ≤ℚ (y +ℚ z) }
    ensures products { (x y z : ℚ) → zero_ℚ ≤ℚ z → x ≤ℚ y → (x *ℚ z) ≤ℚ (y *ℚ z) }
{}

pub fn whole_numbers()
    ensures whole { (a : ℤ) → IsWhole (whole a) }
    ensures only { (x : ℚ) → IsWhole x → (z : ℤ) × (x ≡ whole z) }
    ensures same { (a b : ℤ) → whole a ≡ whole b → a ≡ b }
{}

// The least, and the greatest, of some numbers is one of them, and none is below, or above, it.
pub fn least_and_greatest()
    ensures least { (x : ℚ) (xs : List ℚ)
        → Contains (x ∷ xs) (least_of x xs) × All (λ y. least_of x xs ≤ℚ y) (x ∷ xs) }
    ensures greatest { (x : ℚ) (xs : List ℚ)
        → Contains (x ∷ xs) (greatest_of x xs) × All (λ y. y ≤ℚ greatest_of x xs) (x ∷ xs) }
{}

// The floor is the whole number that is at most x and less than 1 below it; the ceiling is on the
// other side.
pub fn whole_parts()
    ensures floor_whole { (x : ℚ) → IsWhole (floor_of x) }
    ensures floor { (x : ℚ) → (floor_of x ≤ℚ x) × (x <ℚ (floor_of x +ℚ one_ℚ)) }
    ensures ceiling_whole { (x : ℚ) → IsWhole (ceiling_of x) }
    ensures ceiling { (x : ℚ) → (x ≤ℚ ceiling_of x) × ((ceiling_of x -ℚ one_ℚ) <ℚ x) }
{}

// The absolute value is x or -x, and not below 0.
pub fn absolute_values()
    ensures one { (x : ℚ) → (absolute_of x ≡ x) ⊎ (absolute_of x ≡ neg_ℚ x) }
    ensures above { (x : ℚ) → zero_ℚ ≤ℚ absolute_of x }
{}

// A power is a repeated product.
pub fn powers()
    ensures none { (x : ℚ) → power_of x 0 ≡ one_ℚ }
    ensures one_more { (x : ℚ) (n : ℕ) → power_of x (suc n) ≡ x *ℚ power_of x n }
{}

// Sums over lists, at lists of any numbers and functions of them.
pub fn sums_over_lists()
    ensures append { (f : ℚ → ℚ) (xs ys : List ℚ)
        → sum_over f (xs ++ ys) ≡ sum_over f xs +ℚ sum_over f ys }
    ensures both { (f g : ℚ → ℚ) (xs : List ℚ)
        → sum_over (λ x. f x +ℚ g x) xs ≡ sum_over f xs +ℚ sum_over g xs }
    ensures scaled { (k : ℚ) (f : ℚ → ℚ) (xs : List ℚ)
        → sum_over (λ x. k *ℚ f x) xs ≡ k *ℚ sum_over f xs }
    ensures swapped { (f : ℚ → ℚ → ℚ) (xs ys : List ℚ)
        → sum_over (λ x. sum_over (λ y. f x y) ys) xs
        ≡ sum_over (λ y. sum_over (λ x. f x y) xs) ys }
    ensures ordered { (f g : ℚ → ℚ) (xs : List ℚ) → All (λ x. f x ≤ℚ g x) xs
        → sum_over f xs ≤ℚ sum_over g xs }
{}
