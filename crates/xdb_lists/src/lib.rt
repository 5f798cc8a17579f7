//! Lists in the order of a number, lists of numbers, the least first, and lists in the order of a comparison:
//! definitions, and their laws, each a function that does nothing.
#![tactic(auto)]

ghost use Rattle.std.specs.Prelude.{◌≡◌, ◌<◌, ◌==◌, ◌&&◌, ◌||◌, ◌++◌, not, ℕ, Bool, List, [], ◌∷◌, get_or, set, map, filter, reverse, Some, None, Result, Ok, Err, IsTrue, true, if◌then◌else◌};
ghost use Rattle.std.specs.declared.cmp.Ordering.{Ordering};
ghost use Rattle.std.specs.Cmp.{IsTotalOrder};
ghost use Rattle.std.specs.List.{insert, remove, All, list_all};
ghost use Rattle.std.specs.List.Sorted.{IsSortedBy, IsStableBy};
ghost use Rattle.std.specs.Ordering.{is_lt};
ghost use Rattle.std.specs.Result.{is_ok};
ghost use Rattle.xdb_lists.specs.Keyed.{IsRising, at_key, without, replaced};
ghost use Rattle.xdb_lists.specs.Numbers.{is_among, NumbersRise, EndsRising};
ghost use Rattle.xdb_lists.specs.Sorted.{is_sorted, put_all_in};

/// A search tells what stands under the number.
pub fn searches_tell<X>()
    ensures found { (key : X → ℕ) (num : ℕ) (xs : List X) (at : ℕ) (d : X) → IsRising key xs → EndsRising key xs num (Ok at)
        → at_key key num xs ≡ Some (get_or xs at d) }
    ensures missing { (key : X → ℕ) (num : ℕ) (xs : List X) (at : ℕ) → EndsRising key xs num (Err at) → at_key key num xs ≡ None }
    ensures among { (num : ℕ) (ns : List ℕ) (r : Result ℕ ℕ) → EndsRising (λ n. n) ns num r → is_ok r ≡ is_among num ns }
{}

/// What stands under each number once an element was put in place of the one that was found, put in where none was,
/// taken out, or put at the end.
pub fn one_element_changes<X>()
    ensures set { (key : X → ℕ) (xs : List X) (at : ℕ) (y : X) → IsRising key xs → EndsRising key xs (key y) (Ok at)
        → (n : ℕ) → at_key key n (set xs at y) ≡ (if n == key y then Some y else at_key key n xs) }
    ensures insert { (key : X → ℕ) (xs : List X) (at : ℕ) (y : X) → EndsRising key xs (key y) (Err at)
        → (n : ℕ) → at_key key n (insert xs at y) ≡ (if n == key y then Some y else at_key key n xs) }
    ensures remove { (key : X → ℕ) (num : ℕ) (xs : List X) (at : ℕ) (d : X) → IsRising key xs → EndsRising key xs num (Ok at)
        → (n : ℕ) → at_key key n (remove xs at) ≡ (if n == num then None else at_key key n xs) }
    ensures pushed { (key : X → ℕ) (xs : List X) (y : X) → at_key key (key y) xs ≡ None
        → (n : ℕ) → at_key key n (xs ++ y ∷ []) ≡ (if n == key y then Some y else at_key key n xs) }
{}

/// The order stays where an element is put where a search for its number ends.
pub fn order_stays<X>()
    ensures set { (key : X → ℕ) (xs : List X) (at : ℕ) (y : X) → IsRising key xs → EndsRising key xs (key y) (Ok at) → IsRising key (set xs at y) }
    ensures insert { (key : X → ℕ) (xs : List X) (at : ℕ) (y : X) → IsRising key xs → EndsRising key xs (key y) (Err at) → IsRising key (insert xs at y) }
{}

/// Which numbers there are once one was put in or taken out.
pub fn one_number_changes()
    ensures insert { (ns : List ℕ) (at num n : ℕ) → is_among n (insert ns at num) ≡ (n == num || is_among n ns) }
    ensures remove { (num : ℕ) (ns : List ℕ) (at : ℕ) → NumbersRise ns → EndsRising (λ n. n) ns num (Ok at)
        → (n : ℕ) → is_among n (remove ns at) ≡ (not (n == num) && is_among n ns) }
{}

/// At the place where a number is found, an element is taken out or put in place as it is by the number.
pub fn places_are_numbers<X>()
    ensures without { (key : X → ℕ) (num : ℕ) (xs : List X) (at : ℕ) → IsRising key xs → EndsRising key xs num (Ok at) → remove xs at ≡ without key num xs }
    ensures replaced { (key : X → ℕ) (r : X) (num : ℕ) (xs : List X) (at : ℕ) → IsRising key xs → EndsRising key xs num (Ok at)
        → set xs at r ≡ replaced key r num xs }
{}

/// What stands under a number has it, and has what holds of all; and so it is once one was put in its place.
pub fn replaced_ones_are_found<X>()
    ensures number { (key : X → ℕ) (n : ℕ) (q : X) (xs : List X) → at_key key n xs ≡ Some q → key q ≡ n }
    ensures all { (key : X → ℕ) (test : X → Bool) (n : ℕ) (q : X) (xs : List X) → All (λ x. IsTrue (test x)) xs → at_key key n xs ≡ Some q → IsTrue (test q) }
    ensures found { (key : X → ℕ) (n : ℕ) (q r : X) (xs : List X) → key r ≡ n → at_key key n xs ≡ Some q → at_key key n (replaced key r n xs) ≡ Some r }
    ensures rising { (key : X → ℕ) (xs ys : List X) → map key ys ≡ map key xs → IsRising key xs → IsRising key ys }
{}

/// A sorted list stays so where elements are left out or put in, and what holds of each still does.
pub fn sorted_lists_stay<X>()
    ensures filter { (cmp : X → X → Ordering) (keeps : X → Bool) (xs : List X) → is_sorted cmp xs ≡ true → is_sorted cmp (filter keeps xs) ≡ true }
    ensures put_in { (cmp : X → X → Ordering) → IsTotalOrder cmp → (more xs : List X) → is_sorted cmp xs ≡ true → is_sorted cmp (put_all_in cmp more xs) ≡ true }
    ensures all { (cmp : X → X → Ordering) (test : X → Bool) (more xs : List X) → list_all test more ≡ true → list_all test xs ≡ true → list_all test (put_all_in cmp more xs) ≡ true }
{}

/// Elements put in one by one stand as a stable sort puts them that has the last of them first and the list behind.
pub fn one_sort_puts_all_in<X>()
    ensures { (cmp : X → X → Ordering) → IsTotalOrder cmp → (more xs made : List X) → is_sorted cmp xs ≡ true
        → IsSortedBy (λ a b. is_lt (cmp a b)) made → IsStableBy (λ a b. is_lt (cmp a b)) (reverse more ++ xs) made → made ≡ put_all_in cmp more xs }
{}
